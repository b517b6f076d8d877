//! The top call: it takes the words of a command, a shelf and two sinks, and returns an exit status.
#![tactic(auto)]

ghost use Rattle.cpg_app.specs.Joined.{FrontsAreRefused, PacksAreTaken, ShowAndCompileAgree};

mod auditing;
mod column_counts;
mod halt;
mod heads;
mod output;
mod periods;
mod playing;
mod top;
mod trial_figures;
mod trial_plays;
mod trials;
mod tuning;
mod work;

pub use top::{run, run_without_words};
pub use trial_figures::run_trial;

/// If memory suffices, the other commands accept the pack that `compile` wrote for a graph. With that graph, `check`
/// finds it safe, `play` plays it for each scenario file of the graph, and `audit` audits each log of the graph by it.
/// `node` prints the table of each of its nodes.
pub fn packs_are_taken()
    ensures { PacksAreTaken }
{}

/// If what `compile` wrote is cut short anywhere, each command that reads packs rejects it, at the place where it ends.
pub fn fronts_are_refused()
    ensures { FrontsAreRefused }
{}

/// What `show` printed and what `compile` wrote for a graph are of one admitted graph. Their tables ask the same in
/// every scenario.
pub fn show_and_compile_agree()
    ensures { ShowAndCompileAgree }
{}
