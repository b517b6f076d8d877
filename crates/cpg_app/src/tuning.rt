//! The output of `tune`: what compiles answer for a graph with other fault numbers and other parts.
ghost use Rattle.std.specs.Prelude.{◌≡◌, ◌+◌, All, IfOk, IfErr, string_bytes};
ghost use Rattle.cpg_rules.specs.Admission.{IsAdmitted};
ghost use Rattle.cpg_tune.specs.Tuned.{AreAnswers, IsTuning};
ghost use Rattle.cpg_tune.specs.RetunedLaws.{ShowsNoFault};
ghost use Rattle.cpg_refusal.specs.declared.halt.Halt.TheVariants.{Memory};
ghost use Rattle.cpg_app.specs.Outputs.{Puts};
ghost use Rattle.cpg_app.specs.Tunes.{IsCompileAnswer, IsJudged, IsTuningText};
ghost use Rattle.cpg_outputs.specs.Tunes.{IsNamedRow};

use crate::output::Output;
use cpg_base::{MOST_FAULTS, OutOfMemory, Problem};
use cpg_core::{CompileFault, greatest_finish};
use cpg_outputs::tuning_text;
use cpg_refusal::Halt;
use cpg_rules::{Admitted, RuleFault, admit};
use cpg_tune::{Judge, Judged, Tuned, tune};
use std::alloc::Global;

/// Admits a graph that breaks no rule. The one error is that memory runs out.
fn admit_again(alloc: Global, problem: Problem) -> Result<Admitted, OutOfMemory>
    requires { ShowsNoFault problem }
    ensures graph { IfOk result (λ a. a.graph ≡ problem) }
    ensures admitted { IfOk result (λ a. IsAdmitted a.graph a.order a.guards) }
{
    match admit(alloc, problem) {
        Ok(admitted) => Ok(admitted),
        Err(refused) => match refused.fault {
            RuleFault::OutOfMemory => Err(OutOfMemory),
            // each other fault is of a broken rule, and the graph breaks none
            _ => unreachable!(),
        },
    }
}

/// Compiles an admitted graph. Returns its greatest finish, its first item that is too wide, or the end of a process
/// that is late. The one error is that memory runs out.
fn compile_answer(alloc: Global, admitted: &Admitted) -> Result<Judged, OutOfMemory>
    ensures { IfOk result (IsCompileAnswer admitted.now.graph admitted.now.order) }
{
    // called for its contract: the graph is admitted
    let _order = admitted.first_order();
    match greatest_finish(alloc, admitted) {
        Ok(finish) => Ok(Judged::Worst(finish)),
        Err(CompileFault::TooWide(item)) => Ok(Judged::Wide(item)),
        Err(CompileFault::Late { finish, .. }) => Ok(Judged::Late(finish)),
        Err(CompileFault::OutOfMemory) => Err(OutOfMemory),
    }
}

/// Returns the answers for an admitted graph with each fault number from 0 to 8. The graph isn't admitted again, since
/// its rules, orders and guards don't depend on that number. The one error is that memory runs out.
fn compile_answers(alloc: Global, admitted: Admitted) -> Result<Vec<Judged>, OutOfMemory>
    ensures { IfOk result (λ answers. AreAnswers IsJudged admitted.graph (MOST_FAULTS + 1) answers.items) }
{
    // the graph with the fault number at hand
    let mut varied = admitted;
    let mut answers = Vec::new(alloc);
    for faults in 0..=MOST_FAULTS {
        varied = varied.with_fault_number(alloc, faults)?;
        answers.push(compile_answer(alloc, &varied)?)?;
    }
    Ok(answers)
}

/// A judge of graphs by their compiles.
#[derive(Drop)]
struct Compiler {
    /// Where the memory of the compiles comes from.
    alloc: Global,
}

impl Judge for Compiler {
    ghost use Rattle.cpg_tune.specs.RetunedLaws.{ShowsNoFault};
    ghost use Rattle.cpg_app.specs.Tunes.{IsJudged};
    ghost use Rattle.cpg_app.specs.OneJudged.{one_judged};

    // it is asked only about graphs that break no rule
    ghost may_ask = { λ _ g. ShowsNoFault g };

    // its answer is that of the graph's compile
    ghost answers = { λ _ g judged. IsJudged g judged };

    fn judge_each(&mut self, problem: Problem) -> Result<Vec<Judged>, OutOfMemory> {
        // called for its contract: the graph is within its limits
        let _faults = problem.faults();
        let admitted = admit_again(self.alloc, problem)?;
        let answers = compile_answers(self.alloc, admitted)?;
        Ok(answers)
    }

    // a graph has one answer
    ghost one_answer = { λ _ g a b _ x y. one_judged g a b x y };
}

/// Returns the tuning of an admitted graph by compiles. The one error is that memory runs out.
fn tuned(alloc: Global, admitted: &Admitted) -> Result<Tuned, OutOfMemory>
    ensures tuning { IfOk result (IsTuning IsJudged admitted.now.graph) }
    ensures named { IfOk result (λ t. All (IsNamedRow admitted.now.graph) t.rows) }
{
    let mut judge = Compiler { alloc };
    tune(alloc, admitted.problem(), &mut judge)
}

/// Returns the text of the tuning of an admitted graph. The one error is that memory runs out.
fn text_of_tuning(alloc: Global, admitted: &Admitted) -> Result<String, OutOfMemory>
    ensures { IfOk result (λ text. IsTuningText admitted.now.graph (string_bytes text)) }
{
    let tuned = tuned(alloc, admitted)?;
    tuning_text(alloc, admitted.problem(), &tuned)
}

/// Returns the output for the tuning of an admitted graph. The one halt is that memory ran out.
pub fn tune_admitted(alloc: Global, admitted: &Admitted) -> Result<Output, Halt>
    ensures text { IfOk result (λ o. Puts o (IsTuningText admitted.now.graph)) }
    ensures halt { IfErr result (λ h. h ≡ Memory) }
{
    match text_of_tuning(alloc, admitted) {
        Ok(text) => Ok(Output::Lines(text)),
        Err(_) => Err(Halt::Memory),
    }
}
