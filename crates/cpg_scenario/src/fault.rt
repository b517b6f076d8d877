//! Why a file isn't a scenario.

use cpg_base::OutOfMemory;

/// What is wrong with a scenario file. Of several causes the first in this order is reported.
#[derive(Clone, Copy, Debug, PartialEq, Eq)]
pub enum Cause {
    /// The bytes aren't UTF-8, or spell no TOML document.
    Toml,
    /// The top has an unknown key, a key has something other than a table, or an entry is of the wrong type.
    Field,
    /// A key of a table is no process name.
    Unknown,
    /// A process that is given a value has no condition.
    Condition,
    /// A fault count is below 0, or all together are more than the graph allows.
    Budget,
    /// A length is below 1 or above the duration of its process with its faults.
    Length,
}

/// Why reading a scenario file failed.
#[derive(Clone, Copy, Debug, PartialEq, Eq)]
pub enum ScenarioFault {
    /// The bytes give no scenario of the graph.
    Bad(Cause),
    /// Memory ran out.
    OutOfMemory,
}

impl From<OutOfMemory> for ScenarioFault {
    ghost use Rattle.std.specs.Prelude.{◌≡◌};
    ghost use Rattle.cpg_scenario.specs.declared.fault.ScenarioFault.{ScenarioFault};

    ghost from_gives = { λ _ fault. fault ≡ ScenarioFault.OutOfMemory };

    fn from(_: OutOfMemory) -> Self {
        ScenarioFault::OutOfMemory
    }
}
