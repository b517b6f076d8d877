//! The rules of valid tables.
ghost use Rattle.std.specs.Prelude.{◌≡◌};
ghost use Rattle.cpg_table.specs.Rules.{number_of_rule};

/// A rule of valid tables (docs/RULES.md).
#[derive(Clone, Copy, Debug, PartialEq, Eq)]
pub enum Rule {
    /// V1: the item of a column that matches is active, and so are the processes of its literals.
    Activity,
    /// V2: no two columns of one row match in one scenario.
    Single,
    /// V3: an active item has a column that matches.
    Present,
    /// V4: each literal of a column that matches is heard at its node by its time.
    Heard,
    /// V5: at a start the release has come and the live inputs are there; at a send the producer has ended.
    Inputs,
    /// V6: no two executions on a node overlap.
    Processor,
    /// V7: each send is at the start of a slot of its own node, and no two items of the node share one.
    Slot,
    /// V8: the columns of a frozen item, those that match in some scenario, have one time.
    Frozen,
    /// V9: each execution of a process ends by the due of the process.
    Due,
    /// V10: a hear row has the sender's columns, each later by the length of the sender's slot.
    Hears,
}

impl Rule {
    /// Returns the number by which the rule is named, from 1 for V1 to 10 for V10.
    pub fn number(self) -> u8
        ensures { result ≡ number_of_rule self }
    {
        match self {
            Rule::Activity => 1,
            Rule::Single => 2,
            Rule::Present => 3,
            Rule::Heard => 4,
            Rule::Inputs => 5,
            Rule::Processor => 6,
            Rule::Slot => 7,
            Rule::Frozen => 8,
            Rule::Due => 9,
            Rule::Hears => 10,
        }
    }
}
