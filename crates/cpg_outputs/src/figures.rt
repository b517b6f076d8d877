//! What a trial measures.

/// The result of a play.
#[derive(Clone, Copy)]
pub struct Ending {
    /// The greatest end of an execution, in time units; 0 if there is none.
    pub finish: u64,
    /// How often a node that was asked to take its turn had to wait.
    pub waits: u64,
}

/// The results of a trial's plays.
#[derive(Clone, Copy)]
pub struct Endings {
    /// The play without faults and with every value false.
    pub fault_free: Ending,
    /// The play of the least scenario that has the greatest finish.
    pub worst_case: Ending,
    /// The play with every value true and two faults of the first process.
    pub all_true: Ending,
}

/// What a trial measures: the sizes of a generated graph and of its tables, and the results of three plays.
#[derive(Clone, Copy)]
pub struct Trial {
    /// How many processes there are.
    pub processes: u32,
    /// How many edges there are.
    pub edges: u32,
    /// How many conditions there are.
    pub conditions: u32,
    /// How many columns the tables of all nodes have, those of what they hear included.
    pub columns: u64,
    /// The greatest finish in any scenario, in time units.
    pub worst: u64,
    /// The results of the plays.
    pub endings: Endings,
}
