//! Guards of processes, the rules of graphs, and which graphs are admitted.
#![tactic(auto)]

ghost use Rattle.cpg_rules.specs.Faults.{AdmittedShowNoFault};

mod admission;
mod apart;
mod composing;
mod edges;
mod fault_number;
mod given;
mod growing;
mod joins;
mod laws;
mod shared;
mod slots;
mod steps;
mod tree;
mod trees;

pub use admission::{Admitted, Refused, RuleFault, admit};
pub use laws::ways_are_deciding;
pub use tree::{GuardTop, GuardTree};
pub use trees::{GuardFault, GuardTrees, guards};

/// A graph that keeps all rules shows no fault but that memory runs out.
pub fn admitted_show_no_fault()
    ensures { AdmittedShowNoFault }
{}
