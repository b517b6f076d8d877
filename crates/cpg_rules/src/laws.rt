//! Laws on guards.
ghost use Rattle.cpg_rules.specs.Laws.{WaysAreDeciding};

/// On its way through the tree of a process an outcome meets tests of exactly the conditions that decide the process in
/// it, in urgency order.
pub fn ways_are_deciding()
    ensures { WaysAreDeciding }
{}
