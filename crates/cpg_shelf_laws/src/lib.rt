//! An earlier contract of a run, stated over what a shelf reports as the bytes of its files. It follows from the
//! present one, which is stated over the bytes that the shelf gave. It is about ten commands, from `show` to `audit`,
//! and says nothing of any other.
#![tactic(auto)]

ghost use Rattle.cpg_shelf_laws.specs.Told.{RunsKeepWhatWasTold};

/// A lawful run that keeps its shelf also keeps the contract over what the shelf reports. The law is in the contract of
/// this function, which does nothing.
pub fn runs_keep_what_was_told()
    ensures { RunsKeepWhatWasTold }
{}
