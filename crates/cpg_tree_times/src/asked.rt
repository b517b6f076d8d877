//! Two spaces at once: the scenarios that are asked for, and those that come to a place of a tree.
ghost use Rattle.std.specs.Prelude.{◌≡◌, ◌≤◌, ◌<◌, true};
ghost use Rattle.cpg_base.specs.Scenario.{Scenario, number_of};
ghost use Rattle.cpg_tree_times.specs.Asked.{IsWay, IsInBothSpaces, with_highs, with_lows};
ghost use Rattle.cpg_tree.specs.Space.{above_cut, below_cut, is_open_above, is_open_below};

use cpg_tree::{Lifted, Space};

/// Two spaces: an answer has to be right in the scenarios that lie in both.
#[derive(Clone, Copy)]
pub(crate) struct SpacePair {
    /// The scenarios asked for.
    pub(crate) asked: Space,
    /// The scenarios that the forks on the way to a place of a tree leave.
    pub(crate) walked: Space,
}

/// The highs of a variable in both spaces, from before they were lowered.
#[derive(Clone, Copy)]
pub(crate) struct Highs {
    /// The high in the space asked for.
    asked: u8,
    /// The high in the space walked.
    walked: u8,
}

/// The lows of a variable in both spaces and the faults left, from before they were raised.
#[derive(Clone, Copy)]
pub(crate) struct Lows {
    /// The low in the space asked for.
    asked: Lifted,
    /// The low in the space walked.
    walked: Lifted,
}

/// Where the scenarios asked for go at a fork, with what takes the spaces back to what they were.
#[derive(Clone, Copy)]
pub(crate) enum Way {
    /// All go to the side below; the highs undo the narrowing.
    Below(Highs),
    /// All go to the side above; the lows undo the narrowing.
    Above(Lows),
    /// Both ways, as far as the spaces show: they stay as they are.
    Both,
}

impl SpacePair {
    /// Narrows both spaces to the scenarios up to a cut, and returns the highs from before.
    pub(crate) fn close_above(&mut self, variable: u8, cut: u8) -> Highs
        ensures asked { self.new.asked ≡ below_cut self.old.asked variable cut }
        ensures back { with_highs self.new variable result ≡ self.old }
        ensures lies { (s : Scenario) → IsInBothSpaces self.old s → number_of s variable ≤ cut → IsInBothSpaces self.new s }
    {
        Highs {
            asked: self.asked.close_above(variable, cut),
            walked: self.walked.close_above(variable, cut),
        }
    }

    /// Gives both spaces their highs back.
    pub(crate) fn reopen_above(&mut self, variable: u8, highs: Highs)
        ensures { self.new ≡ with_highs self.old variable highs }
    {
        self.asked.reopen_above(variable, highs.asked);
        self.walked.reopen_above(variable, highs.walked);
    }

    /// Narrows both spaces to the scenarios above a cut, and returns the lows from before.
    pub(crate) fn close_below(&mut self, variable: u8, cut: u8) -> Lows
        requires below { is_open_below self.old.asked variable cut ≡ true }
        requires above { is_open_above self.old.asked variable cut ≡ true }
        requires walked_below { is_open_below self.old.walked variable cut ≡ true }
        requires walked_above { is_open_above self.old.walked variable cut ≡ true }
        ensures asked { self.new.asked ≡ above_cut self.old.asked variable cut }
        ensures back { with_lows self.new variable result ≡ self.old }
        ensures lies { (s : Scenario) → IsInBothSpaces self.old s → cut < number_of s variable → IsInBothSpaces self.new s }
    {
        Lows {
            asked: self.asked.close_below(variable, cut),
            walked: self.walked.close_below(variable, cut),
        }
    }

    /// Gives both spaces their lows and the faults left back.
    pub(crate) fn reopen_below(&mut self, variable: u8, lows: Lows)
        ensures { self.new ≡ with_lows self.old variable lows }
    {
        self.asked.reopen_below(variable, lows.asked);
        self.walked.reopen_below(variable, lows.walked);
    }

    /// Narrows the space asked for to the scenarios up to a cut, and leaves the space walked as it is. It returns the highs of
    /// both from before, so that `reopen_above` can undo it.
    pub(crate) fn ask_below(&mut self, variable: u8, cut: u8) -> Highs
        ensures asked { self.new.asked ≡ below_cut self.old.asked variable cut }
        ensures back { with_highs self.new variable result ≡ self.old }
        ensures lies { (s : Scenario) → IsInBothSpaces self.old s → number_of s variable ≤ cut → IsInBothSpaces self.new s }
    {
        Highs {
            asked: self.asked.close_above(variable, cut),
            walked: self.walked.highest(variable),
        }
    }

    /// Narrows the space asked for to the scenarios above a cut, and leaves the space walked as it is. It returns the lows of
    /// both from before, so that `reopen_below` can undo it.
    pub(crate) fn ask_above(&mut self, variable: u8, cut: u8) -> Lows
        requires below { is_open_below self.old.asked variable cut ≡ true }
        requires above { is_open_above self.old.asked variable cut ≡ true }
        ensures asked { self.new.asked ≡ above_cut self.old.asked variable cut }
        ensures back { with_lows self.new variable result ≡ self.old }
        ensures lies { (s : Scenario) → IsInBothSpaces self.old s → cut < number_of s variable → IsInBothSpaces self.new s }
    {
        Lows {
            asked: self.asked.close_below(variable, cut),
            walked: self.walked.lowest(variable),
        }
    }

    /// Narrows the space walked to the scenarios up to a cut, and leaves the space asked for as it is. It returns the highs of
    /// both from before, so that `reopen_above` can undo it.
    fn walk_below(&mut self, variable: u8, cut: u8) -> Highs
        ensures asked { self.new.asked ≡ self.old.asked }
        ensures back { with_highs self.new variable result ≡ self.old }
        ensures lies { (s : Scenario) → IsInBothSpaces self.old s → number_of s variable ≤ cut → IsInBothSpaces self.new s }
    {
        Highs {
            asked: self.asked.highest(variable),
            walked: self.walked.close_above(variable, cut),
        }
    }

    /// Narrows the space walked to the scenarios above a cut, and leaves the space asked for as it is. It returns the lows of
    /// both from before, so that `reopen_below` can undo it.
    fn walk_above(&mut self, variable: u8, cut: u8) -> Lows
        requires below { is_open_below self.old.walked variable cut ≡ true }
        requires above { is_open_above self.old.walked variable cut ≡ true }
        ensures asked { self.new.asked ≡ self.old.asked }
        ensures back { with_lows self.new variable result ≡ self.old }
        ensures lies { (s : Scenario) → IsInBothSpaces self.old s → cut < number_of s variable → IsInBothSpaces self.new s }
    {
        Lows {
            asked: self.asked.lowest(variable),
            walked: self.walked.close_below(variable, cut),
        }
    }

    /// Says where the scenarios of both spaces go at a fork. If one space shows that they all go one way, only those that go
    /// there are walked from now on; otherwise both spaces stay as they are.
    pub(crate) fn way(&mut self, variable: u8, cut: u8) -> Way
        ensures { IsWay self.old self.new variable cut result }
    {
        // the forks on the way leave only numbers above the cut already
        if !self.walked.is_open_below(variable, cut) {
            return Way::Above(Lows {
                asked: self.asked.lowest(variable),
                walked: self.walked.lowest(variable),
            });
        }
        // the forks on the way leave only numbers up to the cut already
        if !self.walked.is_open_above(variable, cut) {
            return Way::Below(Highs {
                asked: self.asked.highest(variable),
                walked: self.walked.highest(variable),
            });
        }
        // all scenarios asked for go above, so only those above are walked
        if !self.asked.is_open_below(variable, cut) {
            return Way::Above(self.walk_above(variable, cut));
        }
        // all scenarios asked for go below, so only those below are walked
        if !self.asked.is_open_above(variable, cut) {
            return Way::Below(self.walk_below(variable, cut));
        }
        Way::Both
    }
}
