//! Acts: what a dispatcher does.
ghost use Rattle.std.specs.Prelude.{◌≡◌, ◌≤◌, ◌++◌, length};
ghost use Rattle.std.specs.Vec.{vec_capacity};

/// A start or a send.
#[derive(Clone, Copy, Debug, PartialEq, Eq)]
pub struct Act {
    /// Its time, in time units of the graph file.
    pub time: u64,
    /// The number of the item.
    pub item: u32,
    /// The place of its column in the item's row.
    pub column: u32,
}

/// Adds acts to those so far, for which there is room.
pub fn append_acts(acts: &mut Vec<Act>, more: &[Act])
    requires { length (acts.old.items ++ more.now) ≤ vec_capacity acts.old }
    ensures acts { acts.new.items ≡ acts.old.items ++ more.now }
    ensures room { vec_capacity acts.new ≡ vec_capacity acts.old }
{
    for act in more {
        acts.push_reserved(*act);
    }
}
