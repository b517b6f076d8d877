//! In how many ways fault counts add up to at most the fault number.
ghost use Rattle.std.specs.Prelude.{◌≡◌, ◌<◌, ◌≤◌, ◌+◌, ℕ, length, get_or};
ghost use Rattle.cpg_reach.specs.WaysTable.{AreWays};

/// How many entries the table has: one for each number of fault counts, from none to 128.
const MOST_COUNTS: usize = 129;

/// For each number of fault counts, in how many ways they add up to at most some number.
pub type WaysTable = [u64; MOST_COUNTS];

/// Turns the ways to add up to at most `faults` into those to add up to at most one more. The contract alone names
/// `faults`.
fn raise(table: &mut [u64], faults: u8)
    requires few { faults < 8 }
    requires ways { AreWays faults table.old }
    ensures { AreWays (faults + 1) table.new }
{
    for counts in 1..MOST_COUNTS {
        // the last of `counts` counts is 0, so the others add up to at most one more, or it can be lowered by one
        table[counts] += table[counts - 1];
    }
}

/// Returns, for each number of fault counts up to 128, in how many ways they add up to at most `faults`.
pub fn ways_of(faults: u8) -> WaysTable
    requires { faults ≤ 8 }
    ensures { AreWays faults result }
{
    // there is one way to add up to at most 0: all counts are 0
    let mut table = [1; MOST_COUNTS];
    for limit in 0..faults {
        raise(&mut table, limit);
    }
    table
}
