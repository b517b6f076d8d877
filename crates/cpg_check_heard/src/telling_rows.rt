//! The rows of all items, with the means by which they tell nodes something.
ghost use Rattle.std.specs.Prelude.{◌≡◌, ◌<◌, IfOk, List, length};
ghost use Rattle.cpg_base.specs.Graph.{item_count};
ghost use Rattle.cpg_base.specs.WellFormed.{WellFormed};
ghost use Rattle.cpg_table.specs.Table.{NodeTable};
ghost use Rattle.cpg_violation.specs.SievedRows.{AreSievedRows};
ghost use Rattle.cpg_check_heard.specs.TellingRows.{AreTellingRows, means_of};

use cpg_base::{Item, OutOfMemory, Problem};
use cpg_cube::Column;
use cpg_rules::Admitted;
use cpg_violation::SievedRow;
use std::alloc::Global;

/// By what means the columns of a row tell nodes something.
#[derive(Clone, Copy)]
pub(crate) enum Means {
    /// By the ends of a process, which tell its own node its fault count and its value.
    End { process: u32 },
    /// By frames that arrive `delay` time units after the column's time, and tell the column's literals. Those of a
    /// broadcast carry the value of its condition as well.
    Frame { delay: u64, condition: Option<u32> },
}

/// The row of an item, and by what means it tells.
#[derive(Clone, Copy)]
pub(crate) struct TellingRow<'a> {
    /// The columns of the item, sieved.
    pub(crate) sieved: &'a SievedRow<'a>,
    /// By what means these columns tell.
    pub(crate) means: Means,
    /// How many literals its longest cube has.
    pub(crate) most_literals: usize,
}

/// How many literals the longest cube of these columns has; 0 if there are no columns.
fn most_literals(columns: &[Column]) -> usize {
    let mut most = 0;
    for column in columns {
        most = column.cube.literals().len().max(most);
    }
    most
}

/// By what means the row of an item tells: a start's by ends, a message's or a broadcast's by frames, a slot after
/// their columns.
fn means_of(problem: &Problem, item: u32) -> Means
    requires item { item < item_count problem.now }
    requires formed { WellFormed problem.now }
    ensures { result ≡ means_of problem.now item }
{
    let condition = match problem.item(item) {
        Item::Start(process) => return Means::End { process },
        Item::Message(_) => None,
        Item::Broadcast(condition) => Some(condition),
    };
    let delay = problem.slot_length(problem.home(item));
    Means::Frame { delay, condition }
}

/// For each item, by number, its row and by what means that tells.
pub(crate) fn telling_rows<'a>(
    alloc: Global,
    admitted: &Admitted,
    rows: &'a [SievedRow<'a>],
) -> Result<Vec<TellingRow<'a>>, OutOfMemory>
    requires { length rows.now ≡ item_count admitted.now.graph }
    ensures { IfOk result (λ telling_rows. (tables : List NodeTable) → AreSievedRows tables (item_count admitted.now.graph) rows.now
        → AreTellingRows admitted.now.graph tables (item_count admitted.now.graph) telling_rows.items) }
{
    let problem = admitted.problem();
    let mut telling_rows = Vec::new(alloc);
    for item in 0..problem.item_count() {
        let sieved = &rows[item as usize];
        let means = means_of(problem, item);
        telling_rows.push(TellingRow {
            sieved,
            means,
            most_literals: most_literals(sieved.columns),
        })?;
    }
    Ok(telling_rows)
}
