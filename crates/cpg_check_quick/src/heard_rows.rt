//! The rows of items whose frames a node hears, and which literals these frames tell it.
ghost use Rattle.std.specs.Prelude.{◌≡◌, ◌≤◌, ◌⊎◌, ℕ, Some, All, Contains, IfOk, IfSome, List, true};
ghost use Rattle.std.specs.Bool.{OnTrue};
ghost use Rattle.cpg_base.specs.Graph.{Graph};
ghost use Rattle.cpg_base.specs.Scenario.{Scenario, IsScenario, number_of};
ghost use Rattle.cpg_cube.specs.Cube.{matches};
ghost use Rattle.cpg_cube.specs.declared.literal.Literal.{Literal};
ghost use Rattle.cpg_table.specs.Heard.{exactly, frame_value};
ghost use Rattle.cpg_table.specs.Table.{NodeTable};
ghost use Rattle.cpg_tree.specs.Space.{IsInSpace};
ghost use Rattle.cpg_cube.specs.Column.{column_at};
ghost use Rattle.cpg_check_quick.specs.SpannedRows.{AreSpannedRows};
ghost use Rattle.cpg_check_quick.specs.Hearing.{AreLeft};
ghost use Rattle.cpg_check_quick.specs.Order.{frame};
ghost use Rattle.cpg_check_quick.specs.HeardRows.{AreToldIn, HasCome, IsHeardRow, IsTold, IsToldIn};

use crate::spanned_rows::SpannedRows;
use cpg_base::{FIRST_VALUE, Item, OutOfMemory, Problem};
use cpg_cube::{Column, Literal};
use cpg_row_trees::{Places, Test};
use cpg_tree::Space;
use cpg_violation::has_come;
use std::alloc::Global;

/// The row of an item that a node hears.
#[derive(Clone, Copy)]
pub(crate) struct HeardRow<'a> {
    /// The item's number.
    pub(crate) item: u32,
    /// The columns of the item.
    pub(crate) columns: &'a [Column],
    /// The tree of the places of the columns, by which it is found which match in a space.
    pub(crate) tree: &'a Places,
    /// No column is at an earlier time.
    pub(crate) first: u64,
    /// How long after its column's time a frame is there.
    pub(crate) delay: u64,
    /// The variable of the condition whose value the frames carry; `None` if they carry none.
    pub(crate) value: Option<u8>,
}

/// Tests whether there is a place, and the frame of the column there has come by `time`.
#[derive(Drop)]
struct ArrivalTest<'a> {
    /// The columns of the item.
    columns: &'a [Column],
    /// How long after its column's time a frame is there.
    delay: u64,
    /// The time by which the frame has to have come.
    time: u64,
}

impl<'a> Test for ArrivalTest<'a> {
    ghost guarantees = { λ test place s. HasCome test.columns.now test.delay test.time place };

    /// Whether the test passes at a place, in any space.
    fn passes(&self, place: Option<u32>, _space: &Space) -> bool {
        let Some(place) = place else {
            return false; // where no column matches, nothing is told
        };
        // a row's tree has no place beyond the columns
        let Some(column) = self.columns.get(place as usize) else {
            return false;
        };
        has_come(column.time, self.delay, self.time)
    }
}

/// Whether a literal implies another: it is on the same variable, and its range is within the other's.
fn is_as_close(literal: &Literal, wanted: &Literal) -> bool
    ensures { OnTrue result ((literal.now.variable ≡ wanted.now.variable) × (wanted.now.low ≤ literal.now.low) × (literal.now.high ≤ wanted.now.high)) }
{
    literal.variable == wanted.variable && wanted.low <= literal.low && literal.high <= wanted.high
}

/// The place of the literal on a variable among literals whose variables rise. If there is no such literal, any place
/// may be given: the caller looks at what is there.
fn literal_index(literals: &[Literal], variable: u8) -> usize {
    // it is there if each lower variable has a literal, as is often so
    if let Some(literal) = literals.get(variable as usize) {
        if literal.variable == variable {
            return variable as usize;
        }
    }
    // a binary search: those before `first` are on lower variables, and those from `end` on aren't
    let mut first = 0;
    let mut end = literals.len();
    while first < end {
        let middle = first + (end - first) / 2;
        match literals.get(middle) {
            Some(literal) if literal.variable < variable => first = middle + 1,
            _ => end = middle,
        }
    }
    first
}

/// The first place from `from` on at which a literal is on this variable or a higher one; past the end if there is
/// none.
fn place_from(literals: &[Literal], from: usize, variable: u8) -> usize {
    for at in from..literals.len() {
        if literals[at].variable >= variable {
            return at;
        }
    }
    literals.len()
}

/// Whether there is a literal at place `at`, and it implies the wanted one.
fn tells_there(literals: &[Literal], at: usize, wanted: &Literal) -> bool
    ensures { OnTrue result (IsToldIn literals.now wanted.now) }
{
    match literals.get(at) {
        Some(literal) => is_as_close(literal, wanted),
        None => false,
    }
}

/// Whether one of these literals implies the wanted one. If their variables don't rise, false guarantees nothing.
fn tells(literals: &[Literal], wanted: &Literal) -> bool
    ensures { OnTrue result (IsToldIn literals.now wanted.now) }
{
    tells_there(literals, literal_index(literals, wanted.variable), wanted)
}

/// Whether there is a column at `place`, and one of its literals implies the wanted one.
fn tells_at(columns: &[Column], place: u32, wanted: &Literal) -> bool
    ensures { OnTrue result (IsToldIn (column_at columns.now place).cube wanted.now) }
{
    match columns.get(place as usize) {
        Some(column) => tells(column.cube.literals(), wanted),
        None => false,
    }
}

/// Whether there is a column at each of these places, and one of its literals implies the wanted one.
fn tell_at_all(columns: &[Column], places: &[u32], wanted: &Literal) -> bool
    ensures { OnTrue result (All (λ i. IsToldIn (column_at columns.now i).cube wanted.now) places.now) }
{
    for place in places {
        if !tells_at(columns, *place, wanted) {
            return false;
        }
    }
    true
}

/// The column at the only one of these places; `None` if there isn't exactly one place, or no column is there.
fn alone<'a>(columns: &'a [Column], places: &[u32]) -> Option<&'a Column>
    ensures { IfSome result (λ column. All (λ i. column_at columns.now i ≡ column.now) places.now) }
{
    if places.len() != 1 {
        return None;
    }
    let Some(column) = columns.get(places[0] as usize) else {
        return None;
    };
    Some(column)
}

impl<'a> HeardRow<'a> {
    /// Whether its frames carry the value of a variable.
    fn carries(&self, variable: u8) -> bool
        ensures { OnTrue result (self.now.value ≡ Some variable) }
    {
        match self.value {
            Some(value) => value == variable,
            None => false,
        }
    }

    /// Whether the frame of each column at these places is known to tell the wanted literal. False guarantees nothing.
    fn tells(&self, places: &[u32], wanted: &Literal) -> bool
        ensures { OnTrue result (IsTold self.now.value self.now.columns.now places.now wanted.now) }
    {
        // the frame tells the value itself, so any literal on it that holds
        if self.carries(wanted.variable) {
            return true;
        }
        tell_at_all(self.columns, places, wanted)
    }

    /// Whether the frame of a column is known to tell the wanted literal: by the value that it carries, or by the
    /// literal at place `at` of `own`, the column's literals. False guarantees nothing.
    fn tells_by(&self, own: &[Literal], at: usize, wanted: &Literal) -> bool
        ensures { OnTrue result ((self.now.value ≡ Some wanted.now.variable) ⊎ IsToldIn own.now wanted.now) }
    {
        if self.carries(wanted.variable) {
            return true;
        }
        tells_there(own, at, wanted)
    }

    /// Writes to `left`, in place of what is there, those of the wanted literals that the frame of one column isn't
    /// found to tell. `own` are that column's literals; the variables of both lists rise.
    fn leave_untold_by_one(
        &self,
        own: &[Literal],
        wanted: &[Literal],
        left: &mut Vec<Literal>,
    ) -> Result<(), OutOfMemory>
        ensures among { IfOk result (λ _. (l : Literal) → Contains left.new.items l → Contains wanted.now l) }
        ensures told { IfOk result (λ _. (l : Literal) → Contains wanted.now l →
            Contains left.new.items l ⊎ ((self.now.value ≡ Some l.variable) ⊎ IsToldIn own.now l)) }
    {
        left.clear();
        let mut at = 0;
        // as both variables rise, the search goes on from where it was
        for literal in wanted {
            at = place_from(own, at, literal.variable);
            if self.tells_by(own, at, literal) {
                continue;
            }
            left.push(*literal)?;
        }
        Ok(())
    }

    /// Writes to `left`, in place of what is there, those of the wanted literals that the frames of the columns at
    /// these places aren't all found to tell.
    fn leave_untold_by_each(
        &self,
        places: &[u32],
        wanted: &[Literal],
        left: &mut Vec<Literal>,
    ) -> Result<(), OutOfMemory>
        ensures among { IfOk result (λ _. (l : Literal) → Contains left.new.items l → Contains wanted.now l) }
        ensures told { IfOk result (λ _. (l : Literal) → Contains wanted.now l →
            Contains left.new.items l ⊎ IsTold self.now.value self.now.columns.now places.now l) }
    {
        left.clear();
        for literal in wanted {
            if self.tells(places, literal) {
                continue;
            }
            left.push(*literal)?;
        }
        Ok(())
    }

    /// Writes to `left`, in place of what is there, those of the wanted literals that the frames of the columns at
    /// these places aren't all found to tell. If there is a single place, as there mostly is, its column's literals are
    /// gone over only once.
    fn leave(
        &self,
        places: &[u32],
        wanted: &[Literal],
        left: &mut Vec<Literal>,
    ) -> Result<(), OutOfMemory>
        ensures among { IfOk result (λ _. (l : Literal) → Contains left.new.items l → Contains wanted.now l) }
        ensures told { IfOk result (λ _. (l : Literal) → Contains wanted.now l →
            Contains left.new.items l ⊎ IsTold self.now.value self.now.columns.now places.now l) }
    {
        match alone(self.columns, places) {
            Some(column) => {
                self.leave_untold_by_one(column.cube.literals(), wanted, left)?;
                Ok(())
            }
            None => {
                self.leave_untold_by_each(places, wanted, left)?;
                Ok(())
            }
        }
    }

    /// Writes to `left` those of the wanted literals that its frames aren't found to have told by a column's time
    /// wherever that matches. False if none has been told: then `left` says nothing. The column has to imply each
    /// wanted literal, and the space to have all scenarios that it matches. `places` is overwritten with the places of
    /// own columns that match in the space.
    pub(crate) fn tell(
        &self,
        column: &Column,
        wanted: &[Literal],
        space: &Space,
        places: &mut Vec<u32>,
        left: &mut Vec<Literal>,
    ) -> Result<bool, OutOfMemory>
        ensures { IfOk result (λ told. OnTrue told ((g : Graph) (tables : List NodeTable) (node : ℕ) → IsHeardRow g tables node self.now →
            AreToldIn column.now.cube wanted.now → ((s : Scenario) → IsScenario g s → matches column.now.cube s ≡ true → IsInSpace space.now s) →
            AreLeft g tables node column.now wanted.now left.new.items)) }
    {
        // even the frame of the first column comes too late
        if !has_come(self.first, self.delay, column.time) {
            return Ok(false);
        }
        places.clear();
        let arrivals = ArrivalTest {
            columns: self.columns,
            delay: self.delay,
            time: column.time,
        };
        // false if somewhere in the space no column matches, or the frame of one that does comes too late
        let all = self.tree.gather(space, &arrivals, places)?;
        if !all {
            return Ok(false);
        }
        self.leave(places.as_slice(), wanted, left)?;
        Ok(true)
    }
}

/// The variable of the condition whose value an item's frames carry; `None` if they carry none.
fn value_variable_of(problem: &Problem, item: Item) -> Option<u8>
    ensures { IfSome result (λ v. (s : Scenario) → Contains (frame_value s item) (exactly v (number_of s v))) }
{
    match item {
        // a start isn't sent, and a message carries no value
        Item::Start(_) => None,
        Item::Message(_) => None,
        Item::Broadcast(condition) => {
            // there are at most 32 conditions, whose variables begin at 128, so the number of the variable fits a byte
            if condition < problem.conditions() {
                Some(FIRST_VALUE + condition as u8)
            } else {
                None
            }
        }
    }
}

/// The row of an item as a node hears it; `None` if the node doesn't hear it, or its row has no tree.
fn heard_row_of<'a>(
    problem: &Problem,
    frames: &'a SpannedRows<'a>,
    node: u32,
    item: u32,
) -> Option<HeardRow<'a>>
    ensures { (tables : List NodeTable) → AreSpannedRows (frame problem.now) problem.now tables frames.now → IfSome result (IsHeardRow problem.now tables node) }
{
    // no clause says that the item is the graph's
    if item >= problem.item_count() {
        return None;
    }
    if !problem.is_heard_by(node, item) {
        return None;
    }
    let Some(row) = frames.list.get(item as usize) else {
        return None;
    };
    // without a tree it isn't known which of its columns match
    let Some(tree) = row.tree else {
        return None;
    };
    Some(HeardRow {
        item,
        columns: row.columns,
        tree,
        first: row.first,
        delay: problem.slot_length(problem.home(item)),
        value: value_variable_of(problem, problem.item(item)),
    })
}

/// The rows of those of these items that a node hears and whose rows have trees, in the order of the items.
pub(crate) fn heard_rows<'a>(
    alloc: Global,
    problem: &Problem,
    frames: &'a SpannedRows<'a>,
    node: u32,
    items: &[u32],
) -> Result<Vec<HeardRow<'a>>, OutOfMemory>
    ensures { IfOk result (λ found. (tables : List NodeTable) → AreSpannedRows (frame problem.now) problem.now tables frames.now →
        All (IsHeardRow problem.now tables node) found.items) }
{
    let mut found = Vec::new(alloc);
    for item in items {
        let Some(heard_row) = heard_row_of(problem, frames, node, *item) else {
            continue;
        };
        found.push(heard_row)?;
    }
    Ok(found)
}
