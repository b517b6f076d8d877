//! Which items are always over before others begin.
ghost use Rattle.std.specs.Prelude.{◌≡◌, ◌<◌, ℕ, All, IfSome, List, Some, true};
ghost use Rattle.std.specs.Bool.{OnTrue};
ghost use Rattle.cpg_base.specs.Graph.{Graph};
ghost use Rattle.cpg_base.specs.Scenario.{Scenario, IsScenario};
ghost use Rattle.cpg_cube.specs.Cube.{matches};
ghost use Rattle.cpg_table.specs.Table.{NodeTable, columns_of};
ghost use Rattle.cpg_tree.specs.Space.{IsInSpace};
ghost use Rattle.cpg_cube.specs.Column.{column_at};
ghost use Rattle.cpg_check_quick.specs.SpannedRows.{AreSpannedRows, HasAll, IsSpannedRow, IsOverAt, IsPast};
ghost use Rattle.cpg_check_quick.specs.Order.{IsOver, IsOverBy};

use crate::span::ItemSpan;
use crate::spanned_rows::{SpannedRow, SpannedRows};
use cpg_cube::Column;
use cpg_row_trees::{PairTest, Places, Test};
use cpg_tree::Space;
use cpg_violation::has_come;

/// Tests whether an item that begins by its column at a place is over by `time`.
#[derive(Drop)]
struct OverTest<'a> {
    /// The columns of the item.
    columns: &'a [Column],
    /// How long the item lasts at most.
    span: &'a ItemSpan,
    /// The time by which the item has to be over.
    time: u64,
}

impl<'a> Test for OverTest<'a> {
    ghost guarantees = { λ test place s. IfSome place (λ i. IsPast test.span.now (column_at test.columns.now i).time test.time s) };

    /// Whether the test passes at a place in all scenarios of a space. False guarantees nothing.
    fn passes(&self, place: Option<u32>, space: &Space) -> bool {
        // no column matches, so there is nothing to be over
        let Some(place) = place else {
            return true;
        };
        // a row's tree has no place beyond the columns
        let Some(column) = self.columns.get(place as usize) else {
            return false;
        };
        self.span.is_past(column.time, self.time, space)
    }
}

/// Tests whether an item is over by the time of another, at a place of the other's columns and one of its own columns.
#[derive(Drop)]
struct Before<'a> {
    /// The row of the item that has to be over.
    row: &'a SpannedRow<'a>,
    /// The columns of the other item.
    columns: &'a [Column],
}

impl<'a> PairTest for Before<'a> {
    ghost guarantees = { λ test place own s. IfSome place (λ i. IsOverAt test.row.now (column_at test.columns.now i).time own s) };

    /// Whether the test passes at a place of the other item whatever the item's own place is. False guarantees nothing.
    fn passes_with_any(&self, first: Option<u32>) -> bool {
        // the other item has no column that matches, so it doesn't begin
        let Some(place) = first else {
            return true;
        };
        // a row's tree has no place beyond the columns
        let Some(column) = self.columns.get(place as usize) else {
            return false;
        };
        has_come(self.row.last, self.row.span.longest, column.time)
    }

    /// Whether the test passes at a place of the other item and one of the item itself, in all scenarios of a space.
    /// False guarantees nothing.
    fn passes(&self, first: Option<u32>, second: Option<u32>, space: &Space) -> bool {
        // the other item has no column that matches, so it doesn't begin
        let Some(place) = first else {
            return true;
        };
        // a row's tree has no place beyond the columns
        let Some(column) = self.columns.get(place as usize) else {
            return false;
        };
        self.row.is_over_from(second, space, column.time)
    }
}

impl<'a> SpannedRow<'a> {
    /// Whether the item is over by a time even if it begins by its last column and lasts longest. False guarantees
    /// nothing.
    pub(crate) fn is_early(&self, time: u64) -> bool
        ensures { OnTrue result ((g : Graph) (tables : List NodeTable) (lasts : Scenario → ℕ) (x : ℕ) (s : Scenario) →
            IsSpannedRow g tables lasts x self.now → IsScenario g s → IsOverBy tables (lasts s) x time s) }
    {
        has_come(self.last, self.span.longest, time)
    }

    /// Whether the item, begun by its column at a place, is over by a time in the scenarios of a space; true if there
    /// is no place. False guarantees nothing.
    fn is_over_from(&self, place: Option<u32>, space: &Space, time: u64) -> bool
        ensures { OnTrue result ((s : Scenario) → IsInSpace space.now s → IsOverAt self.now time place s) }
    {
        let test = OverTest {
            columns: self.columns,
            span: &self.span,
            time,
        };
        test.passes(place, space)
    }

    /// Whether the item is over by the time of another, whose tree is `tree`, wherever a column of each matches. A walk
    /// down both trees compares just the columns that match together. False guarantees nothing. `everywhere` is a space
    /// of all scenarios.
    fn ends_before(&self, everywhere: &Space, other: &SpannedRow<'_>, tree: &Places) -> bool
        ensures { OnTrue result ((g : Graph) (tables : List NodeTable) (lasts : ℕ → Scenario → ℕ) (long : Scenario → ℕ) (y x : ℕ) →
            HasAll g everywhere.now → IsSpannedRow g tables (lasts y) y self.now → IsSpannedRow g tables long x other.now → other.now.tree.now ≡ Some tree.now → IsOver lasts g tables y x) }
    {
        // even its latest end is no later than the other's first time
        if has_come(self.last, self.span.longest, other.first) {
            return true;
        }
        // without a tree it isn't known which columns match together
        let Some(own) = self.tree else {
            return false;
        };
        let test = Before {
            row: self,
            columns: other.columns,
        };
        tree.do_pass_with(own, everywhere, &test)
    }

    /// Whether the item is over by a time in the scenarios of a space, by whichever columns match there. False
    /// guarantees nothing.
    pub(crate) fn is_over(&self, space: &Space, time: u64) -> bool
        ensures { OnTrue result ((g : Graph) (tables : List NodeTable) (lasts : Scenario → ℕ) (x : ℕ) (s : Scenario) →
            IsSpannedRow g tables lasts x self.now → IsScenario g s → IsInSpace space.now s → IsOverBy tables (lasts s) x time s) }
    {
        if self.is_early(time) {
            return true;
        }
        // without a tree it isn't known which columns match in the space
        let Some(tree) = self.tree else {
            return false;
        };
        let test = OverTest {
            columns: self.columns,
            span: &self.span,
            time,
        };
        tree.do_pass(space, &test)
    }
}

impl<'a> SpannedRows<'a> {
    /// Whether each of these items is over by a time even if it begins by its last column and lasts longest. False
    /// guarantees nothing.
    fn are_early(&self, items: &[u32], time: u64) -> bool
        ensures { OnTrue result ((g : Graph) (tables : List NodeTable) (lasts : ℕ → Scenario → ℕ) (s : Scenario) →
            AreSpannedRows lasts g tables self.now → IsScenario g s → All (λ y. IsOverBy tables (lasts y s) y time s) items.now) }
    {
        for item in items {
            // nothing is known of an item without a row
            let Some(row) = self.list.get(*item as usize) else {
                return false;
            };
            if !row.is_early(time) {
                return false;
            }
        }
        true
    }

    /// Whether each of these items is over by a time in the scenarios of a space, by whichever columns match there.
    /// False guarantees nothing.
    fn are_over(&self, items: &[u32], space: &Space, time: u64) -> bool
        ensures { OnTrue result ((g : Graph) (tables : List NodeTable) (lasts : ℕ → Scenario → ℕ) (s : Scenario) →
            AreSpannedRows lasts g tables self.now → IsScenario g s → IsInSpace space.now s → All (λ y. IsOverBy tables (lasts y s) y time s) items.now) }
    {
        for item in items {
            // nothing is known of an item without a row
            let Some(row) = self.list.get(*item as usize) else {
                return false;
            };
            if !row.is_over(space, time) {
                return false;
            }
        }
        true
    }

    /// Whether each of these items is over by the time of a column, wherever that matches. False guarantees nothing.
    pub(crate) fn are_over_at(&self, items: &[u32], column: &Column) -> bool
        ensures { OnTrue result ((g : Graph) (tables : List NodeTable) (lasts : ℕ → Scenario → ℕ) (s : Scenario) →
            AreSpannedRows lasts g tables self.now → IsScenario g s → matches column.now.cube s ≡ true →
            All (λ y. IsOverBy tables (lasts y s) y column.now.time s) items.now) }
    {
        // mostly the times alone show it
        if self.are_early(items, column.time) {
            return true;
        }
        let mut space = self.everywhere;
        // no scenario matches the column
        if !space.narrow_to(column.cube.literals()) {
            return true;
        }
        self.are_over(items, &space, column.time)
    }

    /// Whether each of these items is over by the time of another, which has these columns, wherever a column of each
    /// matches. False guarantees nothing.
    pub(crate) fn come_before(&self, items: &[u32], columns: &[Column]) -> bool
        ensures { OnTrue result ((g : Graph) (tables : List NodeTable) (lasts : ℕ → Scenario → ℕ) (x : ℕ) →
            AreSpannedRows lasts g tables self.now → columns.now ≡ columns_of tables x → All (λ y. IsOver lasts g tables y x) items.now) }
    {
        for column in columns {
            if !self.are_over_at(items, column) {
                return false;
            }
        }
        true
    }

    /// Whether each of these items is over by the time of another, whose row is `row` and whose tree is `tree`,
    /// wherever a column of each matches. False guarantees nothing.
    fn end_before(&self, items: &[u32], row: &SpannedRow<'_>, tree: &Places) -> bool
        ensures { OnTrue result ((g : Graph) (tables : List NodeTable) (lasts : ℕ → Scenario → ℕ) (long : Scenario → ℕ) (x : ℕ) →
            AreSpannedRows lasts g tables self.now → IsSpannedRow g tables long x row.now → row.now.tree.now ≡ Some tree.now → All (λ y. IsOver lasts g tables y x) items.now) }
    {
        for item in items {
            // nothing is known of an item without a row
            let Some(one) = self.list.get(*item as usize) else {
                return false;
            };
            if !one.ends_before(&self.everywhere, row, tree) {
                return false;
            }
        }
        true
    }

    /// Whether each of these items is over by the time of another, whose row is `row`, wherever a column of each
    /// matches. False guarantees nothing.
    pub(crate) fn precede(&self, items: &[u32], row: &SpannedRow<'_>) -> bool
        ensures { OnTrue result ((g : Graph) (tables : List NodeTable) (lasts : ℕ → Scenario → ℕ) (long : Scenario → ℕ) (x : ℕ) →
            AreSpannedRows lasts g tables self.now → IsSpannedRow g tables long x row.now → All (λ y. IsOver lasts g tables y x) items.now) }
    {
        // without a tree for the other item, its columns are gone over one by one
        let Some(tree) = row.tree else {
            return self.come_before(items, row.columns);
        };
        self.end_before(items, row, tree)
    }
}
