//! Items of one node that are apart: one of two is always over before the other begins.
ghost use Rattle.std.specs.Prelude.{◌≡◌, ◌⊎◌, ℕ, All, Contains, IfOk, IfSome, List, true};
ghost use Rattle.std.specs.Bool.{OnTrue};
ghost use Rattle.cpg_base.specs.Graph.{Graph};
ghost use Rattle.cpg_base.specs.Scenario.{Scenario, IsScenario};
ghost use Rattle.cpg_cube.specs.Cube.{matches};
ghost use Rattle.cpg_table.specs.Table.{NodeTable};
ghost use Rattle.cpg_tree.specs.Space.{IsInSpace};
ghost use Rattle.cpg_cube.specs.Column.{column_at};
ghost use Rattle.cpg_check_quick.specs.SpannedRows.{AreSpannedRows, IsSpannedRow, IsPast};
ghost use Rattle.cpg_check_quick.specs.Order.{IsApart, IsApartAt};
ghost use Rattle.cpg_check_quick.specs.Sequences.{AreSequences};

use crate::sequences::Sequences;
use crate::span::ItemSpan;
use crate::spanned_rows::{SpannedRow, SpannedRows};
use cpg_base::OutOfMemory;
use cpg_cube::Column;
use cpg_row_trees::Test;
use cpg_tree::Space;
use std::alloc::Global;

/// Tests whether an item that begins by its column at a place is over by `time`, or another one that begins at `time`
/// is over by the time of that column.
#[derive(Drop)]
struct ApartTest<'a> {
    /// The columns of the first item.
    columns: &'a [Column],
    /// How long the first item lasts at most.
    span: &'a ItemSpan,
    /// How long the other one lasts at most.
    other: &'a ItemSpan,
    /// When the other one begins.
    time: u64,
}

impl<'a> Test for ApartTest<'a> {
    ghost guarantees = { λ test place s. IfSome place (λ i. IsPast test.span.now (column_at test.columns.now i).time test.time s ⊎
        IsPast test.other.now test.time (column_at test.columns.now i).time s) };

    /// Whether the test passes at a place in all scenarios of a space. False guarantees nothing.
    fn passes(&self, place: Option<u32>, space: &Space) -> bool {
        // no column matches, so the first item doesn't begin
        let Some(place) = place else {
            return true;
        };
        // a row's tree has no place beyond the columns
        let Some(column) = self.columns.get(place as usize) else {
            return false;
        };
        if self.span.is_past(column.time, self.time, space) {
            return true;
        }
        self.other.is_past(self.time, column.time, space)
    }
}

impl<'a> SpannedRow<'a> {
    /// Whether the item and another, which begins at `time`, are apart whichever column matches: the last column is so
    /// early, or the first so late. False guarantees nothing.
    fn is_clear(&self, other: &SpannedRow<'_>, time: u64) -> bool
        ensures { OnTrue result ((g : Graph) (tables : List NodeTable) (lasts : ℕ → Scenario → ℕ) (y x : ℕ) (s : Scenario) →
            IsSpannedRow g tables (lasts y) y self.now → IsSpannedRow g tables (lasts x) x other.now → IsScenario g s →
            IsApartAt tables (lasts y s) y (lasts x s) time s) }
    {
        if self.is_early(time) {
            return true;
        }
        // some column may be before the time
        if self.first < time {
            return false;
        }
        other.span.longest <= self.first - time
    }

    /// Whether the item and another, which begins at `time`, are apart in the scenarios of a space. False guarantees
    /// nothing.
    fn is_apart(&self, other: &SpannedRow<'_>, space: &Space, time: u64) -> bool
        ensures { OnTrue result ((g : Graph) (tables : List NodeTable) (lasts : ℕ → Scenario → ℕ) (y x : ℕ) (s : Scenario) →
            IsSpannedRow g tables (lasts y) y self.now → IsSpannedRow g tables (lasts x) x other.now → IsScenario g s → IsInSpace space.now s →
            IsApartAt tables (lasts y s) y (lasts x s) time s) }
    {
        if self.is_clear(other, time) {
            return true;
        }
        // without a tree it isn't known which columns match in the space
        let Some(tree) = self.tree else {
            return false;
        };
        let test = ApartTest {
            columns: self.columns,
            span: &self.span,
            other: &other.span,
            time,
        };
        tree.do_pass(space, &test)
    }
}

impl<'a> SpannedRows<'a> {
    /// Whether each of these items and another, which begins at `time`, are apart whichever columns match. False
    /// guarantees nothing.
    fn are_clear(&self, items: &[u32], other: &SpannedRow<'_>, time: u64) -> bool
        ensures { OnTrue result ((g : Graph) (tables : List NodeTable) (lasts : ℕ → Scenario → ℕ) (x : ℕ) (s : Scenario) →
            AreSpannedRows lasts g tables self.now → IsSpannedRow g tables (lasts x) x other.now → IsScenario g s →
            All (λ y. IsApartAt tables (lasts y s) y (lasts x s) time s) items.now) }
    {
        for item in items {
            // nothing is known of an item without a row
            let Some(row) = self.list.get(*item as usize) else {
                return false;
            };
            if !row.is_clear(other, time) {
                return false;
            }
        }
        true
    }

    /// Whether each of these items and another, which begins at `time`, are apart in the scenarios of a space. False
    /// guarantees nothing.
    fn are_apart_in(&self, items: &[u32], other: &SpannedRow<'_>, space: &Space, time: u64) -> bool
        ensures { OnTrue result ((g : Graph) (tables : List NodeTable) (lasts : ℕ → Scenario → ℕ) (x : ℕ) (s : Scenario) →
            AreSpannedRows lasts g tables self.now → IsSpannedRow g tables (lasts x) x other.now → IsScenario g s → IsInSpace space.now s →
            All (λ y. IsApartAt tables (lasts y s) y (lasts x s) time s) items.now) }
    {
        for item in items {
            // nothing is known of an item without a row
            let Some(row) = self.list.get(*item as usize) else {
                return false;
            };
            if !row.is_apart(other, space, time) {
                return false;
            }
        }
        true
    }

    /// Whether each of these items and another, which begins by this column, are apart wherever the column matches.
    /// False guarantees nothing.
    fn are_apart_at(&self, items: &[u32], other: &SpannedRow<'_>, column: &Column) -> bool
        ensures { OnTrue result ((g : Graph) (tables : List NodeTable) (lasts : ℕ → Scenario → ℕ) (x : ℕ) (s : Scenario) →
            AreSpannedRows lasts g tables self.now → IsSpannedRow g tables (lasts x) x other.now → IsScenario g s →
            matches column.now.cube s ≡ true → All (λ y. IsApartAt tables (lasts y s) y (lasts x s) column.now.time s) items.now) }
    {
        // mostly the times alone show it
        if self.are_clear(items, other, column.time) {
            return true;
        }
        let mut space = self.everywhere;
        // no scenario matches the column
        if !space.narrow_to(column.cube.literals()) {
            return true;
        }
        self.are_apart_in(items, other, &space, column.time)
    }

    /// Whether each of these items and another are apart wherever a column of each matches. False guarantees nothing.
    fn are_apart(&self, items: &[u32], other: &SpannedRow<'_>) -> bool
        ensures { OnTrue result ((g : Graph) (tables : List NodeTable) (lasts : ℕ → Scenario → ℕ) (x : ℕ) →
            AreSpannedRows lasts g tables self.now → IsSpannedRow g tables (lasts x) x other.now → All (λ y. IsApart lasts g tables y x) items.now) }
    {
        for column in other.columns {
            if !self.are_apart_at(items, other, column) {
                return false;
            }
        }
        true
    }
}

impl<'a> Sequences<'a> {
    /// Those of these items of a node that aren't known to be apart from item `other` by the sequence of the node's
    /// items.
    fn untold(
        &self,
        alloc: Global,
        node: u32,
        items: &[u32],
        other: u32,
    ) -> Result<Vec<u32>, OutOfMemory>
        ensures { IfOk result (λ left. (g : Graph) (tables : List NodeTable) (lasts : ℕ → Scenario → ℕ) → AreSequences lasts g tables self.now →
            All (λ y. Contains left.items y ⊎ IsApart lasts g tables y other) items.now) }
    {
        let mut left = Vec::new(alloc);
        for item in items {
            // one of the two is always over before the other begins
            if self.is_before(node, *item, other) {
                continue;
            }
            if self.is_before(node, other, *item) {
                continue;
            }
            left.push(*item)?;
        }
        Ok(left)
    }

    /// Whether each of these items of a node and item `other` are apart wherever a column of each matches. False
    /// guarantees nothing.
    pub(crate) fn are_apart(
        &self,
        alloc: Global,
        node: u32,
        items: &[u32],
        other: u32,
    ) -> Result<bool, OutOfMemory>
        ensures { IfOk result (λ r. OnTrue r ((g : Graph) (tables : List NodeTable) (lasts : ℕ → Scenario → ℕ) →
            AreSequences lasts g tables self.now → All (λ y. IsApart lasts g tables y other) items.now)) }
    {
        let left = self.untold(alloc, node, items, other)?;
        match self.rows.list.get(other as usize) {
            Some(row) => Ok(self.rows.are_apart(left.as_slice(), row)),
            // nothing is known of an item without a row
            None => Ok(false),
        }
    }
}
