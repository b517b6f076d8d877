//! A row's columns that may be sorted already.
ghost use Rattle.std.specs.Prelude.{IfOk, IsPermutation};
ghost use Rattle.std.specs.Bool.{OnTrue};
ghost use Rattle.cpg_base.specs.Graph.{process_count};
ghost use Rattle.cpg_base.specs.Numbers.{numbers_below};
ghost use Rattle.cpg_cube.specs.Keys.{AreByLows};

use crate::{Column, by_least_scenario};
use cpg_base::{Order, OutOfMemory, Problem};
use std::alloc::Global;

/// The columns of a row, and whether they are known to stand in the order of the least scenarios that they match.
#[derive(Drop)]
pub struct Listing {
    /// The columns.
    pub columns: Vec<Column>,
    /// Whether the columns are known to stand in that order; if not, they may still do.
    pub is_sorted: bool,
}

impl Listing {
    /// Returns the columns sorted by the least scenario that each matches: no cube's lows come before those of an earlier
    /// column, along the order. The one error is `OutOfMemory`.
    pub fn sorted(
        self,
        alloc: Global,
        problem: &Problem,
        order: &Order,
    ) -> Result<Vec<Column>, OutOfMemory>
        requires order { IsPermutation (numbers_below (process_count problem.now)) order.now }
        requires sorted { OnTrue self.is_sorted (AreByLows (λ c. c.cube) problem.now order.now self.columns.items) }
        ensures permutation { IfOk result (λ r. IsPermutation self.columns.items r.items) }
        ensures by_lows { IfOk result (λ r. AreByLows (λ c. c.cube) problem.now order.now r.items) }
    {
        let Listing { columns, is_sorted } = self;
        if is_sorted {
            return Ok(columns);
        }
        by_least_scenario(alloc, problem, order, columns)
    }
}
