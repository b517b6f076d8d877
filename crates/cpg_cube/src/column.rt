//! Columns of a row: a time with the scenarios that it is for.
ghost use Rattle.std.specs.Prelude.{◌≡◌, IfOk, map};

use crate::{Cube, Cubed};
use cpg_base::OutOfMemory;
use std::alloc::{AllocError, Global};

/// A column of a row: a time of an item, and the scenarios that it is for.
#[derive(Drop)]
pub struct Column {
    /// The time, in time units of the graph file.
    pub time: u64,
    /// The scenarios that the column is for: those that the cube matches.
    pub cube: Cube,
}

impl Column {
    /// Returns an equal column. The one error is `OutOfMemory`.
    pub fn copy(&self) -> Result<Column, OutOfMemory>
        ensures { IfOk result (λ column. column ≡ self.now) }
    {
        Ok(Column {
            time: self.time,
            cube: self.cube.copy()?,
        })
    }
}

/// A clone is an equal column, as `copy` makes it.
impl Clone for Column {
    ghost is_clone = { λ column copy. copy ≡ column };

    fn clone(&self) -> Result<Column, AllocError> {
        Ok(self.copy()?)
    }
}

impl Cubed for Column {
    ghost cubed = { λ column. column.cube };

    fn cube(&self) -> &Cube {
        &self.cube
    }
}

/// Returns a reference to the cube of each column, in their order. The one error is `OutOfMemory`.
pub fn cubes_of<'a>(alloc: Global, columns: &'a [Column]) -> Result<Vec<&'a Cube>, OutOfMemory>
    ensures { IfOk result (λ cubes. map (λ b. b.now) cubes.items ≡ map (λ c. c.cube) columns.now) }
{
    let mut cubes = Vec::new(alloc);
    cubes.reserve(columns.len())?;
    for column in columns {
        cubes.push(&column.cube)?;
    }
    Ok(cubes)
}
