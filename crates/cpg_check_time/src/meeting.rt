//! Those columns of a row that may match a scenario together with a cube.
ghost use Rattle.std.specs.Prelude.{◌≡◌, ◌≤◌, ◌<◌, ◌++◌, ◌∷◌, [], ℕ, Bool, All, Contains, IfOk, length, map, true};
ghost use Rattle.std.specs.List.{list_any};
ghost use Rattle.cpg_cube.specs.Cube.{matches};
ghost use Rattle.cpg_base.specs.Scenario.{Scenario};
ghost use Rattle.cpg_cube.specs.declared.column.Column.{Column};
ghost use Rattle.cpg_cube.specs.Column.{column_at};
ghost use Rattle.cpg_violation.specs.SievedRows.{IsSievedRow};

use cpg_base::OutOfMemory;
use cpg_cube::{Column, Cube};
use cpg_violation::SievedRow;
use std::alloc::Global;

/// Adds the column at `place` to `found`; nothing if there is none.
fn push_column<'a>(
    columns: &'a [Column],
    place: u32,
    found: &mut Vec<&'a Column>,
) -> Result<(), OutOfMemory>
    ensures there { IfOk result (λ _. place < length columns.now
        → map (λ b. b.now) found.new.items ≡ map (λ b. b.now) found.old.items ++ column_at columns.now place ∷ []) }
    ensures none { IfOk result (λ _. length columns.now ≤ place → found.new.items ≡ found.old.items) }
{
    if let Some(column) = columns.get(place as usize) {
        found.push(column)?;
    }
    Ok(())
}

/// Those columns of a row that may match a scenario together with a cube: each that does is among them. So a test that
/// asks both to match passes at one of them exactly where it does at one of the whole row (`same`).
pub(crate) fn meeting<'a>(
    alloc: Global,
    row: &SievedRow<'a>,
    cube: &Cube,
) -> Result<Vec<&'a Column>, OutOfMemory>
    requires { IsSievedRow row.now.columns.now row.now }
    ensures same { IfOk result (λ found. (s : Scenario) (test : Column → Bool)
        → ((d : Column) → test d ≡ true → (matches cube.now s ≡ true) × (matches d.cube s ≡ true))
        → list_any test (map (λ b. b.now) found.items) ≡ list_any test row.now.columns.now) }
    ensures among { IfOk result (λ found. All (λ d. Contains row.now.columns.now d) (map (λ b. b.now) found.items)) }
{
    let places = row.sieve.candidates(alloc, row.columns, cube)?;
    let mut found = Vec::new(alloc);
    found.reserve(places.len())?;
    for place in &places {
        push_column(row.columns, *place, &mut found)?;
    }
    Ok(found)
}
