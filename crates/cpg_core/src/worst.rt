//! The greatest finish of a graph that is compiled, without its tables.
ghost use Rattle.std.specs.Prelude.{◌<◌, IfErr, IfOk};
ghost use Rattle.cpg_core.specs.Accepted.{IsAccepted, ShowsNoFinish};
ghost use Rattle.cpg_core.specs.Compiled.{IsHelpless, IsLateUnder};
ghost use Rattle.cpg_core.specs.GrownFor.{IsGrownFor};
ghost use Rattle.cpg_order.specs.Urgency.{first_order};
ghost use Rattle.cpg_reach.specs.Wide.{IsNarrow};
ghost use Rattle.cpg_tracks.specs.Tracks.{HasManyTracks};

use crate::CompileFault;
use crate::choosing::choose;
use crate::compiling::late;
use crate::expanding::{Grown, grow_narrow};
use cpg_base::OutOfMemory;
use cpg_reach::too_wide;
use cpg_rules::Admitted;
use cpg_tracks::track_outcomes;
use std::alloc::Global;

/// Returns what is found under the first order, under which no item is too wide by its views: the trees of its items, the
/// greatest finish and the greatest excess.
fn grow_narrow_first(alloc: Global, admitted: &Admitted) -> Result<Grown, OutOfMemory>
    requires { IsNarrow admitted.now.graph (first_order admitted.now.graph admitted.now.order) }
    ensures { IfOk result (IsGrownFor admitted.now.graph admitted.now.order (first_order admitted.now.graph admitted.now.order)) }
{
    let order = admitted.first_order().copy()?;
    let grown = grow_narrow(alloc, admitted, order)?;
    Ok(grown)
}

/// Returns the fault `Late` of a late graph in which no item is too wide by its views. `first` is what was found under the
/// first order.
fn late_narrow(admitted: &Admitted, first: Grown) -> CompileFault
    // no item is too wide by its views under the first order
    requires grown { IsGrownFor admitted.now.graph admitted.now.order (first_order admitted.now.graph admitted.now.order) first }
    requires narrow { IsNarrow admitted.now.graph (first_order admitted.now.graph admitted.now.order) }
    // some end is past its due, and no other order helps
    requires late { 0 < first.excess.time }
    requires helpless { IsHelpless admitted.now.graph admitted.now.order }
    ensures { ShowsNoFinish admitted.now.graph admitted.now.order result }
{
    late(admitted, first)
}

/// Returns the fault `Late` of a late graph in which no item is too wide by its views, or `OutOfMemory`. What is found under
/// the first order is made for it.
fn shown_late_narrow(alloc: Global, admitted: &Admitted) -> CompileFault
    requires narrow { IsNarrow admitted.now.graph (first_order admitted.now.graph admitted.now.order) }
    // some end is past its due under the first order, and no other order helps
    requires late { IsLateUnder admitted.now.graph admitted.now.order (first_order admitted.now.graph admitted.now.order) }
    requires helpless { IsHelpless admitted.now.graph admitted.now.order }
    ensures { ShowsNoFinish admitted.now.graph admitted.now.order result }
{
    // called for its clause: the graph is admitted
    let _order = admitted.first_order();
    match grow_narrow_first(alloc, admitted) {
        Ok(first) => late_narrow(admitted, first),
        Err(_) => CompileFault::OutOfMemory,
    }
}

/// Returns the greatest finish of a graph that has too many tracks for a track order, by the trees of its first order. The
/// fault `Late` comes if something is late under it.
fn grown_finish(alloc: Global, admitted: &Admitted) -> Result<u64, CompileFault>
    requires many { HasManyTracks admitted.now.graph }
    requires narrow { IsNarrow admitted.now.graph (first_order admitted.now.graph admitted.now.order) }
    ensures accepted { IfOk result (IsAccepted admitted.now.graph admitted.now.order) }
    ensures fault { IfErr result (ShowsNoFinish admitted.now.graph admitted.now.order) }
{
    // called for its clause: the graph is admitted
    let _order = admitted.first_order();
    let first = grow_narrow_first(alloc, admitted)?;
    // some process ends past its due, and there is no track order to help
    if first.excess.time > 0 {
        return Err(late_narrow(admitted, first));
    }
    Ok(first.worst.time)
}

/// Returns the greatest finish of a graph in which no item is too wide by its views. The fault `Late` comes if the graph is
/// late.
fn narrow_finish(alloc: Global, admitted: &Admitted) -> Result<u64, CompileFault>
    requires narrow { IsNarrow admitted.now.graph (first_order admitted.now.graph admitted.now.order) }
    ensures accepted { IfOk result (IsAccepted admitted.now.graph admitted.now.order) }
    ensures fault { IfErr result (ShowsNoFinish admitted.now.graph admitted.now.order) }
{
    // with more than 256 tracks there is no track order to choose: the trees of the first order are made
    let Some(tracks) = track_outcomes(alloc, admitted)? else {
        let finish = grown_finish(alloc, admitted)?;
        return Ok(finish);
    };
    let taken = choose(alloc, admitted, tracks.as_slice())?;
    // something is late even under the better order; the fault shows what is late under the first
    if taken.figures.excess > 0 {
        return Err(shown_late_narrow(alloc, admitted));
    }
    Ok(taken.figures.worst)
}

/// Returns the greatest finish of a graph that compiles, in time units: that of the tables that `compile` would make. No
/// tables are made. If the graph has at most 256 tracks and nothing is late, no tree is made either: the finish follows
/// from the latest times of the tracks. `TooWide` names the least item that is too wide by its views under the first
/// order, also if the graph gives that order.
pub fn greatest_finish(alloc: Global, admitted: &Admitted) -> Result<u64, CompileFault>
    ensures narrow { IfOk result (λ _. IsNarrow admitted.now.graph (first_order admitted.now.graph admitted.now.order)) }
    ensures accepted { IfOk result (IsAccepted admitted.now.graph admitted.now.order) }
    ensures fault { IfErr result (ShowsNoFinish admitted.now.graph admitted.now.order) }
{
    // no finish is told for such a graph, even if it gives the order and `compile` would make its tables
    if let Some(item) = too_wide(alloc, admitted, admitted.first_order())? {
        return Err(CompileFault::TooWide(item));
    }
    let finish = narrow_finish(alloc, admitted)?;
    Ok(finish)
}
