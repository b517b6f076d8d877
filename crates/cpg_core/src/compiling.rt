//! From an admitted graph to its tables.
ghost use Rattle.std.specs.Prelude.{◌≡◌, ◌≤◌, ◌<◌, ◌+◌, IfOk, IfErr, IfSome, None};
ghost use Rattle.cpg_order.specs.Urgency.{IsTopological, first_order};
ghost use Rattle.cpg_reach.specs.Wide.{IsNarrow};
ghost use Rattle.cpg_core.specs.GrownFor.{IsGrownFor};
ghost use Rattle.cpg_tracks.specs.Tracks.{HasManyTracks};
ghost use Rattle.cpg_core.specs.Accepted.{order_taken};
ghost use Rattle.cpg_core.specs.Compiled.{IsCompileOrder, IsHelpless, IsInTimeUnder, IsLateUnder};
ghost use Rattle.cpg_core.specs.Compilation.{AreCompiledRows, IsCompilation, ShowsCompileFault};
ghost use Rattle.cpg_core.specs.BuiltRows.{AreBuiltRows};

use crate::choosing::{choose, wide_if_urgent};
use crate::expanding::{Grown, grow, grow_bounded};
use crate::{BuiltRows, CompileFault};
use cpg_base::{Order, OutOfMemory};
use cpg_rules::Admitted;
use cpg_run::{BuildFault, Built};
use cpg_tracks::track_outcomes;
use std::alloc::Global;

/// What a compile makes of a graph.
#[derive(Drop)]
pub struct Compiled {
    /// The tables, with the frozen times, the greatest finish and the greatest excess.
    pub built: Built,
    /// The order under which they were built.
    pub order: Order,
}

/// Returns the end of a process that ends by this excess past its due. Only the contract uses `worst`, the greatest finish:
/// no end is later than that, so the sum doesn't overflow.
fn end_past(due: u64, excess: u64, worst: u64) -> u64
    requires { due + excess ≤ worst }
    ensures { result ≡ due + excess }
{
    due + excess
}

/// Returns the fault `Late` of a graph that is late under its first order: the least scenario with the greatest excess, the
/// least process that has this excess there, and its end. `first` is what was found under the first order.
pub(crate) fn late(admitted: &Admitted, first: Grown) -> CompileFault
    requires grown { IsGrownFor admitted.now.graph admitted.now.order (first_order admitted.now.graph admitted.now.order) first }
    // if the graph gives no order, no item is too wide by its views under the first order
    requires narrow { admitted.now.graph.order ≡ None → IsNarrow admitted.now.graph (first_order admitted.now.graph admitted.now.order) }
    // some end is past its due, and no other order helps
    requires late { 0 < first.excess.time }
    requires helpless { IsHelpless admitted.now.graph admitted.now.order }
    ensures { ShowsCompileFault admitted.now.graph admitted.now.order result }
{
    let problem = admitted.problem();
    let Grown { worst, excess, .. } = first;
    // an excess above 0 is that of some process
    let Some(process) = excess.process else {
        unreachable!()
    };
    CompileFault::Late {
        scenario: excess.scenario,
        process,
        finish: end_past(problem.due(process), excess.time, worst.time),
    }
}

/// Returns what is found under `order`, which the graph gives: the trees of its items, the greatest finish and the greatest
/// excess. The fault `TooWide` shows that a tree on the way is too large.
fn grow_given(alloc: Global, admitted: &Admitted, order: Order) -> Result<Grown, CompileFault>
    requires topological { IsTopological admitted.now.graph order }
    // the given order is the first order
    requires first { order ≡ first_order admitted.now.graph admitted.now.order }
    ensures grown { IfOk result (IsGrownFor admitted.now.graph admitted.now.order (first_order admitted.now.graph admitted.now.order)) }
    ensures fault { IfErr result (ShowsCompileFault admitted.now.graph admitted.now.order) }
{
    match grow_bounded(alloc, admitted, order) {
        Ok(grown) => Ok(grown),
        Err(BuildFault::TooWide(item)) => Err(CompileFault::TooWide(item)),
        Err(BuildFault::OutOfMemory) => Err(CompileFault::OutOfMemory),
    }
}

/// Returns what is found under `order`, the urgency order of a graph that gives no order. The fault `TooWide` names the
/// least item that is too wide by its views.
fn grow_urgent(alloc: Global, admitted: &Admitted, order: Order) -> Result<Grown, CompileFault>
    requires topological { IsTopological admitted.now.graph order }
    // the urgency order is the first order, since the graph gives none
    requires first { order ≡ first_order admitted.now.graph admitted.now.order }
    requires ungiven { admitted.now.graph.order ≡ None }
    ensures grown { IfOk result (IsGrownFor admitted.now.graph admitted.now.order (first_order admitted.now.graph admitted.now.order)) }
    ensures narrow { IfOk result (λ _. IsNarrow admitted.now.graph (first_order admitted.now.graph admitted.now.order)) }
    ensures fault { IfErr result (ShowsCompileFault admitted.now.graph admitted.now.order) }
{
    match grow(alloc, admitted, order) {
        Ok(grown) => Ok(grown),
        Err(BuildFault::TooWide(item)) => Err(CompileFault::TooWide(item)),
        Err(BuildFault::OutOfMemory) => Err(CompileFault::OutOfMemory),
    }
}

/// Returns what is found under the first order: the one that the graph gives, or else the urgency order. The fault `TooWide`
/// names the least item that is too wide by its views; if the graph gives an order, what is made is too large as well.
pub(crate) fn grow_first(alloc: Global, admitted: &Admitted) -> Result<Grown, CompileFault>
    ensures grown { IfOk result (IsGrownFor admitted.now.graph admitted.now.order (first_order admitted.now.graph admitted.now.order)) }
    // if the graph gives no order, no item is too wide by its views under the first order
    ensures narrow { IfOk result (λ _. admitted.now.graph.order ≡ None → IsNarrow admitted.now.graph (first_order admitted.now.graph admitted.now.order)) }
    ensures fault { IfErr result (ShowsCompileFault admitted.now.graph admitted.now.order) }
{
    let order = admitted.first_order().copy()?;
    // a given order is bounded by the sizes of its trees, the urgency order by the views of its items
    if admitted.given().is_some() {
        let grown = grow_given(alloc, admitted, order)?;
        return Ok(grown);
    }
    let grown = grow_urgent(alloc, admitted, order)?;
    Ok(grown)
}

/// Returns the rows of the first order, under which nothing is late. `grown` is what was found under it. The fault
/// `TooWide` shows that a row, or all rows together, have too many columns.
fn rows_of_first(
    alloc: Global,
    admitted: &Admitted,
    grown: Grown,
) -> Result<BuiltRows, CompileFault>
    requires topological { IsTopological admitted.now.graph grown.order }
    // `grown` is what was found under the first order
    requires first { grown.order ≡ first_order admitted.now.graph admitted.now.order }
    requires grown { IsGrownFor admitted.now.graph admitted.now.order grown.order grown }
    requires in_time { grown.excess.time ≡ 0 }
    ensures rows { IfOk result (AreBuiltRows admitted.now.graph admitted.now.order grown.order) }
    ensures excess { IfOk result (λ r. r.excess ≡ grown.excess) }
    ensures fault { IfErr result (ShowsCompileFault admitted.now.graph admitted.now.order) }
{
    match grown.build_bounded(alloc, admitted) {
        Ok(rows) => Ok(rows),
        Err(BuildFault::TooWide(item)) => Err(CompileFault::TooWide(item)),
        Err(BuildFault::OutOfMemory) => Err(CompileFault::OutOfMemory),
    }
}

/// Returns what is found under the track order `order`, under which no item is too wide: the trees of its items, the greatest
/// finish and the greatest excess.
fn grow_tracks(alloc: Global, admitted: &Admitted, order: Order) -> Result<Grown, OutOfMemory>
    requires topological { IsTopological admitted.now.graph order }
    requires narrow { IsNarrow admitted.now.graph order }
    ensures { IfOk result (IsGrownFor admitted.now.graph admitted.now.order order) }
{
    match grow(alloc, admitted, order) {
        Ok(grown) => Ok(grown),
        // the order was taken only because no item is too wide under it
        Err(BuildFault::TooWide(_)) => unreachable!(),
        Err(BuildFault::OutOfMemory) => Err(OutOfMemory),
    }
}

/// Returns the fault of a graph that is late, or the fault that comes first when its first order is grown: that something
/// is too wide, or that memory runs out.
pub(crate) fn shown_late(alloc: Global, admitted: &Admitted) -> CompileFault
    // some end is past its due under the first order, and no other order helps
    requires late { IsLateUnder admitted.now.graph admitted.now.order (first_order admitted.now.graph admitted.now.order) }
    requires helpless { IsHelpless admitted.now.graph admitted.now.order }
    ensures { ShowsCompileFault admitted.now.graph admitted.now.order result }
{
    // called for its clause: the graph is admitted
    let _order = admitted.first_order();
    match grow_first(alloc, admitted) {
        Ok(first) => late(admitted, first),
        Err(fault) => fault,
    }
}

/// Returns the rows of the first order, given that it is taken and nothing is late under it. A fault shows why the graph isn't
/// compiled.
fn compile_first(alloc: Global, admitted: &Admitted) -> Result<BuiltRows, CompileFault>
    // the first order is the compile's, and nothing is late under it
    requires taken { IsCompileOrder admitted.now.graph admitted.now.order (first_order admitted.now.graph admitted.now.order) }
    requires in_time { IsInTimeUnder admitted.now.graph admitted.now.order (first_order admitted.now.graph admitted.now.order) }
    ensures rows { IfOk result (AreCompiledRows admitted.now.graph admitted.now.order) }
    ensures fault { IfErr result (ShowsCompileFault admitted.now.graph admitted.now.order) }
{
    // called for its clause: the graph is admitted
    let _order = admitted.first_order();
    let first = grow_first(alloc, admitted)?;
    let rows = rows_of_first(alloc, admitted, first)?;
    Ok(rows)
}

/// Returns the rows of the first order of a graph that has too many tracks for a track order. A fault shows why the graph
/// isn't compiled; it is `Late` if something is late under the first order.
fn compile_untracked(alloc: Global, admitted: &Admitted) -> Result<BuiltRows, CompileFault>
    requires { HasManyTracks admitted.now.graph }
    ensures rows { IfOk result (AreCompiledRows admitted.now.graph admitted.now.order) }
    ensures fault { IfErr result (ShowsCompileFault admitted.now.graph admitted.now.order) }
{
    // called for its clause: the graph is admitted
    let _order = admitted.first_order();
    let first = grow_first(alloc, admitted)?;
    // some process ends past its due, and there is no track order to help
    if first.excess.time > 0 {
        return Err(late(admitted, first));
    }
    let rows = rows_of_first(alloc, admitted, first)?;
    Ok(rows)
}

/// Returns the rows of the track order `order`, given that it is taken and nothing is late under it.
fn compile_tracks(
    alloc: Global,
    admitted: &Admitted,
    order: Order,
) -> Result<BuiltRows, OutOfMemory>
    // if the graph gives no order, no item is too wide by its views under the first order
    requires first { admitted.now.graph.order ≡ None → IsNarrow admitted.now.graph (first_order admitted.now.graph admitted.now.order) }
    // the track order is topological, and no item is too wide under it
    requires topological { IsTopological admitted.now.graph order }
    requires narrow { IsNarrow admitted.now.graph order }
    // it is the compile's order, and nothing is late under it
    requires taken { IsCompileOrder admitted.now.graph admitted.now.order order }
    requires in_time { IsInTimeUnder admitted.now.graph admitted.now.order order }
    ensures { IfOk result (AreCompiledRows admitted.now.graph admitted.now.order) }
{
    // called for its clause: the graph is admitted
    let _order = admitted.first_order();
    let grown = grow_tracks(alloc, admitted, order)?;
    // `build` fails only if memory runs out, since no item is too wide under this order
    let rows = grown.build(alloc, admitted)?;
    Ok(rows)
}

/// Returns the rows of the order that is taken, given that nothing is late under it. `order` is the track order if that is
/// taken, and `None` if the first order is. A fault shows why the graph isn't compiled.
fn compile_taken(
    alloc: Global,
    admitted: &Admitted,
    order: Option<Order>,
) -> Result<BuiltRows, CompileFault>
    // if the graph gives no order, no item is too wide by its views under the first order
    requires first { admitted.now.graph.order ≡ None → IsNarrow admitted.now.graph (first_order admitted.now.graph admitted.now.order) }
    // the track order, if that is taken, is topological, and no item is too wide under it
    requires topological { IfSome order (IsTopological admitted.now.graph) }
    requires narrow { IfSome order (IsNarrow admitted.now.graph) }
    // what is taken is the compile's order, and nothing is late under it
    requires taken { IsCompileOrder admitted.now.graph admitted.now.order (order_taken (first_order admitted.now.graph admitted.now.order) order) }
    requires in_time { IsInTimeUnder admitted.now.graph admitted.now.order (order_taken (first_order admitted.now.graph admitted.now.order) order) }
    ensures rows { IfOk result (AreCompiledRows admitted.now.graph admitted.now.order) }
    ensures fault { IfErr result (ShowsCompileFault admitted.now.graph admitted.now.order) }
{
    match order {
        Some(order) => {
            let rows = compile_tracks(alloc, admitted, order)?;
            Ok(rows)
        }
        None => {
            let rows = compile_first(alloc, admitted)?;
            Ok(rows)
        }
    }
}

/// Returns the rows of a graph under the compile's order. This is the order that the graph gives. If it gives none, it is
/// the track order if that has less excess than the urgency order, or as much and an earlier finish, and no item is too
/// wide under it; and otherwise the urgency order. Under it every process ends by its due in every scenario, and a node
/// acts alike in scenarios that it can't tell apart. If there are at most 256 tracks, their latest times decide which order
/// that is, and no trees of the other order are made.
pub fn compile_rows(alloc: Global, admitted: &Admitted) -> Result<BuiltRows, CompileFault>
    ensures rows { IfOk result (AreCompiledRows admitted.now.graph admitted.now.order) }
    ensures fault { IfErr result (ShowsCompileFault admitted.now.graph admitted.now.order) }
{
    // with more than 256 tracks there is no track order to choose, so the first order is taken
    let Some(tracks) = track_outcomes(alloc, admitted)? else {
        let rows = compile_untracked(alloc, admitted)?;
        return Ok(rows);
    };
    // `None` also if the graph gives an order: then the sizes of its trees are bounded instead
    if let Some(item) = wide_if_urgent(alloc, admitted)? {
        return Err(CompileFault::TooWide(item));
    }
    let taken = choose(alloc, admitted, tracks.as_slice())?;
    // something is late even under the better order; the fault shows what is late under the first
    if taken.figures.excess > 0 {
        return Err(shown_late(alloc, admitted));
    }
    let rows = compile_taken(alloc, admitted, taken.order)?;
    Ok(rows)
}

/// Returns the tables that have these rows, with the order under which they were built.
fn assembled(alloc: Global, admitted: &Admitted, rows: BuiltRows) -> Result<Compiled, OutOfMemory>
    requires { AreCompiledRows admitted.now.graph admitted.now.order rows }
    ensures { IfOk result (IsCompilation admitted.now.graph admitted.now.order) }
{
    let order = rows.order.copy()?;
    let built = rows.assemble(alloc, admitted)?;
    Ok(Compiled { built, order })
}

/// Returns the tables of a graph, those of the rows that `compile_rows` makes, with the order under which they were built. A
/// fault shows why there are none, as `CompileFault` says.
pub fn compile(alloc: Global, admitted: &Admitted) -> Result<Compiled, CompileFault>
    ensures compiled { IfOk result (IsCompilation admitted.now.graph admitted.now.order) }
    ensures fault { IfErr result (ShowsCompileFault admitted.now.graph admitted.now.order) }
{
    let rows = compile_rows(alloc, admitted)?;
    let compiled = assembled(alloc, admitted, rows)?;
    Ok(compiled)
}
