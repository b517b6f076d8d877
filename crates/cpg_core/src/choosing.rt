//! The order that a compile takes, by its figures.
ghost use Rattle.std.specs.Prelude.{◌≡◌, ◌↔◌, IfNone, IfOk, IfSome, IsTrue, None};
ghost use Rattle.std.specs.Bool.{OnTrue};
ghost use Rattle.cpg_core.specs.Accepted.{IsTaken};
ghost use Rattle.cpg_core.specs.Compilation.{ShowsCompileFault};
ghost use Rattle.cpg_core.specs.Compiled.{IsBetter};
ghost use Rattle.cpg_core.specs.declared.fault.CompileFault.{CompileFault};
ghost use Rattle.cpg_latest.specs.Course.{outcomes_of};
ghost use Rattle.cpg_latest.specs.Laws.{HasFigures};
ghost use Rattle.cpg_order.specs.Track.{AreTracks};
ghost use Rattle.cpg_order.specs.Urgency.{IsTopological, first_order};
ghost use Rattle.cpg_reach.specs.Wide.{IsNarrow};
ghost use Rattle.cpg_tracks.specs.Tracks.{HasTrackOrder};

use crate::CompileFault;
use cpg_base::{Order, OutOfMemory, Scenario};
use cpg_latest::{Figures, figures_under};
use cpg_reach::too_wide;
use cpg_rules::Admitted;
use cpg_tracks::merged_order;
use std::alloc::Global;

/// The compile's order, and how late everything ends under it.
#[derive(Drop)]
pub(crate) struct TakenOrder {
    /// The greatest excess and the greatest finish under it.
    pub(crate) figures: Figures,
    /// The track order, and `None` if the first order is taken.
    pub(crate) order: Option<Order>,
}

impl TakenOrder {
    /// Returns the first order as the one that is taken. It has these figures.
    fn first(figures: Figures) -> TakenOrder
        ensures { result ≡ record { figures = figures; order = None } }
    {
        TakenOrder {
            figures,
            order: None,
        }
    }
}

/// Whether two orders are equal. The contract says only that true is right: after a wrong false the track order would be
/// found no better than itself.
fn are_same(first: &Order, second: &Order) -> bool
    ensures { OnTrue result (first.now ≡ second.now) }
{
    first.processes() == second.processes()
}

/// Whether these figures are better than the others: the excess is less, or the excesses are equal and the finish is earlier.
fn is_better(figures: &Figures, other: &Figures) -> bool
    ensures { IsTrue result ↔ IsBetter figures.now.excess figures.now.worst other.now.excess other.now.worst }
{
    // the same excess: the finish decides
    if figures.excess == other.excess {
        return figures.worst < other.worst;
    }
    figures.excess < other.excess
}

/// Returns the least item that is too wide by its views under the urgency order of a graph that gives no order. It is
/// `None` if the graph gives an order, or no item is too wide.
pub(crate) fn wide_if_urgent(alloc: Global, admitted: &Admitted) -> Result<Option<u32>, OutOfMemory>
    // an item that is found is what a compile refuses the graph for
    ensures some { IfOk result (λ found. IfSome found (λ x. ShowsCompileFault admitted.now.graph admitted.now.order (CompileFault.TooWide x))) }
    // if none is found and the graph gives no order, no item is too wide under the first order
    ensures none { IfOk result (λ found. IfNone found
        (admitted.now.graph.order ≡ None → IsNarrow admitted.now.graph (first_order admitted.now.graph admitted.now.order))) }
{
    // with a given order views don't count: its trees are bounded while they grow
    if admitted.given().is_some() {
        return Ok(None);
    }
    let found = too_wide(alloc, admitted, admitted.first_order())?;
    Ok(found)
}

/// Returns which order is taken for a graph that gives none: the track order (`order`) if it is better than the urgency
/// order and no item is too wide under it, and otherwise the urgency order, which is the first order here and has the
/// figures `first`. `tracks` are the outcomes of the graph's tracks.
fn taken_of_tracks(
    alloc: Global,
    admitted: &Admitted,
    tracks: &[Scenario],
    first: Figures,
    order: Order,
) -> Result<TakenOrder, OutOfMemory>
    requires tracks { AreTracks admitted.now.graph (outcomes_of tracks.now) }
    // no item is too wide by its views under the first order
    requires narrow { admitted.now.graph.order ≡ None → IsNarrow admitted.now.graph (first_order admitted.now.graph admitted.now.order) }
    // the graph gives no order
    requires ungiven { admitted.now.graph.order ≡ None }
    // `first` are the figures of the first order
    requires first { HasFigures admitted.now.graph (first_order admitted.now.graph admitted.now.order) first.excess first.worst }
    // `order` is the track order, which is topological
    requires track { HasTrackOrder admitted.now.graph order }
    requires topological { IsTopological admitted.now.graph order }
    ensures { IfOk result (IsTaken admitted.now.graph admitted.now.order) }
{
    let first_order = admitted.first_order();
    // the track order is the urgency order: there are no other figures
    if are_same(&order, first_order) {
        return Ok(TakenOrder::first(first));
    }
    let figures = figures_under(alloc, admitted, &order, tracks)?;
    // the track order isn't better
    if !is_better(&figures, &first) {
        return Ok(TakenOrder::first(first));
    }
    // the track order is better, but some item is too wide under it
    if let Some(_) = too_wide(alloc, admitted, &order)? {
        return Ok(TakenOrder::first(first));
    }
    Ok(TakenOrder {
        figures,
        order: Some(order),
    })
}

/// Returns the compile's order with its figures: the track order if the graph gives no order, has a track order, and that is
/// better than the urgency order and no item is too wide under it, and otherwise the first order. `tracks` are the outcomes
/// of the graph's tracks.
pub(crate) fn choose(
    alloc: Global,
    admitted: &Admitted,
    tracks: &[Scenario],
) -> Result<TakenOrder, OutOfMemory>
    requires tracks { AreTracks admitted.now.graph (outcomes_of tracks.now) }
    // if the graph gives no order, no item is too wide by its views under the first order
    requires narrow { admitted.now.graph.order ≡ None → IsNarrow admitted.now.graph (first_order admitted.now.graph admitted.now.order) }
    ensures { IfOk result (IsTaken admitted.now.graph admitted.now.order) }
{
    let first = figures_under(alloc, admitted, admitted.first_order(), tracks)?;
    // the order that the graph gives is always taken
    if admitted.given().is_some() {
        return Ok(TakenOrder::first(first));
    }
    // there are too many tracks for a track order, so there is nothing else to take
    let Some(order) = merged_order(alloc, admitted)? else {
        return Ok(TakenOrder::first(first));
    };
    let taken = taken_of_tracks(alloc, admitted, tracks, first, order)?;
    Ok(taken)
}
