//! The admission of a graph.
ghost use Rattle.std.specs.Prelude.{◌≡◌, ◌≤◌, List, ℕ, IfOk, IfErr, IfSome};
ghost use Rattle.std.specs.Option.{option_map};
ghost use Rattle.cpg_base.specs.Limits.{IsWithinLimits};
ghost use Rattle.cpg_base.specs.declared.limits.TheConstants.{MOST_FAULTS};
ghost use Rattle.cpg_base.specs.WellFormed.{HasSenderSlots};
ghost use Rattle.cpg_order.specs.Urgency.{IsTopological, first_order};
ghost use Rattle.cpg_rules.specs.Guards.{AreGuardsOf};
ghost use Rattle.cpg_rules.specs.Rules.{AllFit};
ghost use Rattle.cpg_rules.specs.Given.{GivesTopological};
ghost use Rattle.cpg_rules.specs.Sharing.{trees_of, AreRoots, AreTreesOf};
ghost use Rattle.cpg_base.specs.Graph.{process_count};
ghost use Rattle.cpg_rules.specs.Admission.{IsAdmitted};
ghost use Rattle.cpg_rules.specs.FaultNumber.{with_fault_number};
ghost use Rattle.cpg_rules.specs.Faults.{IsOrdered, HasFewTracks, HasFewInputs, HasSizes, ShowsFault};

use crate::fault_number::with_fault_number;
use crate::given::{GivenFault, given_order};
use crate::joins::least_alternatives;
use crate::shared::SharedParts;
use crate::slots::{above_slot, without_slot};
use crate::trees::{SharedGuards, shared_guards};
use crate::{GuardFault, GuardTrees};
use cpg_base::{Order, OutOfMemory, Problem, Scenario};
use cpg_order::{OrderFault, Walk, urgency};
use std::alloc::Global;
use std::marker::Model;

/// A graph that keeps all rules of admission, with its urgency order, the order that it gives, if any, and its guards.
#[derive(Drop)]
pub struct Admitted {
    /// The graph.
    problem: Problem,
    /// Its urgency order.
    order: Order,
    /// The order that it gives, if any.
    given: Option<Order>,
    /// In which outcomes its processes are active and its edges live.
    guards: GuardTrees,
}

impl Model for Admitted {
    ghost use Rattle.std.specs.Prelude.{◌≡◌};
    ghost use Rattle.std.specs.Coded.{codes};
    ghost use Rattle.cpg_rules.specs.TreeCode.{tree_code};
    ghost use Rattle.cpg_rules.specs.Admission.{Admission, IsAdmitted};

    ghost Value = { Admission };

    ghost coded = { Prim.hlevel (codes, tree_code) };

    ghost view = { λ a. record { graph = a.problem; order = a.order; guards = a.guards } };

    ghost invariant = { λ a. IsAdmitted a.problem a.order a.guards × (a.given ≡ a.problem.order) };
}

/// Why a graph isn't admitted: the first of these causes that is there, in this order.
#[derive(Drop)]
pub enum RuleFault {
    /// The edges lead around in a cycle: this one, which begins with its least process.
    Cycle(Walk),
    /// There are more than 16,384 tracks.
    TooManyTracks,
    /// Some outcome gives a join two live inputs.
    TwoAlternatives {
        /// The number of the least such join.
        process: u32,
        /// The least scenario in which two of its inputs are live, which has no faults.
        least: Scenario,
    },
    /// A node sends and has no slot: the least such node.
    NoSlot(u32),
    /// A message has a size above its sender's slot: the least such edge.
    TooBig(u32),
    /// The order that the graph gives isn't topological. This is the least process that it lacks or, if it lacks none,
    /// the first in it that stands before the source of one of its inputs.
    BadOrder(u32),
    /// Memory ran out, whatever the graph is.
    OutOfMemory,
}

/// A graph that isn't admitted, as it was, and why.
#[derive(Drop)]
pub struct Refused {
    /// The graph, as it was handed in.
    pub problem: Problem,
    /// Why it isn't admitted.
    pub fault: RuleFault,
}

/// Returns the urgency order, in which each edge leads forward. The fault is a cycle of the edges, or that memory ran out.
fn ordered(alloc: Global, problem: &Problem) -> Result<Order, RuleFault>
    ensures order { IfOk result (IsOrdered problem.now) }
    ensures fault { IfErr result (ShowsFault problem.now) }
{
    match urgency(alloc, problem) {
        Ok(order) => Ok(order),
        Err(OrderFault::Cycle(walk)) => Err(RuleFault::Cycle(walk)),
        Err(OrderFault::OutOfMemory) => Err(RuleFault::OutOfMemory),
    }
}

/// Returns the guards, with the shared parts of their trees. The fault is that there are too many tracks, or that memory
/// ran out.
fn guarded(alloc: Global, problem: &Problem, order: &Order) -> Result<SharedGuards, RuleFault>
    requires { IsOrdered problem.now order.now }
    ensures guards { IfOk result (λ shared. AreGuardsOf problem.now order.now shared.guards) }
    // each process has the part with its tree as its root
    ensures roots { IfOk result (λ shared. AreRoots shared.parts.parts (process_count problem.now) shared.roots.items) }
    ensures trees { IfOk result (λ shared. shared.guards.trees ≡ trees_of shared.parts.parts shared.roots.items) }
    // there are few enough tracks
    ensures tracks { IfOk result (λ _. HasFewTracks problem.now order.now) }
    ensures fault { IfErr result (ShowsFault problem.now) }
{
    match shared_guards(alloc, problem, order) {
        Ok(shared) => Ok(shared),
        Err(GuardFault::TooManyTracks) => Err(RuleFault::TooManyTracks),
        Err(GuardFault::OutOfMemory) => Err(RuleFault::OutOfMemory),
    }
}

/// Checks that no outcome gives a join two live inputs. The fault is the least such join with its least scenario, or that
/// memory ran out. `parts` are the shared parts, and `roots` the numbers of those with the trees of the processes.
fn check_joins(
    alloc: Global,
    problem: &Problem,
    order: &Order,
    parts: &mut SharedParts,
    roots: &[usize],
) -> Result<(), RuleFault>
    requires tracks { HasFewTracks problem.now order.now }
    // the roots are parts, and have the trees of the guards
    requires roots { AreRoots parts.old.parts (process_count problem.now) roots.now }
    requires guards { AreTreesOf problem.now (trees_of parts.old.parts roots.now) }
    ensures joins { IfOk result (λ _. HasFewInputs problem.now order.now) }
    ensures fault { IfErr result (ShowsFault problem.now) }
{
    // `None`: no outcome gives a join two live inputs
    match least_alternatives(alloc, problem, order, parts, roots) {
        Ok(None) => Ok(()),
        Ok(Some(found)) => Err(RuleFault::TwoAlternatives {
            process: found.process,
            least: found.least,
        }),
        // the search fails only if memory runs out
        Err(_) => Err(RuleFault::OutOfMemory),
    }
}

/// Checks that each node that sends has a slot, and then that no message is larger than its sender's slot holds. The
/// fault is the least node without a slot or, if there is none, the least message that is too large.
fn check_slots(problem: &Problem) -> Result<(), RuleFault>
    requires { (order : List ℕ) × HasFewInputs problem.now order }
    ensures slots { IfOk result (λ _. HasSenderSlots problem.now) }
    ensures sizes { IfOk result (λ _. AllFit problem.now) }
    ensures limits { IfOk result (λ _. IsWithinLimits problem.now) }
    ensures fault { IfErr result (ShowsFault problem.now) }
{
    // slots come before sizes: a message can only be compared with a slot that is there
    if let Some(node) = without_slot(problem) {
        return Err(RuleFault::NoSlot(node));
    }
    // each sender has a slot now, so sizes can be compared
    if let Some(edge) = above_slot(problem) {
        return Err(RuleFault::TooBig(edge));
    }
    Ok(())
}

/// Returns the order that a graph gives, and `None` if it gives none. The fault is that the order isn't topological, or
/// that memory ran out.
fn given(alloc: Global, problem: &Problem) -> Result<Option<Order>, RuleFault>
    requires { (order : List ℕ) × HasSizes problem.now order }
    ensures given { IfOk result (λ given. given ≡ problem.now.order) }
    ensures topological { IfOk result (λ _. GivesTopological problem.now) }
    ensures fault { IfErr result (ShowsFault problem.now) }
{
    match given_order(alloc, problem) {
        Ok(given) => Ok(given),
        Err(GivenFault::Bad(process)) => Err(RuleFault::BadOrder(process)),
        Err(GivenFault::OutOfMemory) => Err(RuleFault::OutOfMemory),
    }
}

/// What is found of a graph that keeps all rules.
#[derive(Drop)]
struct JudgedGraph {
    /// Its urgency order.
    order: Order,
    /// The order that it gives, if any.
    given: Option<Order>,
    /// In which outcomes its processes are active and its edges live.
    guards: GuardTrees,
}

/// Judges a graph by all rules. The fault is that of the first rule that is broken, or that memory ran out.
fn judge(alloc: Global, problem: &Problem) -> Result<JudgedGraph, RuleFault>
    ensures admitted { IfOk result (λ judged. IsAdmitted problem.now judged.order judged.guards) }
    ensures given { IfOk result (λ judged. judged.given ≡ problem.now.order) }
    ensures fault { IfErr result (ShowsFault problem.now) }
{
    // each check requires what those before it found, so they stand in the order of the faults
    let order = ordered(alloc, problem)?;
    let mut shared = guarded(alloc, problem, &order)?;
    let roots = shared.roots.as_slice();
    check_joins(alloc, problem, &order, &mut shared.parts, roots)?;
    check_slots(problem)?;
    let given = given(alloc, problem)?;
    Ok(JudgedGraph {
        order,
        given,
        guards: shared.guards,
    })
}

/// Admits a graph that keeps all rules: it has no cycle, at most 16,384 tracks, no join with two live inputs, a slot
/// for each node that sends, no message above its sender's slot, and if it gives an order, a topological one. A
/// refusal names the first of these that is broken, or that memory ran out, and hands the graph back as it was.
pub fn admit(alloc: Global, problem: Problem) -> Result<Admitted, Refused>
    ensures problem { IfOk result (λ admitted. admitted.graph ≡ problem) }
    ensures admitted { IfOk result (λ admitted. IsAdmitted admitted.graph admitted.order admitted.guards) }
    ensures back { IfErr result (λ refused. refused.problem ≡ problem) }
    ensures fault { IfErr result (λ refused. ShowsFault problem refused.fault) }
{
    match judge(alloc, &problem) {
        Ok(
            JudgedGraph {
                order,
                given,
                guards,
            },
        ) => Ok(Admitted {
            problem,
            order,
            given,
            guards,
        }),
        Err(fault) => Err(Refused { problem, fault }),
    }
}

impl Admitted {
    /// Returns the graph.
    pub fn problem(&self) -> &Problem
        ensures problem { result.now ≡ self.now.graph }
        ensures admitted { IsAdmitted self.now.graph self.now.order self.now.guards }
    {
        &self.problem
    }

    /// Returns the urgency order of the graph.
    pub fn order(&self) -> &Order
        ensures order { result.now ≡ self.now.order }
        ensures admitted { IsAdmitted self.now.graph self.now.order self.now.guards }
    {
        &self.order
    }

    /// Returns the order that the graph gives, and `None` if it gives none.
    pub fn given(&self) -> Option<&Order>
        ensures given { option_map (λ order. order.now) result ≡ self.now.graph.order }
        ensures topological { IfSome result (λ order. IsTopological self.now.graph order.now) }
        ensures admitted { IsAdmitted self.now.graph self.now.order self.now.guards }
    {
        self.given.as_ref()
    }

    /// Returns the order that the graph is compiled under first: the one that it gives, or else its urgency order.
    pub fn first_order(&self) -> &Order
        ensures order { result.now ≡ first_order self.now.graph self.now.order }
        ensures topological { IsTopological self.now.graph result.now }
        ensures admitted { IsAdmitted self.now.graph self.now.order self.now.guards }
    {
        // an order that is given comes before the urgency order
        match &self.given {
            Some(order) => order,
            None => &self.order,
        }
    }

    /// Returns the guards of the graph: in which outcomes its processes are active and its edges live.
    pub fn guards(&self) -> &GuardTrees
        ensures guards { result.now ≡ self.now.guards }
        ensures admitted { IsAdmitted self.now.graph self.now.order self.now.guards }
    {
        &self.guards
    }

    /// Returns the graph with another fault number. No rule looks at that number, so the graph keeps all rules, with the same
    /// orders and guards, and isn't judged again.
    pub fn with_fault_number(self, alloc: Global, faults: u8) -> Result<Admitted, OutOfMemory>
        requires { faults ≤ MOST_FAULTS }
        ensures graph { IfOk result (λ admitted. admitted.graph ≡ with_fault_number self.graph faults) }
        ensures order { IfOk result (λ admitted. admitted.order ≡ self.order) }
        ensures guards { IfOk result (λ admitted. admitted.guards ≡ self.guards) }
        ensures admitted { IfOk result (λ admitted. IsAdmitted admitted.graph admitted.order admitted.guards) }
    {
        let problem = with_fault_number(alloc, &self.problem, faults)?;
        Ok(Admitted { problem, ..self })
    }
}
