//! The processes along an order, each with the inputs that its activation rests on.
ghost use Rattle.std.specs.Prelude.{◌≡◌, ◌<◌, ◌≤◌, ◌≢◌, IfOk, All, length, map, get_or, None, Some, if◌then◌else◌};
ghost use Rattle.std.specs.List.{list_all};
ghost use Rattle.cpg_base.specs.Graph.{process_count, edge_count, inputs};
ghost use Rattle.cpg_order.specs.Urgency.{IsTopological};
ghost use Rattle.cpg_rules.specs.Growing.{is_live_in, first_live, activation_in};
ghost use Rattle.cpg_rules.specs.Alternatives.{are_two_live};
ghost use Rattle.cpg_rules.specs.Steps.{ActivationStep, step_of, input_of};
ghost use Rattle.cpg_rules.specs.Rested.{reads, is_aim, are_reading, is_rested, rested};

use cpg_base::{Activation, Order, OutOfMemory, Problem};
use std::alloc::Global;
use std::marker::Model;

/// How the processes so far stand, by process number, of which there are at most 128: `None` if a process is inactive or
/// comes later, and otherwise the value of its condition, false if it has none.
pub type Standings = [Option<bool>; 128];

/// An input of a process.
#[derive(Clone, Copy, Debug, PartialEq, Eq)]
pub struct Input {
    /// The number of the edge.
    pub edge: u32,
    /// The process that it leads away from.
    pub source: u32,
    /// The value of the source's condition for which it is live; `None` if it is live whenever its source is active.
    pub when: Option<bool>,
}

/// A process with what says how it is active: whether it is a join, its inputs, and its condition, if it has one.
#[derive(Drop)]
pub struct ActivationStep {
    /// The number of the process.
    process: u32,
    /// Whether it is a join.
    join: bool,
    /// Its inputs, by edge number.
    inputs: Vec<Input>,
    /// The number of its condition, if it has one.
    condition: Option<u32>,
}

impl Model for ActivationStep {
    ghost use Rattle.cpg_rules.specs.Steps.{ActivationStep};

    ghost Value = { ActivationStep };

    ghost view = { λ s. record { process = s.process; join = s.join; inputs = s.inputs.items; condition = s.condition } };
}

impl Input {
    /// Whether the input is live, by the standing of its source.
    fn is_live(&self, standings: &[Option<bool>]) -> bool
        requires { self.now.source < length standings.now }
        ensures { result ≡ is_live_in standings.now self.now }
    {
        match standings[self.source as usize] {
            // the source is inactive
            None => false,
            // the source is active with this value
            Some(value) => match self.when {
                // an edge without a test takes every value
                None => true,
                Some(wanted) => wanted == value,
            },
        }
    }
}

/// Returns how a join with these inputs is active: by the first that is live, or not at all.
fn first_live(inputs: &[Input], standings: &[Option<bool>]) -> Activation
    requires { All (λ input. input.source < length standings.now) inputs.now }
    ensures { result ≡ first_live standings.now inputs.now }
{
    for input in inputs {
        if input.is_live(standings) {
            return Activation::By(input.edge);
        }
    }
    Activation::Inactive
}

/// Whether all these inputs are live, by the standings of their sources.
fn are_live(inputs: &[Input], standings: &[Option<bool>]) -> bool
    requires { All (λ input. input.source < length standings.now) inputs.now }
    ensures { result ≡ list_all (is_live_in standings.now) inputs.now }
{
    for input in inputs {
        if !input.is_live(standings) {
            return false;
        }
    }
    true
}

impl ActivationStep {
    /// Returns the number of the process.
    pub fn process(&self) -> u32
        ensures { result ≡ self.now.process }
    {
        self.process
    }

    /// Returns the number of the process's condition, and `None` if it has none.
    pub fn condition(&self) -> Option<u32>
        ensures { result ≡ self.now.condition }
    {
        self.condition
    }

    /// Whether it is a join.
    pub fn is_join(&self) -> bool
        ensures { result ≡ self.now.join }
    {
        self.join
    }

    /// Returns the inputs of the process, by edge number.
    pub fn inputs(&self) -> &[Input]
        ensures { result.now ≡ self.now.inputs }
    {
        self.inputs.as_slice()
    }

    /// Whether an input comes from a process.
    fn reads(&self, process: u32) -> bool
        ensures { result ≡ reads process self.now }
    {
        self.inputs.iter().any(|input| input.source == process)
    }

    /// Returns a copy of the step.
    fn copy(&self) -> Result<ActivationStep, OutOfMemory>
        ensures { IfOk result (λ step. step ≡ self.now) }
    {
        Ok(ActivationStep {
            process: self.process,
            join: self.join,
            inputs: self.inputs.clone()?,
            condition: self.condition,
        })
    }

    /// Returns the standings if at least two of the inputs are live by them, and otherwise `None`.
    pub fn two_live(&self, standings: Standings) -> Option<Standings>
        requires { All (λ input. input.source < 128) self.now.inputs }
        ensures { result ≡ (if are_two_live standings self.now.inputs then Some standings else None) }
    {
        if are_two_live(self.inputs.as_slice(), &standings) {
            Some(standings)
        } else {
            None
        }
    }

    /// Returns how the process is active, by the standings of its sources.
    pub fn activation(&self, standings: &[Option<bool>]) -> Activation
        requires { All (λ input. input.source < length standings.now) self.now.inputs }
        ensures { result ≡ activation_in standings.now self.now }
    {
        let inputs = self.inputs.as_slice();
        // a process without inputs is always active
        if inputs.is_empty() {
            return Activation::Plain;
        }
        // a join takes its first live input
        if self.join {
            return first_live(inputs, standings);
        }
        // any other process needs all its inputs
        if are_live(inputs, standings) {
            Activation::Plain
        } else {
            Activation::Inactive
        }
    }
}

/// Whether at least two of these inputs are live, by the standings of their sources.
fn are_two_live(inputs: &[Input], standings: &[Option<bool>]) -> bool
    requires { All (λ input. input.source < length standings.now) inputs.now }
    ensures { result ≡ are_two_live standings.now inputs.now }
{
    inputs
        .iter()
        .filter(|input| input.is_live(standings))
        .count()
        > 1
}

/// Returns the inputs of a process, by edge number.
pub fn inputs_of(alloc: Global, problem: &Problem, process: u32) -> Result<Vec<Input>, OutOfMemory>
    ensures { IfOk result (λ found. found.items ≡ map (input_of problem.now) (inputs problem.now process)) }
{
    let mut found = Vec::new(alloc);
    for (edge, ends) in problem.edges().iter().enumerate() {
        // edges are met by number, so the inputs come in that order; there are at most 256, so the number fits a `u32`
        if ends.to == process {
            found.push(Input {
                edge: edge as u32,
                source: ends.from,
                when: ends.when,
            })?;
        }
    }
    Ok(found)
}

/// Returns the step of a process of the graph.
fn step_of(alloc: Global, problem: &Problem, process: u32) -> Result<ActivationStep, OutOfMemory>
    requires { process < process_count problem.now }
    ensures { IfOk result (λ step. step ≡ step_of problem.now process) }
{
    Ok(ActivationStep {
        process,
        join: problem.processes()[process as usize].join,
        inputs: inputs_of(alloc, problem, process)?,
        condition: problem.condition_of(process),
    })
}

/// Returns the steps of all processes, in this order.
pub fn steps_of(
    alloc: Global,
    problem: &Problem,
    order: &Order,
) -> Result<Vec<ActivationStep>, OutOfMemory>
    requires { length order.now ≡ process_count problem.now }
    ensures { IfOk result (λ steps. steps.items ≡ map (step_of problem.now) order.now) }
{
    let mut steps = Vec::new(alloc);
    // one step for each process; the room for them is taken at once
    steps.reserve(order.len())?;
    for process in order.processes() {
        steps.push(step_of(alloc, problem, *process)?)?;
    }
    Ok(steps)
}

/// What a walk along steps is for.
#[derive(Clone, Copy, Debug, PartialEq, Eq)]
pub enum Aim {
    /// How the inputs of this process are live.
    Process(u32),
    /// Which conditions have a choice.
    Conditions,
}

/// Whether a step is what the walk is for.
fn is_aim(aim: Aim, step: &ActivationStep) -> bool
    ensures { result ≡ is_aim aim step.now }
{
    match aim {
        // the process itself, whose inputs are asked for
        Aim::Process(process) => step.process == process,
        // each process that has a condition, whose value has to be chosen
        Aim::Conditions => step.condition.is_some(),
    }
}

/// Whether some step has an input from a process.
fn are_reading(steps: &[ActivationStep], process: u32) -> bool
    ensures { result ≡ are_reading steps.now process }
{
    steps.iter().any(|step| step.reads(process))
}

/// Whether a walk rests on a step, if these are the later steps that it rests on.
fn is_rested(aim: Aim, step: &ActivationStep, later: &[ActivationStep]) -> bool
    ensures { result ≡ is_rested aim step.now later.now }
{
    // the walk asks for this step
    if is_aim(aim, step) {
        return true;
    }
    // otherwise only if a later step, on which the walk rests, has an input from it
    are_reading(later, step.process)
}

/// Returns the steps among these that a walk rests on, in the same order.
pub fn rested(
    alloc: Global,
    aim: Aim,
    steps: &[ActivationStep],
) -> Result<Vec<ActivationStep>, OutOfMemory>
    ensures { IfOk result (λ kept. kept.items ≡ rested aim steps.now) }
{
    let Some((step, rest)) = steps.split_first() else {
        return Ok(Vec::new(alloc));
    };
    // later steps first: whether this one is kept depends on those kept behind it
    let mut kept = rested(alloc, aim, rest)?;
    if is_rested(aim, step, kept.as_slice()) {
        kept.insert(0, step.copy()?)?;
    }
    Ok(kept)
}
