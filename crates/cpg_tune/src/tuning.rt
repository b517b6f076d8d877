//! The tuning of a graph.
ghost use Rattle.std.specs.Prelude.{◌≡◌, ◌≤◌, ◌+◌, IfOk, length};
ghost use Rattle.cpg_tune.specs.Best.{best_parts};
ghost use Rattle.cpg_tune.specs.Asked.{MayAskRows, SameQuestions, SameAnswers};
ghost use Rattle.cpg_tune.specs.Tuned.{AreRows, IsTuning, is_accepted, tolerated, IsGreatestAccepted};

use crate::{Judge, Judged, best_parts_at, retuned};
use cpg_base::{MOST_FAULTS, OutOfMemory, Problem};
use std::alloc::Global;
use std::marker::Model;

/// The best parts of a graph, and what a judge says of it with these parts, for each fault number from 0 to 8.
#[derive(Drop)]
pub struct Tuned {
    /// The best number of parts of each process.
    parts: Vec<u32>,
    /// What the judge says of the graph with these parts, by fault number.
    rows: Vec<Judged>,
    /// The greatest fault number whose row is accepted; `None` if no row is.
    tolerates: Option<u8>,
}

impl Model for Tuned {
    ghost use Rattle.cpg_tune.specs.Tuned.{Tuning, tolerated};
    ghost use Rattle.std.specs.Prelude.{◌≡◌};

    ghost Value = { Tuning };

    ghost view = { λ t. record { parts = t.parts.items; rows = t.rows.items; tolerates = t.tolerates } };

    ghost invariant = { λ t. t.tolerates ≡ tolerated t.rows.items };
}

/// Whether a judge accepts the graph: nothing is late, and no item is too wide.
fn is_accepted(judged: Judged) -> bool
    ensures { result ≡ is_accepted judged }
{
    matches!(judged, Judged::Worst(_))
}

/// Returns the greatest fault number whose row is accepted, and `None` exactly if no row is.
fn tolerated(rows: &[Judged]) -> Option<u8>
    requires { length rows.now ≤ MOST_FAULTS + 1 }
    ensures { result ≡ tolerated rows.now }
{
    let mut found = None;
    for (faults, row) in rows.iter().enumerate() {
        if is_accepted(*row) {
            // a later row replaces an earlier one, also if rows between them aren't accepted; there are at most nine rows,
            // so the number fits 8 bits
            found = Some(faults as u8);
        }
    }
    found
}

/// Returns the best number of parts of each process, by number.
fn best_parts(alloc: Global, problem: &Problem) -> Result<Vec<u32>, OutOfMemory>
    ensures { IfOk result (λ parts. parts.items ≡ best_parts problem.now) }
{
    let mut parts = Vec::new(alloc);
    for process in 0..problem.processes().len() as u32 {
        parts.push(best_parts_at(problem, process))?;
    }
    Ok(parts)
}

/// Returns the judge's answers for the graph with its best parts, for each fault number from 0 to 8. `parts` are these
/// parts, by process.
fn rows_of<J: Judge>(
    alloc: Global,
    problem: &Problem,
    parts: &[u32],
    judge: &mut J,
) -> Result<Vec<Judged>, OutOfMemory>
    requires parts { parts.now ≡ best_parts problem.now }
    // the judge may be asked about the graph of each row
    requires may { MayAskRows (J.may_ask judge.old) problem.now }
    // the call changes neither what the judge may be asked nor what it answers
    ensures questions { SameQuestions (J.may_ask judge.old) (J.may_ask judge.new) }
    ensures same { SameAnswers (J.answers judge.old) (J.answers judge.new) }
    ensures rows { IfOk result (λ rows. AreRows (J.answers judge.old) problem.now (MOST_FAULTS + 1) rows.items) }
{
    // the judge puts each fault number in place of the graph's own
    let tuned = retuned(alloc, problem, parts, problem.faults())?;
    let rows = judge.judge_each(tuned)?;
    Ok(rows)
}

/// Tunes a graph: returns the best number of parts of each process for the graph's own fault number, and what the judge
/// says of the graph with these parts for each fault number from 0 to 8.
pub fn tune<J: Judge>(alloc: Global, problem: &Problem, judge: &mut J) -> Result<Tuned, OutOfMemory>
    // the judge may be asked about the graph of each row
    requires { MayAskRows (J.may_ask judge.old) problem.now }
    // the call changes neither what the judge may be asked nor what it answers
    ensures questions { SameQuestions (J.may_ask judge.old) (J.may_ask judge.new) }
    ensures same { SameAnswers (J.answers judge.old) (J.answers judge.new) }
    ensures tuned { IfOk result (IsTuning (J.answers judge.old) problem.now) }
{
    let parts = best_parts(alloc, problem)?;
    let rows = rows_of(alloc, problem, parts.as_slice(), judge)?;
    let tolerates = tolerated(rows.as_slice());
    Ok(Tuned {
        parts,
        rows,
        tolerates,
    })
}

impl Tuned {
    /// Returns the best number of parts of each process.
    pub fn parts(&self) -> &[u32]
        ensures { result.now ≡ self.now.parts }
    {
        self.parts.as_slice()
    }

    /// Returns what the judge said, by fault number.
    pub fn rows(&self) -> &[Judged]
        ensures { result.now ≡ self.now.rows }
    {
        self.rows.as_slice()
    }

    /// Returns the greatest fault number whose row is accepted, or `None` exactly if no row is.
    pub fn tolerates(&self) -> Option<u8>
        ensures tolerates { result ≡ self.now.tolerates }
        ensures greatest { IsGreatestAccepted self.now.rows result }
    {
        self.tolerates
    }
}
