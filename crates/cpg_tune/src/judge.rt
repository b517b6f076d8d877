//! Judges of graphs: the tuning asks one, and doesn't know how it judges.
ghost use Rattle.std.specs.Prelude.{IfOk, ◌+◌};
ghost use Rattle.cpg_base.specs.declared.limits.TheConstants.{MOST_FAULTS};
ghost use Rattle.cpg_tune.specs.Asked.{MayAskEach, SameQuestions, SameAnswers};
ghost use Rattle.cpg_tune.specs.Tuned.{AreAnswers};

use cpg_base::{OutOfMemory, Problem};

/// What a judge says of a graph. Times are in the time units of the graph file.
#[derive(Clone, Copy, Debug, PartialEq, Eq)]
pub enum Judged {
    /// The graph is accepted, with this greatest finish.
    Worst(u64),
    /// The graph is late: a process ends past its due, and this is its end.
    Late(u64),
    /// The item of this number is too wide.
    Wide(u32),
}

/// Says whether graphs are accepted. It has at most one answer for each graph that it may be asked about.
///
/// No call changes which graphs it may be asked about, or what it says of one.
pub trait Judge {
    ghost use Rattle.std.specs.Prelude.{◌≡◌};
    ghost use Rattle.cpg_base.specs.Graph.{Graph};
    ghost use Rattle.cpg_tune.specs.declared.judge.Judged.{Judged};

    /// Whether the judge may be asked about a graph.
    ghost may_ask: { Self → Graph → Type 0 };

    /// Whether this is the judge's answer for a graph.
    ghost answers: { Self → Graph → Judged → Type 0 };

    /// Returns nine answers: for the graph with 0 faults in place of its own number, with 1, and so on up to 8.
    fn judge_each(&mut self, problem: Problem) -> Result<Vec<Judged>, OutOfMemory>
        requires { MayAskEach (may_ask self.old) problem }
        ensures questions { SameQuestions (may_ask self.old) (may_ask self.new) }
        ensures same { SameAnswers (answers self.old) (answers self.new) }
        ensures answers { IfOk result (λ judged. AreAnswers (answers self.old) problem (MOST_FAULTS + 1) judged.items) };

    /// Two answers for a graph are equal.
    ghost one_answer: { (judge : Self) (g : Graph) (a b : Judged) → may_ask judge g → answers judge g a → answers judge g b → a ≡ b };
}
