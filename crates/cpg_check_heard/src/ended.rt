//! Whether a process of a node has always ended by a time. This holds for the processes of most literals, and is seen
//! without a look at any column.
ghost use Rattle.std.specs.Bool.{OnTrue};
ghost use Rattle.cpg_base.specs.Graph.{IsVariable};
ghost use Rattle.cpg_check_heard.specs.Ended.{HasEnded};
ghost use Rattle.cpg_check_heard.specs.Hearings.{IsHearing};

use crate::hearing::Hearing;
use cpg_violation::has_come;

impl Hearing<'_> {
    /// Whether the process of a variable is on a node, and ends by a time even if it starts by its last column and has
    /// all faults. False guarantees nothing.
    pub(crate) fn has_ended(&self, node: u32, variable: u8, time: u64) -> bool
        requires hearing { IsHearing self.now }
        requires variable { IsVariable self.now.admitted.now.graph variable }
        ensures { OnTrue result (HasEnded self.now.admitted.now.graph self.now.tables.now.nodes node variable time) }
    {
        let problem = self.admitted.problem();
        let process = problem.process_of_variable(variable);
        // its end is heard on its own node alone
        if problem.node_of(process) != node {
            return false;
        }
        let longest = problem.duration(process, problem.faults());
        let row = self.telling_rows[process as usize].sieved;
        has_come(row.last, longest, time)
    }
}
