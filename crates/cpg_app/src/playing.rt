//! The text of a play of valid tables.
ghost use Rattle.std.specs.Prelude.{◌≡◌, IfOk, string_bytes};
ghost use Rattle.cpg_scenario.specs.File.{IsPlayed};
ghost use Rattle.cpg_head.specs.GraphHead.{head_of};
ghost use Rattle.cpg_table.specs.Lawful.{AreTablesOf};
ghost use Rattle.cpg_table.specs.Valid.{IsValid};
ghost use Rattle.cpg_app.specs.Plays.{world_of, IsPlayText};

use cpg_base::OutOfMemory;
use cpg_cluster::Cluster;
use cpg_rules::Admitted;
use cpg_scenario::Played;
use cpg_show::trace_text;
use cpg_table::Tables;
use std::alloc::Global;

/// Plays valid tables, driven by a number, until each node is done. Returns the trace of all nodes and a line that says
/// how often a node that was asked had to wait. The one error is that memory runs out.
pub fn play_text(
    alloc: Global,
    admitted: &Admitted,
    tables: Tables,
    played: &Played,
    number: u64,
) -> Result<String, OutOfMemory>
    requires tables { AreTablesOf (head_of admitted.now.graph) tables.nodes }
    requires valid { IsValid admitted.now.graph tables.nodes }
    requires played { IsPlayed admitted.now.graph played.now }
    ensures { IfOk result (λ text. IsPlayText admitted.now.graph tables.nodes (world_of played.now) number (string_bytes text)) }
{
    let mut cluster = Cluster::with_lengths(
        alloc,
        admitted,
        tables,
        &played.scenario,
        &played.lengths,
    )?;
    let waits = cluster.drive(number);
    let mut text = trace_text(alloc, admitted, &cluster)?;
    write!(text, "waits {waits}\n")?;
    Ok(text)
}
