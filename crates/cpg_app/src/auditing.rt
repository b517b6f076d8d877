//! The text of an audit of a log.
ghost use Rattle.std.specs.Prelude.{◌≡◌, IfOk, None, Some, string_bytes};
ghost use Rattle.cpg_table.specs.Valid.{IsValid};
ghost use Rattle.cpg_violation.specs.Heads.{IsHeadFor};
ghost use Rattle.cpg_violation.specs.Room.{HasRoom};
ghost use Rattle.cpg_log.specs.Log.{IsLog};
ghost use Rattle.cpg_app.specs.Outputs.{IsAuditText, given_text};

use cpg_audit::audit;
use cpg_base::{OutOfMemory, Problem, Scenario};
use cpg_log::Log;
use cpg_rules::Admitted;
use cpg_scenario::scenario_text;
use cpg_table::Tables;
use std::alloc::Global;

/// Returns the line that shows a scenario that gives a log. The one error is that memory runs out.
fn scenario_line(
    alloc: Global,
    problem: &Problem,
    scenario: &Scenario,
) -> Result<String, OutOfMemory>
    requires { HasRoom problem.now scenario.now }
    ensures { IfOk result (λ text. string_bytes text ≡ given_text problem.now (Some scenario.now)) }
{
    let scenario = scenario_text(alloc, problem, scenario)?;
    let mut text = String::new(alloc);
    write!(text, "scenario {scenario}\n")?;
    Ok(text)
}

/// Returns the line that says that no scenario gives a log. Only the contract needs `problem`. The one error is that
/// memory runs out.
fn impossible(alloc: Global, problem: &Problem) -> Result<String, OutOfMemory>
    ensures { IfOk result (λ text. string_bytes text ≡ given_text problem.now None) }
{
    let text = String::from_str(alloc, "impossible\n")?;
    Ok(text)
}

/// Returns the text of an audit: the least scenario that gives the log, or that there is none. The one error is that
/// memory runs out.
pub fn audit_text(
    alloc: Global,
    admitted: &Admitted,
    tables: &Tables,
    log: &Log,
) -> Result<String, OutOfMemory>
    requires head { IsHeadFor admitted.now.graph tables.now.head }
    requires valid { IsValid admitted.now.graph tables.now.nodes }
    requires log { IsLog admitted.now.graph log.now }
    ensures { IfOk result (λ text. IsAuditText admitted.now.graph admitted.now.order tables.now.nodes log.now (string_bytes text)) }
{
    let problem = admitted.problem();
    match audit(alloc, admitted, tables, log)? {
        Some(scenario) => scenario_line(alloc, problem, &scenario),
        None => impossible(alloc, problem),
    }
}
