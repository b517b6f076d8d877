//! The output of `hyper`: the graph of all instances of parts with periods.
ghost use Rattle.std.specs.Prelude.{◌≤◌, IfErr, IfOk, length};
ghost use Rattle.cpg_app.specs.Causes.{IsNotUnrolled};
ghost use Rattle.cpg_app.specs.Outputs.{IsUnrolledText, Puts};

use crate::output::Output;
use cpg_hyper::{Part, graph_text, unroll};
use cpg_refusal::Halt;
use std::alloc::Global;

/// Returns the text of the graph of all instances of parts. A halt says why they give none, or that memory ran out.
pub fn unrolled_text(alloc: Global, parts: &[Part]) -> Result<Output, Halt>
    requires some { 1 ≤ length parts.now }
    requires few { length parts.now ≤ 4 }
    ensures text { IfOk result (λ o. Puts o (IsUnrolledText parts.now)) }
    ensures halt { IfErr result (IsNotUnrolled parts.now) }
{
    let problem = match unroll(alloc, parts) {
        Ok(problem) => problem,
        Err(fault) => return Err(Halt::of_parts(fault)),
    };
    match graph_text(alloc, &problem) {
        Ok(text) => Ok(Output::Lines(text)),
        // a graph's text fails only if memory runs out
        Err(_) => Err(Halt::Memory),
    }
}
