//! The output of `trial`.
ghost use Rattle.std.specs.Prelude.{◌≡◌, IfOk, IfErr};
ghost use Rattle.cpg_refusal.specs.declared.halt.Halt.TheVariants.{Memory};
ghost use Rattle.cpg_app.specs.Outputs.{IsTrialText, Puts};

use crate::output::Output;
use crate::trial_figures::run_trial;
use cpg_outputs::trial_text;
use cpg_refusal::Halt;
use std::alloc::Global;

/// Returns the text of the figures of a number's trial. The one halt is that memory ran out.
pub fn trial(alloc: Global, number: u64) -> Result<Output, Halt>
    ensures text { IfOk result (λ o. Puts o (IsTrialText number)) }
    ensures halt { IfErr result (λ halt. halt ≡ Memory) }
{
    let Ok(trial) = run_trial(alloc, number) else {
        return Err(Halt::Memory);
    };
    match trial_text(alloc, number, &trial) {
        Ok(text) => Ok(Output::Lines(text)),
        Err(_) => Err(Halt::Memory),
    }
}
