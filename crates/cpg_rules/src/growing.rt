//! Standings along the order, and how many tracks there are.
ghost use Rattle.std.specs.Prelude.{◌≡◌, ◌<◌, All, length, min};
ghost use Rattle.cpg_rules.specs.Growing.{activation_in, standing, settled, choice, tracks_from};
ghost use Rattle.cpg_rules.specs.Steps.{IsStepBelow};

use crate::steps::{ActivationStep, Standings};
use cpg_base::Activation;

/// Returns the standing of a process that is active in this way, if its condition has the value: `None` if it is inactive.
fn standing(activation: Activation, value: bool) -> Option<bool>
    ensures { result ≡ standing activation value }
{
    if activation.is_active() {
        Some(value)
    } else {
        None
    }
}

/// Returns the condition whose two values both have to be tried: that of an active process. It is `None` if the process
/// is inactive or has no condition.
pub fn choice(activation: Activation, condition: Option<u32>) -> Option<u32>
    ensures { result ≡ choice activation condition }
{
    if activation.is_active() {
        condition
    } else {
        None
    }
}

/// Returns the standings after a step, if its process is active in this way and its condition has the value.
pub fn settled(
    standings: Standings,
    step: &ActivationStep,
    activation: Activation,
    value: bool,
) -> Standings
    requires process { step.now.process < 128 }
    requires activation { activation ≡ activation_in standings step.now }
    ensures { result ≡ settled standings step.now value }
{
    let mut standings = standings;
    standings[step.process() as usize] = standing(activation, value);
    standings
}

/// Counts the tracks that begin with these standings, up to `most`: returns how many there are, and `most` if there are
/// no fewer. `steps` are those that are left.
pub fn tracks(steps: &[ActivationStep], standings: Standings, most: u32) -> u32
    requires { All (IsStepBelow 128) steps.now }
    ensures { result ≡ min most (tracks_from steps.now standings) }
{
    // no step is left: this is one track, which counts unless `most` is 0
    let Some((step, rest)) = steps.split_first() else {
        return most.min(1);
    };
    let activation = step.activation(&standings);
    let with_false = tracks(rest, settled(standings, step, activation, false), most);
    // as many as are asked for are found: the other way needs no count
    if with_false == most {
        return with_false;
    }
    // the process is inactive or has no condition: there is no other way
    if choice(activation, step.condition()).is_none() {
        return with_false;
    }
    // the other way counts up to what is left of `most`
    with_false
        + tracks(
            rest,
            settled(standings, step, activation, true),
            most - with_false,
        )
}
