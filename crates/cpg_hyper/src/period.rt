//! The hyperperiod of parts: the least common multiple of their periods.
ghost use Rattle.std.specs.Prelude.{◌≡◌, ◌<◌, ◌≤◌, ◌^◌, ◌*◌, length, ℕ, IfSome, IfNone};
ghost use Rattle.cpg_hyper.specs.Hyperperiod.{IsMeasure, IsLeastCommon, IsHyperperiod};
ghost use Rattle.cpg_hyper.specs.Refusals.{IsInRange, HoldsOfEach};

use crate::Part;
use cpg_base::LONGEST;

/// Returns the greatest common divisor of two numbers, by Euclid's algorithm.
#[tactic(auto, using(crate::proofs::Multiples::measure_zero, crate::proofs::Multiples::measure_step))]
fn greatest_common(a: u64, b: u64) -> u64
    requires { 1 ≤ a }
    ensures { IsMeasure a b result }
{
    // each number divides 0
    if b == 0 {
        return a;
    }
    let rest = a % b;
    greatest_common(b, rest)
}

/// Returns the least common multiple of two numbers.
#[tactic(auto, using(crate::proofs::Multiples::least_of, crate::proofs::Multiples::least_some))]
fn least_common(a: u64, b: u64) -> u64
    requires first { 1 ≤ a }
    requires second { 1 ≤ b }
    requires short { a ≤ LONGEST }
    requires other { b ≤ LONGEST }
    ensures some { 1 ≤ result }
    ensures least { IsLeastCommon a b result }
{
    let common = greatest_common(a, b);
    // divided first, so that the product of two times fits a `u64`
    a / common * b
}

/// Returns the hyperperiod of parts; `None` exactly if it is above the longest time.
pub fn hyperperiod(parts: &[Part]) -> Option<u64>
    requires { HoldsOfEach (λ p part. IsInRange part) parts.now }
    ensures whole { IfSome result (IsHyperperiod parts.now) }
    ensures short { IfSome result (λ whole. whole ≤ LONGEST) }
    ensures long { IfNone result ((whole : ℕ) → IsHyperperiod parts.now whole → LONGEST < whole) }
{
    let mut whole = 1;
    for part in parts {
        whole = least_common(whole, part.period);
        // the hyperperiod is a multiple of this, and the next product could overflow
        if whole > LONGEST {
            return None;
        }
    }
    Some(whole)
}
