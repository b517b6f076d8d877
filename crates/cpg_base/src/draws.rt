//! Pseudo-random numbers, by a linear congruence modulo 2^64.
ghost use Rattle.std.specs.Prelude.{◌≡◌};
ghost use Rattle.cpg_base.specs.Draws.{next_number};

/// Returns the number that follows this one. Callers draw its upper 31 bits, since the lower ones have short periods.
pub fn next_number(number: u64) -> u64
    ensures { result ≡ next_number number }
{
    number
        .wrapping_mul(6_364_136_223_846_793_005)
        .wrapping_add(1_442_695_040_888_963_407)
}
