//! A time that may be missing, as the leaves of trees keep it.
ghost use Rattle.std.specs.Prelude.{◌≡◌};

use std::marker::Model;

/// A time in time units, or none, in twelve bytes: with an `Option<u64>` of sixteen an item of a tree's list would take 24
/// bytes in place of 16. It is seen as that option.
#[derive(Clone, Copy)]
pub struct OptionalTime {
    /// Whether there is a time.
    is: bool,
    /// The lower 32 bits of the time; 0 if there is none.
    low: u32,
    /// The upper 32 bits of the time; 0 if there is none.
    high: u32,
}

impl Model for OptionalTime {
    ghost use Rattle.std.specs.Prelude.{ℕ, Option};
    ghost use Rattle.cpg_tree.specs.OptionalTime.{AreHalves, time_of_halves, is_time, low_half, high_half, is_of_halves, low_of_halves, high_of_halves};

    ghost Value = { Option ℕ };

    ghost view = { λ t. time_of_halves t.is t.low t.high };

    ghost inverse = { λ t. record { is = is_time t; low = low_half t; high = high_half t } };

    ghost inverse_ok = { λ t are i. record {
      is = is_of_halves t.is t.low t.high i;
      low = low_of_halves t.is t.low t.high are i;
      high = high_of_halves t.is t.low t.high are i;
    } };

    ghost invariant = { λ t. AreHalves t.is t.low t.high };
}

/// Times are equal if both are the same time, or both are missing.
impl PartialEq for OptionalTime {
    ghost use Rattle.std.specs.Prelude.{eqb};
    ghost use Rattle.std.specs.Option.{option_eq};
    ghost use Rattle.std.specs.Cmp.Rules.{comparing};
    ghost use Rattle.std.proofs.Common.{rules};

    ghost eq = { option_eq eqb };

    ghost laws = { Prim.search (comparing, rules) };

    #[inline]
    fn eq(&self, other: &OptionalTime) -> bool {
        self.get() == other.get()
    }
}

impl Eq for OptionalTime {
    ghost use Rattle.std.specs.Cmp.Rules.{comparing};
    ghost use Rattle.std.proofs.Common.{rules};

    ghost laws = { Prim.search (comparing, rules) };
}

impl OptionalTime {
    /// Returns the time of an option, or none.
    #[inline]
    pub fn of(time: Option<u64>) -> OptionalTime
        ensures { result ≡ time }
    {
        match time {
            Some(time) => OptionalTime {
                is: true,
                low: (time % 0x1_0000_0000) as u32,
                high: (time / 0x1_0000_0000) as u32,
            },
            None => OptionalTime {
                is: false,
                low: 0,
                high: 0,
            },
        }
    }

    /// Returns the time as an option.
    #[inline]
    pub fn get(self) -> Option<u64>
        ensures { result ≡ self }
    {
        if self.is {
            Some(u64::from(self.high) * 0x1_0000_0000 + u64::from(self.low))
        } else {
            None
        }
    }
}
