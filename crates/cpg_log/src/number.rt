//! Reading a time of a log: the decimal digits of a number below 2^60.
ghost use Rattle.std.specs.Prelude.{◌≡◌, ◌≢◌, ◌^◌, ◌<◌, ℕ, IfNone, IfOk, IfSome, Some, string_bytes};
ghost use Rattle.std.specs.Fmt.{decimal};

use crate::lines::are_same;
use cpg_base::OutOfMemory;
use std::alloc::Global;

/// Times of a log are below this.
const TOO_LATE: u64 = 1 << 60;

/// Returns the number below 2^60 whose decimal digits these are, if they are those of one. For other bytes it may be any
/// number below 2^60, or `None`.
fn number(digits: &[u8]) -> Option<u64>
    ensures early { IfSome result (λ n. n < 2 ^ 60) }
    ensures is { (n : ℕ) → n < 2 ^ 60 → digits.now ≡ decimal n → result ≡ Some n }
{
    let Ok(text) = str::from_utf8(digits) else {
        return None;
    };
    let Ok(number) = text.parse::<u64>() else {
        return None;
    };
    if number < TOO_LATE {
        Some(number)
    } else {
        None
    }
}

/// Returns the decimal digits of a number; `Err` only if memory runs out.
fn written(alloc: Global, number: u64) -> Result<String, OutOfMemory>
    ensures { IfOk result (λ text. string_bytes text ≡ decimal number) }
{
    let mut text = String::new(alloc);
    write!(text, "{number}")?;
    Ok(text)
}

/// Returns the time below 2^60 whose decimal digits, without leading zeros, these are, or `None` if there is none, and
/// `Err` only if memory runs out.
pub fn time(alloc: Global, digits: &[u8]) -> Result<Option<u64>, OutOfMemory>
    ensures some { IfOk result (λ r. IfSome r (λ n. (digits.now ≡ decimal n) × (n < 2 ^ 60))) }
    ensures none { IfOk result (λ r. IfNone r ((n : ℕ) → n < 2 ^ 60 → digits.now ≢ decimal n)) }
{
    let Some(number) = number(digits) else {
        return Ok(None);
    };
    // with a sign or leading zeros they aren't the digits of the number
    let text = written(alloc, number)?;
    if !are_same(digits, text.as_bytes()) {
        return Ok(None);
    }
    Ok(Some(number))
}
