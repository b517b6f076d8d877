//! Numbers as words write them.
ghost use Rattle.std.specs.Prelude.{◌≡◌};
ghost use Rattle.std.specs.List.{list_all};
ghost use Rattle.std.specs.Char.{is_ascii_digit};
ghost use Rattle.cpg_words.specs.Number.{number as number_of};

/// How many digits a number may have: as many as the greatest `u64` has.
const LONGEST: usize = 20;

/// Whether a text has only decimal digits.
fn is_digits(text: &str) -> bool
    ensures { result ≡ list_all is_ascii_digit text.now }
{
    text.bytes().all(|b| b.is_ascii_digit())
}

/// Returns the number that 1 to 20 decimal digits write, if it is below 2^64; `None` for every other text.
pub fn number(text: &str) -> Option<u64>
    ensures { result ≡ number_of text.now }
{
    if text.len() > LONGEST {
        return None;
    }
    // `parse` takes a sign too
    if !is_digits(text) {
        return None;
    }
    match text.parse::<u64>() {
        Ok(number) => Some(number),
        // no digit, or a number that doesn't fit
        Err(_) => None,
    }
}
