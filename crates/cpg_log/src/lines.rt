//! The lines of a file, and the parts of a line.
ghost use Rattle.std.specs.Prelude.{◌≡◌, ◌≢◌, ◌<◌, ◌==◌, ◌∷◌, IfNone, IfSome, false, length, position};
ghost use Rattle.std.specs.Bool.{OnFalse, OnTrue};
ghost use Rattle.std.specs.List.{list_any};
ghost use Rattle.cpg_log.specs.Lines.{IsParted, lines};

/// Returns the place of the first byte that is `byte`, or `None` if there is none.
fn byte_index(bytes: &[u8], byte: u8) -> Option<usize>
    ensures place { result ≡ position (λ b. b == byte) bytes.now }
    ensures within { IfSome result (λ place. place < length bytes.now) }
{
    bytes.iter().position(|other| *other == byte)
}

/// Returns the bytes before the first byte that is `byte`, and those after it, or `None` if there is none.
pub fn parted(bytes: &[u8], byte: u8) -> Option<(&[u8], &[u8])>
    ensures some { IfSome result (λ r. IsParted byte bytes.now r.0.now r.1.now) }
    ensures none { IfNone result (list_any (λ b. b == byte) bytes.now ≡ false) }
{
    let Some(place) = byte_index(bytes, byte) else {
        return None;
    };
    Some((&bytes[..place], &bytes[place + 1..]))
}

/// Returns whether two lists of bytes are equal.
pub fn are_same(first: &[u8], second: &[u8]) -> bool
    ensures yes { OnTrue result (first.now ≡ second.now) }
    ensures no { OnFalse result (first.now ≢ second.now) }
{
    first == second
}

/// Returns the first line of some bytes, which aren't none, and the bytes after its line feed. The last line may lack that:
/// the rest is empty then.
pub fn first_line(bytes: &[u8]) -> (&[u8], &[u8])
    requires { 0 < length bytes.now }
    ensures lines { lines bytes.now ≡ result.0.now ∷ lines result.1.now }
    ensures shorter { length result.1.now < length bytes.now }
{
    match parted(bytes, b'\n') {
        Some(parts) => parts,
        None => (bytes, &[]),
    }
}
