//! Putting texts into bytes at a place. The bytes are there already, so no memory is asked for. Each function returns the
//! place after what it put.
ghost use Rattle.std.specs.Prelude.{◌≡◌, ◌+◌, ◌<◌, ◌≤◌, ◌++◌, ◌∷◌, [], length, take};
ghost use Rattle.std.specs.Fmt.{decimal};

/// Puts a byte at a place.
pub(crate) fn place_byte(out: &mut [u8], at: usize, byte: u8) -> usize
    requires { at < length out.old }
    ensures bytes { take result out.new ≡ take at out.old ++ byte ∷ [] }
    ensures end { result ≡ at + 1 }
    ensures len { length out.new ≡ length out.old }
{
    out[at] = byte;
    at + 1
}

/// Puts two bytes at a place.
pub(crate) fn place_two(out: &mut [u8], at: usize, bytes: [u8; 2]) -> usize
    requires { at + 2 ≤ length out.old }
    ensures bytes { take result out.new ≡ take at out.old ++ bytes }
    ensures end { result ≡ at + 2 }
    ensures len { length out.new ≡ length out.old }
{
    let next = place_byte(out, at, bytes[0]);
    place_byte(out, next, bytes[1])
}

/// Puts bytes at a place.
pub(crate) fn place(out: &mut [u8], at: usize, bytes: &[u8]) -> usize
    requires { at + length bytes.now ≤ length out.old }
    ensures bytes { take result out.new ≡ take at out.old ++ bytes.now }
    ensures end { result ≡ at + length bytes.now }
    ensures len { length out.new ≡ length out.old }
{
    let end = at + bytes.len();
    out[at..end].copy_from_slice(bytes);
    end
}

/// Puts a number at a place, digit by digit: those before the last by a call of itself.
fn place_decimal(out: &mut [u8], at: usize, number: u8) -> usize
    requires { at + length (decimal number) ≤ length out.old }
    ensures bytes { take result out.new ≡ take at out.old ++ decimal number }
    ensures end { result ≡ at + length (decimal number) }
    ensures len { length out.new ≡ length out.old }
{
    if number < 10 {
        return place_byte(out, at, b'0' + number);
    }
    let end = place_decimal(out, at, number / 10);
    place_byte(out, end, b'0' + number % 10)
}

/// Puts a number at a place, for which 20 bytes are there. Most numbers have one digit, which is put without a further
/// call.
pub(crate) fn place_number(out: &mut [u8], at: usize, number: u8) -> usize
    requires { at + 20 ≤ length out.old }
    ensures bytes { take result out.new ≡ take at out.old ++ decimal number }
    ensures few { result ≤ at + 20 }
    ensures len { length out.new ≡ length out.old }
{
    if number < 10 {
        return place_byte(out, at, b'0' + number);
    }
    place_decimal(out, at, number)
}
