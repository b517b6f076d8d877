//! Appending texts to bytes that have room for them.
ghost use Rattle.std.specs.Prelude.{◌≡◌, ◌+◌, ◌≤◌, ◌++◌, length};
ghost use Rattle.std.specs.Fmt.{decimal};
ghost use Rattle.std.specs.Vec.{vec_len, vec_capacity};

/// Appends bytes.
pub fn append(out: &mut Vec<u8>, bytes: &[u8])
    requires { vec_len out.old + length bytes.now ≤ vec_capacity out.old }
    ensures bytes { out.new.items ≡ out.old.items ++ bytes.now }
    ensures len { vec_len out.new ≡ vec_len out.old + length bytes.now }
    ensures room { vec_capacity out.old ≤ vec_capacity out.new }
{
    // the room is reserved, so no memory is asked for, and there is no error
    let _done = out.extend_from_slice(bytes);
}

/// Appends a number, digit by digit: those before the last by a call of itself.
fn append_decimal(out: &mut Vec<u8>, number: u64)
    requires { vec_len out.old + length (decimal number) ≤ vec_capacity out.old }
    ensures bytes { out.new.items ≡ out.old.items ++ decimal number }
    ensures len { vec_len out.new ≡ vec_len out.old + length (decimal number) }
    ensures room { vec_capacity out.old ≤ vec_capacity out.new }
{
    // a number below 10 is one digit, so it fits a byte
    if number < 10 {
        out.push_reserved(b'0' + number as u8);
        return;
    }
    append_decimal(out, number / 10);
    // the last digit is below 10
    out.push_reserved(b'0' + (number % 10) as u8);
}

/// Appends a number of 64 bits, which has at most 20 digits.
pub fn append_number(out: &mut Vec<u8>, number: u64)
    requires { vec_len out.old + 20 ≤ vec_capacity out.old }
    ensures bytes { out.new.items ≡ out.old.items ++ decimal number }
    ensures few { vec_len out.new ≤ vec_len out.old + 20 }
    ensures room { vec_capacity out.old ≤ vec_capacity out.new }
{
    append_decimal(out, number);
}
