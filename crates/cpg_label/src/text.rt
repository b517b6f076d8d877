//! Parts of texts. Each function fails only if memory runs out.
ghost use Rattle.std.specs.Prelude.{◌≡◌, ◌++◌, OnErr, OnOk, string_bytes};
ghost use Rattle.std.specs.Fmt.{decimal};
ghost use Rattle.cpg_label.specs.Front.{IsFrontOf};

use std::alloc::AllocError;

/// Writes a text, and another one after it.
pub(crate) fn write_both(out: &mut String, first: &str, second: &str) -> Result<(), AllocError>
    ensures text { OnOk result (string_bytes out.new ≡ string_bytes out.old ++ first.now ++ second.now) }
    ensures front { OnErr result (IsFrontOf (string_bytes out.old) (string_bytes out.new)) }
{
    out.push_str(first)?;
    out.push_str(second)
}

/// Writes a number in decimal digits.
pub(crate) fn write_number(out: &mut String, number: u64) -> Result<(), AllocError>
    ensures text { OnOk result (string_bytes out.new ≡ string_bytes out.old ++ decimal number) }
    ensures front { OnErr result (IsFrontOf (string_bytes out.old) (string_bytes out.new)) }
{
    let mut digits = itoa::Buffer::new();
    out.push_str(digits.format(number))
}
