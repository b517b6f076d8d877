//! The texts of literals, put into bytes from a place on.
ghost use Rattle.std.specs.Prelude.{◌≡◌, ◌+◌, ◌≤◌, ◌++◌, OnErr, OnOk, length, string_bytes, take};
ghost use Rattle.cpg_label.specs.CubeText.{literal_text, range_text, value_text};
ghost use Rattle.cpg_label.specs.Front.{IsFrontOf};
ghost use Rattle.cpg_label.specs.Lines.{text_after};

use crate::labels::Labels;
use crate::placing::{place, place_byte, place_number, place_two};
use cpg_base::Variable;
use cpg_cube::Literal;
use std::alloc::AllocError;

/// The most bytes that are reserved for a literal: a comma with a blank (2), a name (32), ` faults ` (8), and two numbers of
/// at most 20 digits with `..` between them (42).
pub(crate) const MOST_LITERAL: usize = 84;

/// Returns the text of a condition's value: `false` for 0, `true` for any other number.
fn value_name(number: u8) -> &'static str
    ensures text { result.now ≡ value_text number }
    ensures few { length result.now ≤ 5 }
{
    if number == 0 { "false" } else { "true" }
}

/// Writes the text of a condition's value, by its number; `Err` only if memory runs out.
pub fn write_value(out: &mut String, number: u8) -> Result<(), AllocError>
    ensures text { OnOk result (string_bytes out.new ≡ string_bytes out.old ++ value_text number) }
    ensures front { OnErr result (IsFrontOf (string_bytes out.old) (string_bytes out.new)) }
{
    out.push_str(value_name(number))
}

/// Puts the text of a range of fault counts at a place, and returns where it ends. There are 42 bytes for it: two numbers
/// of at most 20 digits with `..` between them.
fn place_range(out: &mut [u8], at: usize, low: u8, high: u8) -> usize
    requires { at + 42 ≤ length out.old }
    ensures text { take result out.new ≡ take at out.old ++ range_text low high }
    ensures few { result ≤ at + 42 }
    ensures len { length out.new ≡ length out.old }
{
    let end = place_number(out, at, low);
    // a range of one number is written as this number
    if low == high {
        return end;
    }
    let after_dots = place_two(out, end, *b"..");
    place_number(out, after_dots, high)
}

/// Puts the text of a literal at a place, and returns where it ends. There are 82 bytes for it: `MOST_LITERAL` without the
/// comma and the blank.
fn place_literal(out: &mut [u8], at: usize, labels: &Labels<'_>, literal: Literal) -> usize
    requires { at + 82 ≤ length out.old }
    ensures text { take result out.new ≡ take at out.old ++ literal_text labels.now literal }
    ensures few { result ≤ at + 82 }
    ensures len { length out.new ≡ length out.old }
{
    match Variable::of(literal.variable) {
        Variable::Count(process) => {
            let after_name = place(out, at, labels.process(process).as_bytes());
            let after_word = place(out, after_name, b" faults ");
            place_range(out, after_word, literal.low, literal.high)
        }
        Variable::Value(condition) => {
            // the range of a value has one number
            let after_name = place(out, at, labels.condition(condition).as_bytes());
            let after_blank = place_byte(out, after_name, b' ');
            place(out, after_blank, value_name(literal.low).as_bytes())
        }
    }
}

/// Puts the text of a literal after `count` others, which end at `at`, and returns where it ends.
pub(crate) fn place_after(
    out: &mut [u8],
    at: usize,
    labels: &Labels<'_>,
    count: usize,
    literal: Literal,
) -> usize
    requires { at + MOST_LITERAL ≤ length out.old }
    ensures text { take result out.new ≡ take at out.old ++ text_after labels.now count literal }
    ensures few { result ≤ at + MOST_LITERAL }
    ensures len { length out.new ≡ length out.old }
{
    // the first literal has no comma before it
    if count == 0 {
        return place_literal(out, at, labels, literal);
    }
    let after_comma = place_two(out, at, *b", ");
    place_literal(out, after_comma, labels, literal)
}
