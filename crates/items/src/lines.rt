// The lengths of the lines that list records, and which bytes of a text are escaped in them.
ghost use Rattle.std.specs.Prelude.{◌≡◌, length};
ghost use Rattle.std.specs.List.{count_by};
ghost use Rattle.items.specs.Lines.{decimal, field, is_escaped};
ghost use Rattle.items.specs.Names.{name_at, has_number, described_length, line_length};

use super::names::{IF_LINES, Table, name_length};
use super::{AGAIN, IF, MARK, RUN, TEXT};

// The first operand of a condition on lines.
pub const LINES: u32 = 1;

// How many bytes longer an escaped byte is listed: its octal digits, behind a backslash in its place.
const OCTAL_DIGITS: u64 = 3;

// How many digits a number has.
fn decimal_length(n: u32) -> u64
    ensures { result ≡ length (decimal n) }
{
    match n.checked_ilog10() {
        Some(k) => k as u64 + 1,
        None => 1,
    }
}

// The length of a name and a number.
pub fn field_length(t: Table, w: u32, n: u32) -> u64
    ensures { result ≡ length (field (name_at t w) n) }
{
    name_length(t, w) + 1 + decimal_length(n)
}

// The records of this kind have one number.
pub fn has_number(kind: u32) -> bool
    ensures { result ≡ has_number kind }
{
    matches!(kind, MARK | RUN..=AGAIN)
}

// A byte of a text that is listed by its octal digits.
pub fn is_escaped(b: u8) -> bool
    ensures { result ≡ is_escaped b }
{
    b.is_ascii_control() | (b == b'\\')
}

// How many bytes of a text are escaped.
pub fn escapes(s: &[u8]) -> usize
    ensures { result ≡ count_by is_escaped s.now }
{
    let mut n = 0;
    for b in s {
        if is_escaped(*b) {
            n += 1;
        }
    }
    n
}

// The length of what lists a record's kind and operands, and its text, in which so many bytes are escaped.
fn described_length(kind: u32, first: u32, second: u32, escapes: u32) -> u64
    ensures { result ≡ described_length kind first second escapes }
{
    if kind == TEXT {
        return field_length(Table::Kinds, TEXT, second)
            + 1
            + second as u64
            + OCTAL_DIGITS * (escapes as u64);
    }
    if (kind == IF) & (first == LINES) {
        return field_length(Table::Others, IF_LINES, second);
    }
    if has_number(kind) {
        return field_length(Table::Kinds, kind, first);
    }
    name_length(Table::Kinds, kind)
}

// The length of the line of record n.
pub fn line_length(n: u32, kind: u32, first: u32, second: u32, escapes: u32) -> u64
    ensures { result ≡ line_length n kind first second escapes }
{
    decimal_length(n) + described_length(kind, first, second, escapes) + 2
}
