// Runs the functions of crate `text` on every string of one and of two bytes and on the vectors of
// data/vectors.bin, and prints what it counted.
#![tactic(auto)]

ghost use Rattle.std.specs.Prelude.{◌≡◌, ◌+◌, ◌%◌, ◌^◌};

use cases::{Agreement, Cases, front, line, load, nth_field, number};
use std::io::Result;

// A vector has four fields: its operation, two texts, and what is expected.
const FIELDS: usize = 4;

// The operations, by their numbers in the file.
#[derive(Clone, Copy)]
enum Op {
    IsUtf8 = 1,
    TrimEnd,
    Trim,
    CommonWsPrefix,
    StartsWith,
    EndsWith,
    LineEnd,
    LineFeeds,
}

// How many strings of one and of two bytes there are.
const ONES: usize = 256;

const TWOS: usize = ONES * ONES;

// Room for the file.
const FILE: usize = 65536;

// What was counted over a set of strings.
#[derive(Clone, Copy, Default)]
struct Tally {
    valid: u64,
    trimmed: u64,
    trimmed_end: u64,
    padding: u64,
    line_feeds: u64,
}

fn add(n: u64, m: usize) -> u64
    ensures { result ≡ (n + m) % 2 ^ 64 }
{
    n.wrapping_add(m as u64)
}

impl Tally {
    // One valid string more: the bytes that trimming leaves, its padding and its line feeds are added up.
    fn with(self, s: &[u8]) -> Self {
        if !text::is_utf8(s) {
            return self;
        }
        Tally {
            valid: add(self.valid, 1),
            trimmed: add(self.trimmed, text::trim(s).len()),
            trimmed_end: add(self.trimmed_end, text::trim_end(s).len()),
            padding: add(self.padding, text::common_ws_prefix(s, s).len()),
            line_feeds: add(self.line_feeds, text::line_feeds(s)),
        }
    }

    fn print(self, rt: &impl Print) -> Result<()> {
        line(rt, b"  valid", self.valid)?;
        line(rt, b"  bytes left by trim", self.trimmed)?;
        line(rt, b"  bytes left by trim_end", self.trimmed_end)?;
        line(rt, b"  bytes of padding", self.padding)?;
        line(rt, b"  line feeds", self.line_feeds)
    }
}

fn all_of_one() -> Tally {
    let mut t = Tally::default();
    for a in 0..=u8::MAX {
        t = t.with(&[a]);
    }
    t
}

fn all_of_two() -> Tally {
    let mut t = Tally::default();
    for k in 0..=u16::MAX {
        t = t.with(&k.to_be_bytes());
    }
    t
}

fn is_flag(b: bool, want: &[u8]) -> bool {
    number(want) == u16::from(b)
}

// The answer for `a` and `b` is the expected one.
fn agrees(op: Op, a: &[u8], b: &[u8], want: &[u8]) -> bool {
    match op {
        Op::IsUtf8 => is_flag(text::is_utf8(a), want),
        Op::TrimEnd => text::trim_end(a) == want,
        Op::Trim => text::trim(a) == want,
        Op::CommonWsPrefix => text::common_ws_prefix(a, b) == want,
        Op::StartsWith => is_flag(text::starts_with(a, b), want),
        Op::EndsWith => is_flag(text::ends_with(a, b), want),
        Op::LineEnd => number(want) as usize == text::line_end(a, b.len()),
        Op::LineFeeds => number(want) as usize == text::line_feeds(a),
    }
}

// The vector that v begins with is tried, if it is of this operation.
fn tried(v: &[u8], op: Op, found: Agreement) -> Agreement {
    if number(nth_field(v, 0)) != op as u16 {
        return found;
    }
    found.with(agrees(op, nth_field(v, 1), nth_field(v, 2), nth_field(v, 3)))
}

// The vectors of one operation.
fn replayed(v: &[u8], op: Op) -> Agreement {
    let mut found = Agreement::default();
    for case in Cases::of(v, FIELDS) {
        found = tried(case, op, found);
    }
    found
}

fn replay_all(rt: &impl Print, v: &[u8]) -> Result<()> {
    replayed(v, Op::IsUtf8).print(rt, b"is_utf8")?;
    replayed(v, Op::TrimEnd).print(rt, b"trim_end")?;
    replayed(v, Op::Trim).print(rt, b"trim")?;
    replayed(v, Op::CommonWsPrefix).print(rt, b"common_ws_prefix")?;
    replayed(v, Op::StartsWith).print(rt, b"starts_with")?;
    replayed(v, Op::EndsWith).print(rt, b"ends_with")?;
    replayed(v, Op::LineEnd).print(rt, b"line_end")?;
    replayed(v, Op::LineFeeds).print(rt, b"line_feeds")
}

fn main(rt: HostRuntime) -> Result<()> {
    line(&rt, b"strings of one byte", ONES as u64)?;
    all_of_one().print(&rt)?;
    line(&rt, b"strings of two bytes", TWOS as u64)?;
    all_of_two().print(&rt)?;
    let mut file = [0u8; FILE];
    let n = load(&rt, "vectors.bin", &mut file)?;
    replay_all(&rt, front(&file, n))
}
