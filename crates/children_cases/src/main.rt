// Surveys and walks all sequences of up to seven elements by crate `children`, strict and loose, with and without a
// trailing list, and prints how many readings of each length come to the stored digest, and how many sequences of a
// sample come to the stored answers.
#![tactic(auto)]

mod answer;
mod sequence;

ghost use Rattle.std.specs.Prelude.{◌≤◌};

use answer::{BASIS, Digests, basis, mix, mix_answers};
use cases::{Agreement, Cases, behind, front, line, load, more, nth_field, number32, zeros};
use sequence::{LONGEST, spell};
use std::io::Result;

// Bytes of a digest, and of the four of a length.
const DIGEST: usize = 4;

const STORED: usize = 4 * DIGEST;

// Room for the digests of all lengths and for the sample.
const DIGESTS: usize = 8 * STORED;

const SAMPLE: usize = 131072;

// A case of the sample has five fields: the sequence, and the answers of its four readings.
const FIELDS: usize = 5;

// How many sequences of each length there are.
const COUNTS: [u32; 8] = [1, 10, 100, 1000, 10000, 100000, 1000000, 10000000];

// The four answers to sequence k of n elements, behind what the digests hold.
fn mix_number(n: usize, k: u32, d: Digests) -> Digests
    requires { n ≤ 7 }
{
    let mut word = [0u8; LONGEST];
    spell(k, &mut word);
    mix_answers(front(&word, n), d)
}

// The answers to the sequences of n elements up to a number.
fn all_of(n: usize, total: u32) -> Digests
    requires { n ≤ 7 }
{
    let mut d = basis();
    for k in 0..total {
        d = mix_number(n, k, d);
    }
    d
}

// How many of the four digests of the sequences of n elements are those that are stored.
fn agreeing(v: &[u8], n: usize, total: u32) -> u64
    requires { n ≤ 7 }
{
    let d = all_of(n, total);
    let w = behind(v, n * STORED);
    let a = more(0, d.strict == number32(w));
    let b = more(a, d.loose == number32(behind(w, DIGEST)));
    let c = more(b, d.strict_after == number32(behind(w, 2 * DIGEST)));
    more(c, d.loose_after == number32(behind(w, 3 * DIGEST)))
}

fn compare(rt: &impl Print, v: &[u8], n: usize, total: u32) -> Result<()>
    requires { n ≤ 7 }
{
    line(rt, b"length", n as u64)?;
    line(rt, b"  sequences", total as u64)?;
    line(rt, b"  readings that agree", agreeing(v, n, total))
}

fn compare_all(rt: &impl Print, v: &[u8]) -> Result<()> {
    for (n, total) in COUNTS.iter().enumerate() {
        compare(rt, v, n, *total)?;
    }
    Ok(())
}

// The digest of an answer.
fn digest(answer: &[u8]) -> u32 {
    answer.iter().fold(BASIS, |h, b| mix(h, *b as u32))
}

// The first sequence of the sample has the four answers that stand behind it.
fn agrees(v: &[u8]) -> bool {
    let word = nth_field(v, 0);
    if LONGEST < word.len() {
        return false;
    }
    let d = mix_answers(word, basis());
    let p = d.strict == digest(nth_field(v, 1));
    let q = d.loose == digest(nth_field(v, 2));
    let r = d.strict_after == digest(nth_field(v, 3));
    let s = d.loose_after == digest(nth_field(v, 4));
    p & q & r & s
}

// The sequences of a sample, and how many of them agree before the first that does not.
#[derive(Clone, Copy)]
struct Sample {
    found: Agreement,
    before: u64,
}

fn counted(s: Sample, agrees: bool) -> Sample {
    let found = s.found;
    Sample {
        found: found.with(agrees),
        before: more(s.before, agrees & (s.before == found.seen)),
    }
}

fn replayed(v: &[u8]) -> Sample {
    let mut s = Sample {
        found: Agreement::default(),
        before: 0,
    };
    for case in Cases::of(v, FIELDS) {
        s = counted(s, agrees(case));
    }
    s
}

fn replay(rt: &impl Print, v: &[u8]) -> Result<()> {
    let s = replayed(v);
    let found = s.found;
    line(rt, b"sample", found.seen)?;
    line(rt, b"  sequences that agree", found.right)?;
    line(rt, b"  before the first that does not", s.before)
}

fn main(rt: HostRuntime) -> Result<()> {
    let mut digests = [0u8; DIGESTS];
    let n = load(&rt, "digests.bin", &mut digests)?;
    compare_all(&rt, front(&digests, n))?;
    let mut sample = zeros::<SAMPLE>();
    let m = load(&rt, "sample.bin", &mut sample)?;
    replay(&rt, front(&sample, m))
}
