// Runs crate `tree` on the images of data/vectors.bin and on every damaged copy of one image, of data/damaged.bin, and
// prints how many answers agree with those in the files.
#![tactic(auto)]

ghost use Rattle.std.specs.Prelude.{◌≡◌, ◌==◌, cond, Some, None, slice_index};
ghost use Rattle.tree.specs.Index.{Indexed};

use cases::{
    Agreement, Cases, behind, behind_fields, byte, front, line, load, more, nth_field, number, put,
    put_all, word, zeros,
};
use numbers::Element;
use std::io;
use tree::Tree;
use tree::class::Kinds;

// A vector has four fields: its operation, an image, what else is asked, and what is expected.
const FIELDS: usize = 4;

// The operations, by their numbers in the file.
#[derive(Clone, Copy)]
enum Op {
    Refusal = 1,
    Index,
    Nth,
    Last,
    Plus,
}

// Bytes of an expected answer of the tests: the refusal's number, and two for the element.
const ANSWER: usize = 3;

// How many values a byte has.
const VALUES: usize = 256;

// Room for the largest index, for the image that is damaged and for the largest file.
const TABLE: usize = 12291;

const IMAGE: usize = 4096;

const FILE: usize = 524288;

// The tests answer as the k-th expected answer says: with a refusal's number and element, or twice 0 for none.
fn answers(image: &[u8], want: &[u8], k: usize) -> bool {
    if want.len() / ANSWER <= k {
        return false;
    }
    let w = behind(want, k * ANSWER);
    let reason = byte(w, 0) as u32;
    let element = number(behind(w, 1)) as u32;
    match tree::refusal(image) {
        Err(r) => (u32::from(r.reason) == reason) & (r.element.0 == element),
        Ok(_) => (reason == 0) & (element == 0),
    }
}

// The table begins with these numbers, two bytes each.
fn is_table(table: &[u32], want: &[u8]) -> bool {
    (0..want.len() / 2).all(|i| word(table, i) == number(behind(want, i * 2)) as u32)
}

// The kinds that are asked for; 0 leaves none out.
fn wanted(args: &[u8]) -> Kinds
    ensures lo { result.lo ≡ slice_index args.now 2 }
    ensures hi { result.hi ≡ slice_index args.now 3 }
    ensures but { result.but ≡ cond (slice_index args.now 4 == 0) None (Some (slice_index args.now 4)) }
{
    Kinds {
        lo: byte(args, 2) as u32,
        hi: byte(args, 3) as u32,
        but: match byte(args, 4) {
            0 => None,
            k => Some(k as u32),
        },
    }
}

// What an accessor finds among the children of a node.
fn found(tree: &Tree, op: Op, args: &[u8]) -> Option<Element>
    requires { Indexed tree.now.image tree.now.index }
{
    let node = number(args) as u32;
    if tree::element_count(tree.image) <= node {
        return None;
    }
    let a = node + 1;
    let b = tree.end_at(node);
    let w = wanted(args);
    match op {
        Op::Nth => tree.nth_of(w, byte(args, 5) as u32, a, b),
        Op::Last => tree.last_of(w, a, b),
        _ => tree.plus_of(a, b),
    }
}

// What is expected of an accessor: an element, whose number stands there with 1 added, or none for 0.
fn element(want: &[u8]) -> Option<u32> {
    (number(want) as u32).checked_sub(1)
}

// The answer for an image is the expected one.
fn agrees(op: Op, image: &[u8], args: &[u8], want: &[u8]) -> bool {
    if let Op::Refusal = op {
        return answers(image, want, 0);
    }
    let mut table = [0u32; TABLE];
    if !tree::index::try_index(image, &mut table) {
        return false;
    }
    if let Op::Index = op {
        return is_table(&table, want);
    }
    let tree = Tree {
        image,
        index: &table,
    };
    found(&tree, op, args).map(|e| e.0) == element(want)
}

// The vector that v begins with is tried, if it is of this operation.
fn tried(v: &[u8], op: Op, found: Agreement) -> Agreement {
    if number(nth_field(v, 0)) != op as u16 {
        return found;
    }
    found.with(agrees(op, nth_field(v, 1), nth_field(v, 2), nth_field(v, 3)))
}

// The vectors of one operation.
fn replayed(v: &[u8], op: Op) -> Agreement {
    let mut found = Agreement::default();
    for case in Cases::of(v, FIELDS) {
        found = tried(case, op, found);
    }
    found
}

// How many shorter beginnings of an image have the expected answers.
fn beginnings(image: &[u8], want: &[u8]) -> u64 {
    let mut right: u64 = 0;
    for n in 0..image.len() {
        right = more(right, answers(front(image, n), want, n));
    }
    right
}

// How many images have the expected answers, with each value of a byte at a place among the first n.
fn changed_at(image: &mut [u8], n: usize, at: usize, want: &[u8]) -> u64 {
    let kept = byte(image, at);
    let mut right: u64 = 0;
    for b in 0..VALUES {
        put(image, at, b as u8);
        right = more(right, answers(front(image, n), want, b));
    }
    put(image, at, kept);
    right
}

// The same for every place; each has a field of expected answers.
fn changed(image: &mut [u8], n: usize, want: &[u8]) -> u64 {
    let mut right: u64 = 0;
    for at in 0..n {
        right = right.wrapping_add(changed_at(image, n, at, nth_field(want, at)));
    }
    right
}

// Every shorter beginning of an image, and every copy with one byte changed.
fn damage(rt: &impl Print, v: &[u8]) -> io::Result<()> {
    let mut image = [0u8; IMAGE];
    let n = put_all(&mut image, 0, nth_field(v, 0));
    line(rt, b"beginnings", n as u64)?;
    line(
        rt,
        b"  agree",
        beginnings(front(&image, n), nth_field(v, 1)),
    )?;
    line(rt, b"bytes changed", n as u64)?;
    line(
        rt,
        b"  agree for every value",
        changed(&mut image, n, behind_fields(v, 2)),
    )
}

fn replay_all(rt: &impl Print, v: &[u8]) -> io::Result<()> {
    replayed(v, Op::Refusal).print(rt, b"refusals")?;
    replayed(v, Op::Index).print(rt, b"indexes")?;
    replayed(v, Op::Nth).print(rt, b"n-th parts")?;
    replayed(v, Op::Last).print(rt, b"last parts")?;
    replayed(v, Op::Plus).print(rt, b"plus signs")
}

fn main(rt: HostRuntime) -> io::Result<()> {
    let mut file = zeros::<FILE>();
    let n = load(&rt, "vectors.bin", &mut file)?;
    replay_all(&rt, front(&file, n))?;
    let m = load(&rt, "damaged.bin", &mut file)?;
    damage(&rt, front(&file, m))
}
