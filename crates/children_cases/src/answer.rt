// The answers of crate `children` to four readings of one sequence, number after number in four digests.
ghost use Rattle.std.specs.Prelude.{◌<◌, ◌≤◌, true, length};
ghost use Rattle.tree.specs.Index.{Indexed, Region};
ghost use Rattle.children.specs.Spans.{Surveying};

use super::sequence::put_image;
use cases::front;
use children::between::Bounds;
use children::gap::{Span, at_child, gap, lead};
use children::newlines::{blank_line, newlines_at};
use children::survey::{Outline, is_stopped, survey, survey_after};
use tree::Tree;
use tree::class::{Class, Kinds, is, kinds_of};

// Room for an image and for its index.
const IMAGE: usize = 128;

const TABLE: usize = 32;

// Stands behind a list in an answer.
const SIGN: u32 = 255;

// The digest of no number.
pub const BASIS: u32 = 2166136261;

const PRIME: u32 = 16777619;

// A digest of each reading: strict, loose, and the same with a trailing list.
#[derive(Clone, Copy)]
pub struct Digests {
    pub strict: u32,
    pub loose: u32,
    pub strict_after: u32,
    pub loose_after: u32,
}

// The digests of no answer.
pub fn basis() -> Digests {
    Digests {
        strict: BASIS,
        loose: BASIS,
        strict_after: BASIS,
        loose_after: BASIS,
    }
}

// A number more in a digest, which is FNV-1a of 32 bits.
pub fn mix(h: u32, x: u32) -> u32 {
    (h ^ x).wrapping_mul(PRIME)
}

fn bit(b: bool) -> u32 {
    u32::from(b)
}

// The numbers of the siblings of these kinds from a on that begin before b: two places that need be no region of the tree, which `Siblings` asks.
fn mix_all(tree: &Tree, w: Kinds, a: u32, b: u32, h: u32) -> u32 {
    let mut n = h;
    let mut j = a;
    while j < b {
        if is(w, tree.kind_at(j)) {
            n = mix(n, j);
        }
        let next = tree.end_at(j);
        if next <= j {
            return n;
        }
        j = next;
    }
    n
}

fn mix_inline(tree: &Tree, s: Span, h: u32) -> u32 {
    mix(
        mix_all(tree, kinds_of(Class::Trivia), s.from, s.cut, h),
        SIGN,
    )
}

fn mix_waiting(tree: &Tree, s: Span, h: u32) -> u32 {
    let n = mix_all(tree, kinds_of(Class::CustomError), s.from, s.cut, h);
    let notes = Kinds {
        lo: 64,
        hi: 72,
        but: None,
    };
    mix(mix_all(tree, notes, s.cut, s.to, n), SIGN)
}

// What a survey says: the foreign element, or the children, many lines, the ending's blank line and its trivia.
fn mix_outline(tree: &Tree, o: Outline, h: u32) -> u32 {
    let last = o.last;
    if is_stopped(o) {
        return mix(mix(h, 1), last.to);
    }
    let n = mix(mix(mix(mix(h, 2), o.children), bit(o.many)), bit(o.blank));
    mix_waiting(tree, last, n)
}

// The children from the one behind a gap on: number, blank line, many lines, what waited, what is inline.
fn mix_walk(tree: &Tree, w: Kinds, z: Bounds, first: Span, h: u32) -> u32
    requires { Surveying tree.now.image tree.now.index z.to first 0 }
{
    let mut s = first;
    let mut n = h;
    while at_child(s) {
        n = mix(mix(n, s.to), bit(blank_line(tree, s)));
        n = mix(n, bit(newlines_at(tree, s) >= 1));
        n = mix_waiting(tree, s, n);
        s = gap(tree, w, z, true, tree.end_at(s.to));
        n = mix_inline(tree, s, n);
    }
    n
}

// A reading with no trailing list.
fn plain(tree: &Tree, z: Bounds, h: u32) -> u32
    requires { Region tree.now.image tree.now.index z.from z.to }
{
    let w = kinds_of(Class::Expr);
    let o = survey(tree, w, z);
    let n = mix_outline(tree, o, h);
    if is_stopped(o) {
        return n;
    }
    let s = gap(tree, w, z, false, z.from);
    mix_walk(tree, w, z, s, n)
}

// A reading whose trailing list is what waits in the first gap of the reading without one.
fn trailing(tree: &Tree, z: Bounds, h: u32) -> u32
    requires { Region tree.now.image tree.now.index z.from z.to }
{
    let w = kinds_of(Class::Expr);
    let t = gap(tree, w, z, false, z.from);
    let o = survey_after(tree, w, z, t);
    let n = mix_outline(tree, o, h);
    if is_stopped(o) {
        return n;
    }
    let s = lead(tree, w, z);
    if !at_child(s) {
        return n;
    }
    let many = t.tally.before >= 1;
    let m = mix_waiting(tree, t, mix(mix(n, s.to), bit(many)));
    let next = gap(tree, w, z, true, tree.end_at(s.to));
    mix_walk(tree, w, z, next, mix_inline(tree, next, m))
}

// The four readings of the children of the first element, behind what the digests hold.
fn answers(tree: &Tree, d: Digests) -> Digests
    requires { Indexed tree.now.image tree.now.index }
{
    let node: u32 = 0;
    if tree::element_count(tree.image) <= node {
        return d;
    }
    let strict = Bounds {
        from: node + 1,
        to: tree.end_at(node),
        loose: false,
    };
    let loose = Bounds {
        loose: true,
        ..strict
    };
    Digests {
        strict: plain(tree, strict, d.strict),
        loose: plain(tree, loose, d.loose),
        strict_after: trailing(tree, strict, d.strict_after),
        loose_after: trailing(tree, loose, d.loose_after),
    }
}

// The same from an image. One that is refused leaves the digests as they are, so that they are not those that are stored.
fn answered(image: &[u8], d: Digests) -> Digests {
    let mut table = [0u32; TABLE];
    if !tree::index::try_index(image, &mut table) {
        return d;
    }
    let tree = Tree {
        image,
        index: &table,
    };
    answers(&tree, d)
}

// The same from a sequence.
pub fn mix_answers(word: &[u8], d: Digests) -> Digests
    requires { length word.now ≤ 7 }
{
    let mut image = [0u8; IMAGE];
    let end = put_image(word, &mut image);
    answered(front(&image, end), d)
}
