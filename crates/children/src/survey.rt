// What a reading comes to, before anything of it is printed.
ghost use Rattle.std.specs.Prelude.{◌≡◌, false};
ghost use Rattle.text.specs.Basic.{is_nil};
ghost use Rattle.tree.specs.Index.{Region};
ghost use Rattle.children.specs.Reading.{newlines_before};
ghost use Rattle.children.specs.Gaps.{is_foreign};
ghost use Rattle.children.specs.Lead.{SurveyedAfter};
ghost use Rattle.children.specs.Spans.{Lies, gap_at, Surveying, Surveyed, SurveyedFrom};

use super::between::Bounds;
use super::gap::{End, Span, at_child, at_foreign, ended_by, gap, lead};
use super::newlines::newlines_at;
use tree::Tree;
use tree::class::Kinds;

// What a reading comes to: how many children, whether one triggers many lines, whether a blank line is asked for behind
// them, and the last gap, which ends it. Where a foreign element stops it there are no children and no lines.
#[derive(Clone, Copy)]
pub struct Outline {
    pub children: u32,
    pub many: bool,
    pub blank: bool,
    pub last: Span,
}

// Whether a foreign element stops a reading, as its last gap says. With a `Result` the printers, which give nothing back, could not
// hand the error on by `?`, and would stop the planner at it in as many lines.
pub fn is_stopped(o: Outline) -> bool
    ensures { result ≡ is_foreign o.last.end }
{
    let last = o.last;
    at_foreign(last)
}

// The newlines of what waits in a gap.
fn waiting_newlines(tree: &Tree, s: Span) -> usize
    requires { Lies tree.now.image tree.now.index s }
    ensures { result ≡ newlines_before (gap_at tree.now.image tree.now.index s).waiting }
{
    s.tally.before
}

// Whether nothing waits in a gap.
pub fn nothing_waits(tree: &Tree, s: Span) -> bool
    requires { Lies tree.now.image tree.now.index s }
    ensures { result ≡ is_nil (gap_at tree.now.image tree.now.index s).waiting }
{
    !s.tally.waits
}

// A reading with no child.
fn alone(s: Span, blank: bool) -> Outline
    ensures { result ≡ record { children = 0; many = false; blank = blank; last = s } }
{
    Outline {
        children: 0,
        many: false,
        blank,
        last: s,
    }
}

// The rest of a reading, from a gap on, behind some children of which one triggers many lines or none.
fn survey_from(tree: &Tree, w: Kinds, z: Bounds, first: Span, before: u32, already: bool) -> Outline
    requires { Surveying tree.now.image tree.now.index z.to first before }
    ensures { SurveyedFrom tree.now.image tree.now.index w z.loose z.to first before already result }
{
    let mut s = first;
    let mut children = before;
    let mut many = already;
    let mut n = newlines_at(tree, s);
    while at_child(s) {
        many = many | (n >= 1);
        children += 1;
        s = gap(tree, w, z, true, tree.end_at(s.to));
        n = newlines_at(tree, s);
    }
    if at_foreign(s) {
        return alone(s, false);
    }
    Outline {
        children,
        many,
        blank: n >= 2,
        last: s,
    }
}

// The whole of a reading.
pub fn survey(tree: &Tree, w: Kinds, z: Bounds) -> Outline
    requires { Region tree.now.image tree.now.index z.from z.to }
    ensures { Surveyed tree.now.image tree.now.index w z.loose z.from z.to result }
{
    let s = gap(tree, w, z, false, z.from);
    survey_from(tree, w, z, s, 0, false)
}

// The whole of a reading whose trailing list is what waits in the gap t.
pub fn survey_after(tree: &Tree, w: Kinds, z: Bounds, t: Span) -> Outline
    requires region { Region tree.now.image tree.now.index z.from z.to }
    requires lies { Lies tree.now.image tree.now.index t }
    ensures { SurveyedAfter tree.now.image tree.now.index w z.loose t z.from z.to result }
{
    let first = lead(tree, w, z);
    if at_foreign(first) {
        return alone(first, false);
    }
    if !at_child(first) {
        return alone(first, waiting_newlines(tree, first) >= 2);
    }
    if !nothing_waits(tree, first) {
        let barred = ended_by(first, End::Foreign);
        return alone(barred, false);
    }
    let many = waiting_newlines(tree, t) >= 1;
    let next = gap(tree, w, z, true, tree.end_at(first.to));
    survey_from(tree, w, z, next, 1, many)
}
