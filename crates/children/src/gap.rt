// The gaps of a reading: one before each child, and one at the end.
ghost use Rattle.std.specs.Prelude.{◌≡◌};
ghost use Rattle.tree.specs.Index.{Region};
ghost use Rattle.children.specs.Gaps.{is_child, is_foreign};
ghost use Rattle.children.specs.Lead.{Leads};
ghost use Rattle.children.specs.Spans.{Spans};

use super::between::Bounds;
use super::tally::Tally;
use super::turn::{space_of, turn_of};
use std::ops::ControlFlow::{Break, Continue};
use tree::Tree;
use tree::class::Kinds;

// What ends a gap: a child, the end of the reading, a foreign element. Where it ends stands in the gap, whichever it is.
#[derive(Clone, Copy)]
pub enum End {
    Child,
    Last,
    Foreign,
}

// A gap: where it begins, the cut between inline and waiting trivia, where it ends; whether a child or trivia came so far;
// what ends it; and what it holds. That these are numbers of a tree (`Lies`) is asked where they are used, since a gap holds no tree.
#[derive(Clone, Copy)]
pub struct Span {
    pub from: u32,
    pub cut: u32,
    pub to: u32,
    pub had: bool,
    pub end: End,
    pub tally: Tally,
}

// Whether a child ends a gap.
pub fn at_child(s: Span) -> bool
    ensures { result ≡ is_child s.end }
{
    matches!(s.end, End::Child)
}

// Whether a foreign element ends it.
pub fn at_foreign(s: Span) -> bool
    ensures { result ≡ is_foreign s.end }
{
    matches!(s.end, End::Foreign)
}

// A gap with another end.
pub(crate) fn ended_by(s: Span, end: End) -> Span
    ensures { result ≡ record { from = s.from; cut = s.cut; to = s.to; had = s.had; end = end; tally = s.tally } }
{
    Span { end, ..s }
}

// The gap that begins at from, of a reading: behind a child, or (not after) at the reading's start. This walk and that of `lead` are not over
// `Siblings`, since they give the place where they end, also the one behind the last sibling.
pub fn gap(tree: &Tree, w: Kinds, z: Bounds, after: bool, from: u32) -> Span
    requires { Region tree.now.image tree.now.index from z.to }
    ensures { Spans tree.now.image tree.now.index w z.loose after from z.to result }
{
    let b = z.to;
    let mut started = !after;
    let mut had = after;
    let mut cut = from;
    let mut j = from;
    let mut tally = Tally::NOTHING;
    while j < b {
        let f = space_of(tree, j);
        let go = match turn_of(tree, w, z.loose, started, had, j, f) {
            Continue(go) => go,
            Break(end) => {
                return Span {
                    from,
                    cut,
                    to: j,
                    had,
                    end,
                    tally,
                };
            }
        };
        let next = tree.end_at(j);
        let follows = go.follows(started);
        if follows {
            cut = next;
        }
        had = go.had(had);
        started = go.started(started);
        tally = tally.with(tree.kind_at(j), f, follows);
        j = next;
    }
    Span {
        from,
        cut,
        to: j,
        had,
        end: End::Last,
        tally,
    }
}

// The first gap of a reading that is handed a trailing list: it holds errors only, and cut and to are one.
pub fn lead(tree: &Tree, w: Kinds, z: Bounds) -> Span
    requires { Region tree.now.image tree.now.index z.from z.to }
    ensures { Leads tree.now.image tree.now.index w z.loose z.from z.to result }
{
    let from = z.from;
    let b = z.to;
    let mut j = from;
    let mut tally = Tally::NOTHING;
    while j < b {
        let f = space_of(tree, j);
        if let Break(end) = turn_of(tree, w, z.loose, true, false, j, f) {
            return Span {
                from,
                cut: j,
                to: j,
                had: false,
                end,
                tally,
            };
        }
        tally = tally.with(tree.kind_at(j), f, true);
        j = tree.end_at(j);
    }
    Span {
        from,
        cut: j,
        to: j,
        had: false,
        end: End::Last,
        tally,
    }
}
