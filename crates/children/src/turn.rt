// What one element does to a gap.
ghost use Rattle.std.specs.Prelude.{◌≡◌};
ghost use Rattle.text.specs.Basic.{count};
ghost use Rattle.tree.specs.Class.{of_kind};
ghost use Rattle.tree.specs.declared.class.Class.TheVariants.{Trivia, SingleLine, CustomError, Separator};
ghost use Rattle.tree.specs.Index.{text_at, part_at};
ghost use Rattle.children.specs.Stretch.{notes};
ghost use Rattle.children.specs.Gaps.{turn, trivia_turn, other_turn, started_after, had_after, follows, space_in};

use super::gap::End;
use numbers::kind;
use std::ops::ControlFlow::{self, Break, Continue};
use tree::Tree;
use tree::class::{Kinds, is};

// What an element does to a gap that goes on with it.
#[derive(Clone, Copy)]
pub enum Go {
    // Inline trivia.
    Inline,
    // A single-line comment that is inline: it ends the line.
    Last,
    // Trivia that waits for the next child.
    Wait,
    // A custom error.
    Error,
    // A separator that a strict reading skips.
    Skip,
    // A foreign element that a loose reading passes over.
    Over,
}

// What one element does to a gap: the gap goes on, or ends.
pub type Turn = ControlFlow<End, Go>;

impl Go {
    // Whether all is to wait from here on.
    pub fn started(self, started: bool) -> bool
        ensures { result ≡ started_after self started }
    {
        match self {
            Go::Last | Go::Wait | Go::Over => true,
            Go::Inline | Go::Error | Go::Skip => started,
        }
    }

    // Whether a child or trivia came so far.
    pub fn had(self, had: bool) -> bool
        ensures { result ≡ had_after self had }
    {
        match self {
            Go::Inline | Go::Last | Go::Wait => true,
            Go::Error | Go::Skip | Go::Over => had,
        }
    }

    // Whether the cut goes on with the element.
    pub fn follows(self, started: bool) -> bool
        ensures { result ≡ follows self started }
    {
        match self {
            Go::Inline | Go::Last => true,
            Go::Wait | Go::Over => false,
            Go::Error | Go::Skip => !started,
        }
    }
}

// The ranges of four classes of `tree::class` stand here once more: each element of a gap is asked, and a range is two comparisons.

// Whether k is trivia.
pub fn is_trivia(k: u32) -> bool
    ensures { result ≡ of_kind Trivia k }
{
    (kind::WHITESPACE..=kind::SINGLE_LINE_SLASH_COMMENT).contains(&k)
}

// Whether k is a single-line comment.
pub fn is_single_line(k: u32) -> bool
    ensures { result ≡ of_kind SingleLine k }
{
    (kind::SINGLE_LINE_HASH_COMMENT..=kind::SINGLE_LINE_SLASH_COMMENT).contains(&k)
}

// Whether k is a custom error.
pub fn is_error(k: u32) -> bool
    ensures { result ≡ of_kind CustomError k }
{
    (kind::ERROR_MISSING_TOKEN..=kind::ERROR_CUSTOM).contains(&k)
}

// Whether k is a separator.
pub fn is_separator(k: u32) -> bool
    ensures { result ≡ of_kind Separator k }
{
    (kind::COMMA..=kind::SEMI).contains(&k)
}

// Trivia and custom errors.
pub fn note_kinds() -> Kinds
    ensures { result ≡ notes }
{
    Kinds {
        lo: kind::WHITESPACE,
        hi: kind::ERROR_CUSTOM,
        but: None,
    }
}

// How many line feeds there are in the text of element i.
fn line_feeds_of(tree: &Tree, i: u32) -> usize
    ensures { result ≡ count 10 (text_at tree.now.image tree.now.index i) }
{
    text::line_feeds(tree.text_at(i))
}

// The line feeds of element j, if it is whitespace.
pub fn space_of(tree: &Tree, j: u32) -> usize
    ensures { result ≡ space_in (part_at tree.now.image tree.now.index j) }
{
    if tree.kind_at(j) == kind::WHITESPACE {
        return line_feeds_of(tree, j);
    }
    0
}

// The line feeds of element j, whose line feeds are f if it is whitespace.
fn feeds_of(tree: &Tree, j: u32, f: usize) -> usize
    requires { f ≡ space_in (part_at tree.now.image tree.now.index j) }
    ensures { result ≡ count 10 (text_at tree.now.image tree.now.index j) }
{
    if tree.kind_at(j) == kind::WHITESPACE {
        return f;
    }
    line_feeds_of(tree, j)
}

// What the trivia j does to a gap; its line feeds are f if it is whitespace.
fn trivia_turn(tree: &Tree, started: bool, j: u32, f: usize) -> Turn
    requires { f ≡ space_in (part_at tree.now.image tree.now.index j) }
    ensures { result ≡ trivia_turn started (part_at tree.now.image tree.now.index j) }
{
    if started {
        return Continue(Go::Wait);
    }
    if is_single_line(tree.kind_at(j)) {
        return Continue(Go::Last);
    }
    if feeds_of(tree, j, f) >= 1 {
        return Continue(Go::Wait);
    }
    Continue(Go::Inline)
}

// What an element of kind k does to a gap that is no child, trivia or custom error.
fn other_turn(loose: bool, had: bool, k: u32) -> Turn
    ensures { result ≡ other_turn loose had k }
{
    if loose {
        if had {
            return Break(End::Last);
        }
        return Continue(Go::Over);
    }
    if is_separator(k) {
        return Continue(Go::Skip);
    }
    Break(End::Foreign)
}

// What element j does to a gap; its line feeds are f if it is whitespace. As a call of its own it costs a gap a fifth more instructions.
#[inline(always)]
pub fn turn_of(
    tree: &Tree,
    w: Kinds,
    loose: bool,
    started: bool,
    had: bool,
    j: u32,
    f: usize,
) -> Turn
    requires { f ≡ space_in (part_at tree.now.image tree.now.index j) }
    ensures { result ≡ turn w loose started had (part_at tree.now.image tree.now.index j) }
{
    let k = tree.kind_at(j);
    if is(w, k) {
        return Break(End::Child);
    }
    if is_trivia(k) {
        return trivia_turn(tree, started, j, f);
    }
    if is_error(k) {
        return Continue(Go::Error);
    }
    other_turn(loose, had, k)
}
