// The newlines of a gap, as should_start_with_newline counts them.
ghost use Rattle.std.specs.Prelude.{◌≡◌, ◌&&◌, leb};
ghost use Rattle.children.specs.Gaps.{newlines_at};
ghost use Rattle.children.specs.Spans.{Lies, gap_at};

use super::gap::Span;
use tree::Tree;

// The newlines of a gap: two or more ask for a blank line, one or more for many lines.
pub fn newlines_at(tree: &Tree, s: Span) -> usize
    requires { Lies tree.now.image tree.now.index s }
    ensures { result ≡ newlines_at (gap_at tree.now.image tree.now.index s) }
{
    s.tally.before + s.tally.back
}

// Whether the child behind a gap asks for a blank line.
pub fn blank_line(tree: &Tree, s: Span) -> bool
    requires { Lies tree.now.image tree.now.index s }
    ensures { result ≡ (s.had && leb 2 (newlines_at (gap_at tree.now.image tree.now.index s))) }
{
    let n = newlines_at(tree, s);
    s.had & (n >= 2)
}
