// trivia_before and trivia_after of a SourceFile.
ghost use Rattle.std.specs.Prelude.{◌≡◌};
ghost use Rattle.std.proofs.Math.Option.{none};
ghost use Rattle.tree.specs.Answer.{found};
ghost use Rattle.tree.specs.Index.{parts_from, Region};
ghost use Rattle.children.specs.Reading.{strict};
ghost use Rattle.children.specs.Between.{Beside, Ends, Led, is_kept, foreign_in, BeforeIn, AfterIn};

use super::turn::{is_separator, note_kinds};
use numbers::Element;
use tree::Tree;
use tree::class::is;

// The trivia and custom errors from one element up to another.
#[derive(Clone, Copy)]
pub struct Notes {
    pub from: u32,
    pub to: u32,
}

// Whether a kind is trivia, a custom error or a separator.
fn is_kept(k: u32) -> bool
    ensures { result ≡ is_kept k }
{
    let note = is(note_kinds(), k);
    let separator = is_separator(k);
    note | separator
}

// The first foreign element from a on that begins before b.
fn foreign_of(tree: &Tree, a: u32, b: u32) -> Option<Element>
    requires { Region tree.now.image tree.now.index a b }
    ensures { found result ≡ foreign_in (parts_from tree.now.image tree.now.index a b) }
{
    tree.siblings(a, b).find(|j| !is_kept(tree.kind_at(j.0)))
}

// The trivia and custom errors from a on that begin before b, which is a strict reading, or the foreign element that stops it.
fn strict_notes(tree: &Tree, a: u32, b: u32) -> Result<Notes, Element>
    requires { Region tree.now.image tree.now.index a b }
    ensures { Beside tree.now.image tree.now.index (strict (parts_from tree.now.image tree.now.index a b)) a b result }
{
    match foreign_of(tree, a, b) {
        Some(x) => Err(x),
        None => Ok(Notes { from: a, to: b }),
    }
}

// Where the trivia and custom errors end that come first from a on.
fn leading_end(tree: &Tree, a: u32, b: u32) -> u32
    requires { Region tree.now.image tree.now.index a b }
    ensures { Led tree.now.image tree.now.index a b result }
{
    let w = note_kinds();
    let mut end = a;
    for j in tree.siblings(a, b) {
        if !is(w, tree.kind_at(j.0)) {
            return end;
        }
        end = tree.end_at(j.0);
    }
    end
}

// The trivia before an expression among the elements from a on that begin before b; without one, the trivia that comes first.
pub fn trivia_before(tree: &Tree, e: Option<Element>, a: u32, b: u32) -> Result<Notes, Element>
    requires { Ends tree.now.image tree.now.index a b (found e) none }
    ensures { BeforeIn tree (found e) a b result }
{
    match e {
        Some(x) => strict_notes(tree, a, x.0),
        None => {
            let to = leading_end(tree, a, b);
            Ok(Notes { from: a, to })
        }
    }
}

// The trivia behind an expression among the elements from a on that begin before b; without one, nothing. It differs from
// `trivia_before` in both arms.
pub fn trivia_after(tree: &Tree, e: Option<Element>, a: u32, b: u32) -> Result<Notes, Element>
    requires { Ends tree.now.image tree.now.index a b (found e) none }
    ensures { AfterIn tree (found e) a b result }
{
    match e {
        Some(x) => strict_notes(tree, tree.end_at(x.0), b),
        None => Ok(Notes { from: b, to: b }),
    }
}
