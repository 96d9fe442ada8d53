// Reading the index: an element's numbers and text, and the parts of a region by their kinds.
ghost use Rattle.std.specs.Prelude.{◌≡◌, get_or};
ghost use Rattle.text.specs.Basic.{ascii, same_bytes};
ghost use Rattle.tree.specs.Answer.{found};
ghost use Rattle.tree.specs.Class.{is_plus, nth_of, last_of, plus_of, number_of};
ghost use Rattle.tree.specs.Source.{Source};
ghost use Rattle.tree.specs.Index.{kind_at, end_at, start_at, text_at, part_at, parts_from, Region};
ghost use Rattle.tree.specs.Siblings.{Left};

use super::bytes;
use super::class::{Class, Kinds, is, kinds_of};
use super::iter::Siblings;
use numbers::Element;
use std::marker::Model;

// How many numbers an entry of the index has, and where its end and its start stand.
pub const ENTRY: usize = 3;

pub const END: usize = 1;

pub const START: usize = 2;

// The number at a place, 0 past the end.
pub(crate) fn number_at(index: &[u32], i: usize) -> u32
    ensures { result ≡ get_or index.now i 0 }
{
    index.get(i).copied().unwrap_or(0)
}

// s is `+`.
fn is_plus_sign(s: &[u8]) -> bool
    ensures { result ≡ same_bytes s.now (ascii "+") }
{
    (s.len() == 1) && (s[0] == b'+')
}

// A tree: its image, and the index of its elements.
#[derive(Drop)]
pub struct Tree<'a> {
    pub image: &'a [u8],
    pub index: &'a [u32],
}

impl<'a> Model for Tree<'a> {
    ghost Value = { Source };

    ghost view = { λ t. record { image = t.image.now; index = t.index.now } };
}

impl<'a> Tree<'a> {
    // The kind of element i.
    #[tactic(auto, unfolding(crate::specs::Index::kind_at))]
    pub fn kind_at(&self, i: u32) -> u32
        ensures { result ≡ kind_at self.now.index i }
    {
        number_at(self.index, (i as usize) * ENTRY)
    }

    // Where the subtree of element i ends.
    #[tactic(auto, unfolding(crate::specs::Index::end_at))]
    pub fn end_at(&self, i: u32) -> u32
        ensures { result ≡ end_at self.now.index i }
    {
        number_at(self.index, (i as usize) * ENTRY + END)
    }

    // Where the text of element i starts.
    #[tactic(auto, unfolding(crate::specs::Index::start_at))]
    pub fn start_at(&self, i: u32) -> u32
        ensures { result ≡ start_at self.now.index i }
    {
        number_at(self.index, (i as usize) * ENTRY + START)
    }

    // The joined text of the tokens under element i.
    #[tactic(auto, unfolding(crate::specs::Index::text_at))]
    pub fn text_at(&self, i: u32) -> &'a [u8]
        ensures { result.now ≡ text_at self.now.image self.now.index i }
    {
        let start = self.start_at(i);
        let end = self.start_at(self.end_at(i));
        text::front(
            text::behind(self.image, start as usize),
            end.saturating_sub(start) as usize,
        )
    }

    // Element i is an operator with text `+`.
    #[tactic(auto, unfolding(crate::specs::Class::is_plus))]
    pub fn is_plus(&self, i: u32) -> bool
        ensures { result ≡ is_plus (part_at self.now.image self.now.index i) }
    {
        let operator = is(kinds_of(Class::Operator), self.kind_at(i));
        let s = self.text_at(i);
        operator & is_plus_sign(s)
    }

    // The siblings from a on that begin before b. That a walk of this tree may go from a to b (`Region`) is asked of two places, since only
    // what this gives holds all three.
    pub fn siblings(&self, a: u32, b: u32) -> Siblings<'a>
        requires { Region self.now.image self.now.index a b }
        ensures left { Left self.now.image self.now.index b result }
        ensures starts { result.next ≡ a }
    {
        Siblings {
            index: self.index,
            next: a,
            end: b,
        }
    }

    // The n-th part of these kinds, from 0, of the siblings from a on that begin before b.
    pub fn nth_of(&self, w: Kinds, n: u32, a: u32, b: u32) -> Option<Element>
        requires { Region self.now.image self.now.index a b }
        ensures { found result ≡ number_of (nth_of w n (parts_from self.now.image self.now.index a b)) }
    {
        self.siblings(a, b)
            .filter(|j| is(w, self.kind_at(j.0)))
            .nth(n as usize)
    }

    // The last part of these kinds of the siblings from a on that begin before b.
    pub fn last_of(&self, w: Kinds, a: u32, b: u32) -> Option<Element>
        requires { Region self.now.image self.now.index a b }
        ensures { found result ≡ number_of (last_of w (parts_from self.now.image self.now.index a b)) }
    {
        self.siblings(a, b)
            .filter(|e| is(w, self.kind_at(e.0)))
            .last()
    }

    // The first `+` of the siblings from a on that begin before b.
    pub fn plus_of(&self, a: u32, b: u32) -> Option<Element>
        requires { Region self.now.image self.now.index a b }
        ensures { found result ≡ number_of (plus_of (parts_from self.now.image self.now.index a b)) }
    {
        self.siblings(a, b).find(|j| self.is_plus(j.0))
    }
}
