// The siblings of a tree, by jumps over what is under each.
ghost use Rattle.std.specs.Prelude.{◌-◌};
ghost use Rattle.std.specs.Iterator.{at_most};
ghost use Rattle.tree.specs.Index.{Forward};

use super::access::{END, ENTRY, number_at};
use numbers::Element;

// The siblings from one element on that begin before a place.
#[derive(Drop)]
pub struct Siblings<'a> {
    pub index: &'a [u32],
    pub next: u32,
    pub end: u32,
    ghost forward: { Forward index.now next end },
}

impl<'a> Iterator for Siblings<'a> {
    ghost use Rattle.tree.specs.Siblings.{GivesSibling};

    type Item = Element;

    ghost next_gives = { GivesSibling };

    ghost remaining = { λ s. at_most (s.end - s.next) };

    fn next(&mut self) -> Option<Element> {
        let j = self.next;
        if j >= self.end {
            return None;
        }
        self.next = number_at(self.index, (j as usize) * ENTRY + END);
        Some(Element(j))
    }
}
