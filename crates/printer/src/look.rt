// Looking up parts of a node. Nothing here prints.
ghost use Rattle.std.specs.Prelude.{◌≡◌, ◌+◌, ◌<◌, true, false, IfSome};
ghost use Rattle.text.specs.Basic.{any};
ghost use Rattle.tree.specs.Answer.{found};
ghost use Rattle.tree.specs.declared.class.Class.TheVariants.{RBrace};
ghost use Rattle.tree.specs.Index.{end_at};
ghost use Rattle.tree.specs.Class.{nth_of, nth, first, last, plus_of, number_of};
ghost use Rattle.printer.specs.Layout;
ghost use Rattle.printer.specs.Layout.{asked};
ghost use Rattle.printer.specs.Rows.{want_at, wanted as wanted_parts, piece_of, tested, want_count, marked, Marks};
ghost use Rattle.printer.specs.Reads.{Has};
ghost use Rattle.printer.specs.Clauses.{spec_start_in, parts_in, first_in, BoundedIn};

use super::node::Node;
use super::rows::{ALL_MARKS, Entry, OPERATORS, kinds_wanted, marks_of, place_wanted};
use children::between::{Bounds, bounds_between};
use numbers::Element;
use tree::class::{Class, Kinds, kinds_of};

// Whether a bit of marks is set.
fn is_marked(m: u64, w: u32) -> bool
    requires { w < want_count }
    ensures { result ≡ marked m w }
{
    (m >> w) % 2 == 1
}

impl<'a> Node<'a> {
    // Where its children begin: behind it.
    pub fn start(self) -> u32
        ensures { result ≡ self.entry.element.0 + 1 }
    {
        self.element.0 + 1
    }

    // Where they end.
    pub fn end(self) -> u32
        ensures { result ≡ end_at self.entry.tree.now.index self.entry.element.0 }
    {
        self.tree.end_at(self.element.0)
    }

    // The n-th part of these kinds, from 0.
    fn nth(self, w: Kinds, n: u32) -> Option<Element>
        ensures { found result ≡ number_of (nth_of w n (parts_in self.entry)) }
    {
        self.tree.nth_of(w, n, self.start(), self.end())
    }

    // The first part of a class.
    pub fn first_of(self, c: Class) -> Option<Element>
        ensures { found result ≡ number_of (first c (parts_in self.entry)) }
    {
        self.nth(kinds_of(c), 0)
    }

    // The bounds of a reading of its parts, between a start and an end, if any.
    pub fn between(self, start: Option<Element>, end: Option<Element>) -> Bounds
        requires starts { Has (parts_in self) (found start) }
        requires ends { Has (parts_in self) (found end) }
        ensures { BoundedIn self.entry (found start) (found end) result }
    {
        bounds_between(self.tree, start, end, self.start(), self.end())
    }

    // The marks of its parts, or all marks, which are not sure, where these are not asked for: what a number of marks tells goes by the
    // node and by that.
    pub fn marks_in(self, asked: bool) -> u64
        ensures { Marks (parts_in self.entry) asked result }
    {
        if !asked {
            return ALL_MARKS;
        }
        let a = self.start();
        let b = self.end();
        let mut m = 0;
        for j in self.tree.siblings(a, b) {
            m = m | marks_of(self.tree.kind_at(j.0));
        }
        m
    }

    // The wanted part with a number, which may be another than the first of its kinds.
    fn counted_part(self, w: u32) -> Option<Element>
        requires known { w < want_count }
        ensures { found result ≡ number_of (nth (want_at w).class (want_at w).place (parts_in self.entry)) }
    {
        self.nth(kinds_wanted(w), place_wanted(w))
    }

    // The wanted part with a number, of a node whose parts have the marks m.
    pub fn wanted_part(self, m: u64, w: u32) -> Option<Element>
        requires marks { Marks (parts_in self) false m }
        requires known { w < want_count }
        ensures { found result ≡ number_of (nth (want_at w).class (want_at w).place (parts_in self.entry)) }
    {
        if !is_marked(m, w) {
            return None;
        }
        self.counted_part(w)
    }

    // Whether a wanted part, if any, is there, of a node whose parts have the marks m. The first of its kinds is not looked for.
    fn is_there(self, m: u64, wanted: Option<u32>) -> bool
        requires marks { Marks (parts_in self) true m }
        requires known { IfSome wanted (λ w. w < want_count) }
        ensures { result ≡ any (Layout.found (parts_in self.entry)) (wanted_parts wanted) }
    {
        let Some(w) = wanted else {
            return false;
        };
        if place_wanted(w) != 0 {
            return self.counted_part(w).is_some();
        }
        is_marked(m, w)
    }

    // Whether a piece is printed.
    pub fn is_asked(self, m: u64, x: Entry) -> bool
        requires marks { Marks (parts_in self) x.tested m }
        requires test { x.tested ≡ tested (piece_of x) }
        requires given { IfSome x.given (λ w. w < want_count) }
        requires other { IfSome x.other (λ w. w < want_count) }
        requires unless { IfSome x.unless (λ w. w < want_count) }
        ensures { result ≡ asked (parts_in self.entry) (piece_of x) }
    {
        if !x.tested {
            return true;
        }
        let given = self.is_there(m, x.given);
        let other = self.is_there(m, x.other);
        let barred = self.is_there(m, x.unless);
        let always = x.given.is_none() & x.other.is_none();
        (always | (given | other)) & !barred
    }

    // The `+` of a field, of a node whose parts have the marks m.
    pub fn plus_part(self, m: u64) -> Option<Element>
        requires marks { Marks (parts_in self) false m }
        ensures { found result ≡ number_of (plus_of (parts_in self.entry)) }
    {
        if !is_marked(m, OPERATORS) {
            return None;
        }
        self.tree.plus_of(self.start(), self.end())
    }

    // The reading between the first tokens of two classes.
    pub fn enclosed(self, opening: Class, closing: Class) -> Bounds
        ensures { BoundedIn self.entry (first_in self.entry opening) (first_in self.entry closing) result }
    {
        self.between(self.first_of(opening), self.first_of(closing))
    }

    // The second reading of an object comprehension, of its CompSpecs.
    pub fn spec_bounds(self) -> Bounds
        ensures { BoundedIn self.entry (spec_start_in self.entry) (first_in self.entry RBrace) result }
    {
        let members = kinds_of(Class::MemberComp);
        let last = self.tree.last_of(members, self.start(), self.end());
        let start = last.or(self.first_of(Class::LBrace));
        self.between(start, self.first_of(Class::RBrace))
    }
}
