// Multi-line comments.
ghost use Rattle.std.specs.Prelude.{◌≡◌, true, false, cond, suc, ◌-◌, length, drop, take};
ghost use mathlib.Core.List.{[], ◌∷◌, map, flatten};
ghost use Rattle.text.specs.Basic.{ascii, is_nil};
ghost use Rattle.text.specs.Text.{line_end};
ghost use Rattle.items.specs.Item.{text, tab};
ghost use Rattle.items.specs.Machine.{SaysIn};
ghost use Rattle.comments.specs.Comments.{Location, optional, tabbed, one_line, unpadded, many_lines, on_one_line, block_of, multi_line};
ghost use Rattle.comments.specs.Place.{place};
ghost use Rattle.comments.specs.Rows.{rows};

use crate::CommentLocation;
use crate::plain::{print_end, print_if, print_lead};
use crate::rows::{common_length, first_row, next_row, row};
use items::{Output, Signal};
use text::behind;

const TAB: u8 = 9;

// A tab that a line begins with: four spaces in a doc comment.
fn print_tab(out: &mut Output, doc: bool)
    ensures { SaysIn out (cond doc (text (ascii "    ")) tab ∷ []) }
{
    if doc {
        out.print_text(b"    ");
    } else {
        out.print_signal(Signal::Tab);
    }
}

// The tabs that a line begins with, and its text.
fn print_tabbed(out: &mut Output, doc: bool, l: &[u8])
    ensures { SaysIn out (tabbed doc l.now) }
{
    let mut rest = l;
    while let [TAB, behind @ ..] = rest {
        print_tab(out, doc);
        rest = behind;
    }
    out.print_text(rest);
}

// A line of a comment over many lines.
fn print_row(out: &mut Output, doc: bool, l: &[u8])
    ensures { SaysIn out (one_line doc l.now) }
{
    print_if(out, doc, b" *");
    if l.len() == 0 {
        out.print_signal(Signal::NewLine);
        return;
    }
    print_if(out, doc, b" ");
    print_tabbed(out, doc, l);
    out.print_signal(Signal::NewLine);
}

// The lines from `i` on, each without its first n bytes.
fn print_rows(out: &mut Output, doc: bool, s: &[u8], i: usize, n: usize)
    ensures { SaysIn out (flatten (map (one_line doc) (map (drop n) (rows s.now i)))) }
{
    let mut j = i;
    while j <= s.len() {
        let next = next_row(s, j);
        print_row(out, doc, behind(row(s, j, next), n));
        j = next;
    }
}

// A comment on one line.
fn print_one(out: &mut Output, s: &[u8], loc: CommentLocation)
    ensures { SaysIn out (on_one_line s.now (place loc)) }
{
    print_lead(out, loc);
    out.print_text(b"/* ");
    out.print_text(text::trim(s));
    out.print_text(b" */");
    print_end(out, loc);
}

// A comment with lines: whether it is a doc comment, whether its first line stands beside the opening, its lines, of which the first and the
// last are not empty, and where the second begins.
#[derive(Clone, Copy)]
struct Block<'a> {
    doc: bool,
    immediate: bool,
    body: &'a [u8],
    second: usize,
    ghost parted: { second ≡ suc (line_end body.now 0) },
}

impl<'a> Block<'a> {
    // The lines of a comment that does not begin beside its opening, without their common padding.
    fn print_below(self, out: &mut Output)
        ensures { SaysIn out (flatten (map (one_line self.entry.doc) (unpadded false (rows self.entry.body.now 0)))) }
    {
        let s = self.body;
        let n = common_length(s, row(s, 0, self.second), self.second);
        print_rows(out, self.doc, s, 0, n);
    }

    // The lines of a comment that begins beside its opening: the first as it is, the others without their common padding.
    fn print_beside(self, out: &mut Output)
        ensures { SaysIn out (flatten (map (one_line self.entry.doc) (unpadded true (rows self.entry.body.now 0)))) }
    {
        let s = self.body;
        let second = self.second;
        print_row(out, self.doc, row(s, 0, second));
        if s.len() < second {
            return;
        }
        let third = next_row(s, second);
        let n = common_length(s, row(s, second, third), third);
        print_rows(out, self.doc, s, second, n);
    }

    fn print_between(self, out: &mut Output)
        ensures { SaysIn out (flatten (map (one_line self.entry.doc) (unpadded self.entry.immediate (rows self.entry.body.now 0)))) }
    {
        if self.immediate {
            self.print_beside(out);
        } else {
            self.print_below(out);
        }
    }

    // A comment over many lines, or a doc comment.
    fn print_many(self, out: &mut Output)
        ensures { SaysIn out (many_lines self.entry.doc (unpadded self.entry.immediate (rows self.entry.body.now 0))) }
    {
        out.print_text(b"/*");
        print_if(out, self.doc, b"*");
        out.print_signal(Signal::NewLine);
        self.print_between(out);
        print_if(out, self.doc, b" ");
        out.print_text(b"*/");
        out.print_signal(Signal::NewLine);
    }

    // A comment with these lines.
    fn print_block(self, out: &mut Output, loc: CommentLocation)
        ensures { SaysIn out (block_of self.entry.doc self.entry.immediate (rows self.entry.body.now 0) (place loc)) }
    {
        let s = self.body;
        if !self.doc && s.len() < self.second {
            print_one(out, row(s, 0, self.second), loc);
        } else {
            self.print_many(out);
        }
    }
}

// What stands between the opening and the end of a comment.
fn inside(s: &[u8]) -> &[u8]
    ensures { result.now ≡ take (length s.now - 4) (drop 2 s.now) }
{
    match s {
        [_, _, body @ .., _, _] => body,
        _ => &[],
    }
}

// What stands behind the further star of a doc comment.
fn after_star(doc: bool, s: &[u8]) -> &[u8]
    ensures { result.now ≡ cond doc (drop 1 s.now) s.now }
{
    if doc { behind(s, 1) } else { s }
}

pub fn print_multi_line(out: &mut Output, s: &[u8], loc: CommentLocation)
    ensures { SaysIn out (multi_line s.now (place loc)) }
{
    let body = inside(s);
    let doc = text::starts_with(body, b"*");
    let rest = text::trim_end(after_star(doc, body));
    if rest.len() == 0 {
        return;
    }
    let first = first_row(rest);
    let start = first.start;
    let second = first.next - start;
    let block = Block {
        doc,
        immediate: start == 0,
        body: behind(rest, start),
        second,
    };
    block.print_block(out, loc);
}

// Whether a multi-line comment has no text, and so prints nothing.
pub fn is_blank(s: &[u8]) -> bool
    ensures { (loc : Location) → result ≡ is_nil (multi_line s.now loc) }
{
    let body = inside(s);
    let doc = text::starts_with(body, b"*");
    let left = text::trim_end(after_star(doc, body));
    left.len() == 0
}
