// Writes the records and texts of a plan, or counts them.
ghost use Rattle.std.specs.Prelude.{◌≡◌, ◌≤◌, true, false, length};
ghost use Rattle.text.specs.Words.{joined_words};
ghost use Rattle.items.specs.Machine.{PutsIn, all_fit, sized, no_size};
ghost use Rattle.comments.specs.Place.{place};
ghost use Rattle.plan.specs.Words.{words};
ghost use Rattle.plan.specs.Ops.{note, place_by, op_items, decoded};

use super::words::{ALL, word_in};
use super::{KINDS, NOTE_ABOVE, NOTE_INLINE, TOKEN, WORD};
use comments::{CommentLocation, format_comment};
use items::{Output, Size, count_plain, count_text, no_size, put_plain, put_text};
use tree::Tree;

// The place of a comment by the kind of its operation.
fn place_of(k: u32) -> CommentLocation
    ensures { place result ≡ place_by k }
{
    match k {
        NOTE_ABOVE => CommentLocation::AboveItem,
        NOTE_INLINE => CommentLocation::ItemInline,
        _ => CommentLocation::EndOfItems,
    }
}

// Puts the comment of element t.
fn put_note(
    records: &mut [u32],
    texts: &mut [u8],
    tree: &Tree,
    t: u32,
    loc: CommentLocation,
    p: Size,
) -> Size
    requires { all_fit (note tree.now t (place loc)) p ≡ true }
    ensures { PutsIn records texts p result (note tree.now t (place loc)) }
{
    let k = tree.kind_at(t);
    let s = tree.text_at(t);
    let mut out = Output::new(records, texts, Some(p));
    format_comment(&mut out, k, s, loc);
    out.size().unwrap()
}

// Writes an operation; the formatter's own texts are lent.
fn write_op(
    records: &mut [u32],
    texts: &mut [u8],
    tree: &Tree,
    all: &[u8],
    op: u32,
    p: Size,
) -> Size
    requires joined { all.now ≡ joined_words words }
    requires unlisted { p.listed ≡ false }
    requires fits { all_fit (op_items tree.now op) p ≡ true }
    ensures { PutsIn records texts p result (op_items tree.now op) }
{
    let k = op % KINDS;
    let v = op / KINDS;
    if k == TOKEN {
        return put_text(records, texts, tree.text_at(v), p);
    }
    if k == WORD {
        return put_text(records, texts, word_in(all, v), p);
    }
    if NOTE_ABOVE <= k {
        return put_note(records, texts, tree, v, place_of(k), p);
    }
    put_plain(records, texts, k, v, p)
}

// Writes the first n operations of a plan, as far as there is room. All numbers must fit.
pub fn write_ops(records: &mut [u32], texts: &mut [u8], tree: &Tree, ops: &[u32], n: usize) -> Size
    requires within { n ≤ length ops.now }
    requires fits { all_fit (decoded tree.now ops.now n) (no_size false) ≡ true }
    ensures { PutsIn records texts (no_size false) result (decoded tree.now ops.now n) }
{
    let all: &[u8] = &ALL;
    let mut p = no_size(false);
    for op in &ops[..n] {
        p = write_op(records, texts, tree, all, *op, p);
    }
    p
}

// The size after the comment of element t: it is put into no buffer.
fn count_note(tree: &Tree, t: u32, loc: CommentLocation, p: Size) -> Size
    requires { all_fit (note tree.now t (place loc)) p ≡ true }
    ensures { result ≡ sized (note tree.now t (place loc)) p }
{
    let mut records = [0u32; 0];
    let mut texts = [0u8; 0];
    put_note(&mut records, &mut texts, tree, t, loc, p)
}

// The size after an operation; the formatter's own texts are lent. Counted by itself, since writing into no buffers takes longer.
fn count_op(tree: &Tree, all: &[u8], op: u32, p: Size) -> Size
    requires joined { all.now ≡ joined_words words }
    requires fits { all_fit (op_items tree.now op) p ≡ true }
    ensures { result ≡ sized (op_items tree.now op) p }
{
    let k = op % KINDS;
    let v = op / KINDS;
    if k == TOKEN {
        return count_text(tree.text_at(v), p);
    }
    if k == WORD {
        return count_text(word_in(all, v), p);
    }
    if NOTE_ABOVE <= k {
        return count_note(tree, v, place_of(k), p);
    }
    count_plain(k, v, p)
}

// The size of the first n operations of a plan, with their lines where they are listed. All numbers must fit. The loop of `write_ops` calls
// another function with two more slices, and so does not take this one's place.
pub fn count_ops(tree: &Tree, ops: &[u32], n: usize, listed: bool) -> Size
    requires within { n ≤ length ops.now }
    requires fits { all_fit (decoded tree.now ops.now n) (no_size listed) ≡ true }
    ensures { result ≡ sized (decoded tree.now ops.now n) (no_size listed) }
{
    let all: &[u8] = &ALL;
    let mut p = no_size(listed);
    for op in &ops[..n] {
        p = count_op(tree, all, *op, p);
    }
    p
}
