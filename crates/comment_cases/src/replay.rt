// Tokens whose items are written out.
ghost use Rattle.std.specs.Prelude.{◌-◌, ◌≤◌, length};

use cases::{Agreement, Cases, behind, byte, front, nth_field, number, word};
use comments::CommentLocation;
use items::{Output, RECORD, Size, no_size};

// A case has four fields: the token's kind and text, and its items above an item and inline.
const FIELDS: usize = 4;

// The kind of a text, behind which stand its length and its bytes.
const TEXT: u8 = 1;

const TEXT_HEAD: usize = 2;

// The first byte of a field of items that says: as above an item.
const AS_ABOVE: u8 = 255;

// Word k of record n.
fn record_word(records: &[u32], n: u32, k: u8) -> u32 {
    word(records, RECORD * (n as usize) + k as usize)
}

// What stands behind the first item: a text is as long as its length says.
fn behind_item(want: &[u8]) -> &[u8]
    ensures { length result.now ≤ length want.now - 1 }
{
    if byte(want, 0) != TEXT {
        return behind(want, 1);
    }
    behind(want, TEXT_HEAD + byte(want, 1) as usize)
}

// Record n is the text that comes first in `want`, stored from `offset` on.
fn text_agrees(records: &[u32], texts: &[u8], n: u32, offset: u32, want: &[u8]) -> bool {
    let size = byte(want, 1);
    if record_word(records, n, 1) != offset {
        return false;
    }
    if record_word(records, n, 2) != size as u32 {
        return false;
    }
    front(behind(texts, offset as usize), size as usize)
        == front(behind(want, TEXT_HEAD), size as usize)
}

// Record n is the item that comes first in `want`.
fn item_agrees(records: &[u32], texts: &[u8], n: u32, offset: u32, want: &[u8]) -> bool {
    let kind = byte(want, 0);
    if record_word(records, n, 0) != kind as u32 {
        return false;
    }
    if kind == TEXT {
        text_agrees(records, texts, n, offset, want)
    } else {
        (record_word(records, n, 1) == 0) & (record_word(records, n, 2) == 0)
    }
}

// The records are the items of `want`, no fewer and no more.
fn items_agree(records: &[u32], texts: &[u8], c: Size, want: &[u8]) -> bool {
    let mut n: u32 = 0;
    let mut offset: u32 = 0;
    let mut rest = want;
    while !rest.is_empty() {
        if !item_agrees(records, texts, n, offset, rest) {
            return false;
        }
        // The length of a text; 0 of any other record.
        offset = offset.wrapping_add(record_word(records, n, 2));
        n = n.wrapping_add(1);
        rest = behind_item(rest);
    }
    (n == c.records) & (offset == c.texts)
}

// Prints a token from the start, and gives the size of what was printed.
pub fn printed(
    records: &mut [u32],
    texts: &mut [u8],
    kind: u32,
    s: &[u8],
    loc: CommentLocation,
) -> Option<Size> {
    let mut out = Output::new(records, texts, Some(no_size(false)));
    comments::format_comment(&mut out, kind, s, loc);
    out.size()
}

// Counts what is printed, with no room for any of it.
fn counted(kind: u32, s: &[u8], loc: CommentLocation) -> Option<Size> {
    let mut records = [0u32; 0];
    let mut texts = [0u8; 0];
    printed(&mut records, &mut texts, kind, s, loc)
}

// Counting alone gives this size.
pub fn sizes_agree(kind: u32, s: &[u8], loc: CommentLocation, c: Size) -> bool {
    counted(kind, s, loc).is_some_and(|d| (d.records == c.records) & (d.texts == c.texts))
}

// A token at one place prints these items.
fn agrees_at(
    records: &mut [u32],
    texts: &mut [u8],
    kind: u32,
    s: &[u8],
    loc: CommentLocation,
    want: &[u8],
) -> bool {
    let Some(c) = printed(records, texts, kind, s, loc) else {
        return false;
    };
    items_agree(records, texts, c, want) & sizes_agree(kind, s, loc, c)
}

// Whether a token agrees at its three places. At the end of items it prints what it prints above an item.
pub fn at_places<F: FnMut(CommentLocation, &[u8]) -> bool>(
    mut agrees: F,
    above: &[u8],
    inline: &[u8],
) -> bool
where
    F: Drop,
    requires { F.IsAlwaysCallable agrees }
{
    let a = agrees(CommentLocation::AboveItem, above);
    let b = agrees(CommentLocation::ItemInline, inline);
    let c = agrees(CommentLocation::EndOfItems, above);
    a & b & c
}

// The items inline of the first case, which may be those above an item.
fn inline_items(v: &[u8]) -> &[u8] {
    let inline = nth_field(v, 3);
    if byte(inline, 0) == AS_ABOVE {
        nth_field(v, 2)
    } else {
        inline
    }
}

// The first case of v is tried, if its token is of this kind.
fn tried(
    records: &mut [u32],
    texts: &mut [u8],
    v: &[u8],
    kind: u32,
    found: Agreement,
) -> Agreement {
    if number(nth_field(v, 0)) as u32 != kind {
        return found;
    }
    let s = nth_field(v, 1);
    let right = at_places(
        |loc, want| agrees_at(records, texts, kind, s, loc, want),
        nth_field(v, 2),
        inline_items(v),
    );
    found.with(right)
}

// The tokens of one kind.
pub fn replayed(records: &mut [u32], texts: &mut [u8], v: &[u8], kind: u32) -> Agreement {
    let mut found = Agreement::default();
    for case in Cases::of(v, FIELDS) {
        found = tried(records, texts, case, kind, found);
    }
    found
}
