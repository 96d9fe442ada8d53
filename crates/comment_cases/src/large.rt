// Tokens of about 32,000 bytes, made from a recipe: a head, a piece that comes so many times, and a tail.
ghost use Rattle.std.specs.Prelude.{◌≡◌, ◌+◌, ◌*◌, ◌%◌};

use crate::replay::{at_places, printed, sizes_agree};
use cases::{Agreement, Cases, behind, byte, front, nth_field, number, number32, put_all, word};
use comments::CommentLocation;
use items::{RECORD, Size};

// A case has seven fields: the token's kind, head and piece, how often the piece comes, the tail, and what is expected above
// an item and inline.
const FIELDS: usize = 7;

// Where the number of text bytes and the checksum that are expected stand, behind the number of records.
const TEXTS: usize = 4;

const SUM: usize = 8;

const FACTOR: u64 = 65599;

const MODULUS: u64 = 4294967291;

// The least number of bytes that a large token has, and room for it.
const LARGE: usize = 31990;

const TOKEN: usize = 32768;

// One word more in a checksum.
fn mixed(sum: u64, w: u32) -> u64
    ensures { result ≡ ((sum % 4294967291) * 65599 + w) % 4294967291 }
{
    ((sum % MODULUS) * FACTOR + w as u64) % MODULUS
}

// A checksum over the words of the records and the bytes of the texts that `c` counts.
fn checksum(records: &[u32], texts: &[u8], c: Size) -> u64 {
    let words = RECORD * (c.records as usize);
    let sum = (0..words).fold(0, |sum, i| mixed(sum, word(records, i)));
    front(texts, c.texts as usize)
        .iter()
        .fold(sum, |sum, b| mixed(sum, *b as u32))
}

// A token at one place prints so many records and text bytes, with this checksum. That of `replay` compares items: one function of both
// would take a closure of four parameters for what follows the first statement.
fn agrees_at(
    records: &mut [u32],
    texts: &mut [u8],
    kind: u32,
    s: &[u8],
    loc: CommentLocation,
    want: &[u8],
) -> bool {
    let Some(c) = printed(records, texts, kind, s, loc) else {
        return false;
    };
    let sizes = (c.records == number32(want)) & (c.texts == number32(behind(want, TEXTS)));
    let sum = checksum(records, texts, c) == number32(behind(want, SUM)) as u64;
    sizes & sum & sizes_agree(kind, s, loc, c)
}

// Puts a piece so many times, and says where the last ends.
fn put_often(token: &mut [u8], at: usize, piece: &[u8], times: usize) -> usize {
    let mut to = at;
    for _ in 0..times {
        to = put_all(token, to, piece);
    }
    to
}

// Puts a token together, and says how long it is.
fn made(token: &mut [u8], head: &[u8], piece: &[u8], times: usize, tail: &[u8]) -> usize {
    let a = put_all(token, 0, head);
    let b = put_often(token, a, piece, times);
    put_all(token, b, tail)
}

// The first case of v.
fn case_agrees(records: &mut [u32], texts: &mut [u8], v: &[u8]) -> bool {
    let kind = byte(nth_field(v, 0), 0) as u32;
    let often = number(nth_field(v, 3)) as usize;
    let mut token = [0u8; TOKEN];
    let n = made(
        &mut token,
        nth_field(v, 1),
        nth_field(v, 2),
        often,
        nth_field(v, 4),
    );
    if n < LARGE {
        return false;
    }
    let s = front(&token, n);
    at_places(
        |loc, want| agrees_at(records, texts, kind, s, loc, want),
        nth_field(v, 5),
        nth_field(v, 6),
    )
}

// All cases of v.
pub fn replayed(records: &mut [u32], texts: &mut [u8], v: &[u8]) -> Agreement {
    let mut found = Agreement::default();
    for case in Cases::of(v, FIELDS) {
        found = found.with(case_agrees(records, texts, case));
    }
    found
}
