// Writes four listings: that of `[1]`, as the scope paper has it, one with every kind of record, one of a text with every byte, and the
// beginning of the first in a short buffer.
#![tactic(auto)]

ghost use Rattle.listing.specs.Listable.{Listable};

use cases::front;
use items::{Count, TEXT};
use std::io::Result;

// The records of `[1]`.
const RECORDS: [u32; 84] = [
    1, 0, 1, 7, 0, 0, 15, 1, 0, 10, 0, 0, 2, 0, 0, 12, 0, 0, 8, 0, 0, 8, 0, 0, 1, 1, 1, 15, 1, 0,
    1, 2, 1, 17, 0, 0, 15, 1, 0, 2, 0, 0, 16, 0, 0, 3, 0, 0, 17, 0, 0, 9, 0, 0, 9, 0, 0, 13, 0, 0,
    11, 0, 0, 16, 0, 0, 1, 3, 1, 14, 0, 0, 17, 0, 0, 1, 4, 1, 7, 1, 0, 2, 0, 0,
];

// Their texts, `[1, ]`.
const TEXTS: [u8; 5] = [91, 49, 44, 32, 93];

// Records of every kind, with small and large numbers, an empty text and one of twelve bytes.
const EVERY_KIND: [u32; 57] = [
    1, 0, 0, 2, 0, 0, 3, 0, 0, 4, 0, 0, 5, 0, 0, 6, 0, 0, 7, 4294967295, 0, 8, 0, 0, 9, 0, 0, 10,
    0, 0, 11, 0, 0, 12, 9, 0, 13, 10, 0, 14, 99, 0, 15, 0, 0, 15, 1, 1000000000, 16, 0, 0, 17, 0,
    0, 1, 0, 12,
];

// Their texts, `twelve bytes`.
const TWELVE: [u8; 12] = [116, 119, 101, 108, 118, 101, 32, 98, 121, 116, 101, 115];

// How many bytes there are.
const BYTES: usize = 256;

// The bytes of the lines of each.
const LINES: u32 = 310;

const EVERY_LINES: u32 = 236;

const BYTES_LINES: u32 = 370;

// Room for a listing.
const LISTING: usize = 4096;

// Writes a whole listing, whose lines have so many bytes.
fn print_listing(rt: &impl Print, records: &[u32], texts: &[u8], c: Count, lines: u32) -> Result<()>
    requires { Listable records.now texts.now c }
{
    let n = listing::listing_length(c, lines);
    let mut out = [0u8; LISTING];
    listing::write_listing(records, texts, c, &mut out);
    rt.write_all(front(&out, n))
}

// Writes the listing of a text of every byte, in order.
fn print_bytes(rt: &impl Print) -> Result<()> {
    let mut text = [0u8; BYTES];
    for b in 0..BYTES {
        text[b] = b as u8;
    }
    let c = Count {
        records: 1,
        texts: BYTES as u32,
        runs: 0,
        marks: 0,
    };
    print_listing(rt, &[TEXT, 0, BYTES as u32], &text, c, BYTES_LINES)
}

// Writes as much of a listing as 40 bytes take.
fn print_beginning(rt: &impl Print, records: &[u32], texts: &[u8], c: Count) -> Result<()>
    requires { Listable records.now texts.now c }
{
    let mut out = [0u8; 40];
    listing::write_listing(records, texts, c, &mut out);
    rt.write_all(&out)
}

fn main(rt: HostRuntime) -> Result<()> {
    let records = RECORDS;
    let texts = TEXTS;
    let c = Count {
        records: 28,
        texts: 5,
        runs: 1,
        marks: 2,
    };
    print_listing(&rt, &records, &texts, c, LINES)?;
    let every = EVERY_KIND;
    let twelve = TWELVE;
    let d = Count {
        records: 19,
        texts: 12,
        runs: 1,
        marks: 1,
    };
    print_listing(&rt, &every, &twelve, d, EVERY_LINES)?;
    print_bytes(&rt)?;
    print_beginning(&rt, &records, &texts, c)
}
