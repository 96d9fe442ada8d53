// Replays comment tokens that the original printed, at each of their three places, and prints how many agree.
#![tactic(auto)]

mod large;
mod replay;

ghost use Rattle.std.specs.Prelude.{◌≡◌, length};

use cases::{Agreement, front, line, load, zeros};
use std::io::Result;
use std::rt::Files;

// `TriviaKind` and `CustomErrorKind` in order.
const WHITESPACE: u32 = 64;

const MULTI_LINE_COMMENT: u32 = 65;

const ERROR_COMMENT_TOO_SHORT: u32 = 66;

const ERROR_COMMENT_UNTERMINATED: u32 = 67;

const SINGLE_LINE_HASH_COMMENT: u32 = 68;

const SINGLE_LINE_SLASH_COMMENT: u32 = 69;

const ERROR_MISSING_TOKEN: u32 = 70;

const ERROR_UNEXPECTED_TOKEN: u32 = 71;

const ERROR_CUSTOM: u32 = 72;

fn report(rt: &impl Print, label: &[u8], a: Agreement) -> Result<()> {
    a.print(rt, label)?;
    line(rt, b"  differ", a.seen.wrapping_sub(a.right))
}

// The kinds of tokens, by their names in what is printed.
fn replay_all(rt: &impl Print, records: &mut [u32], texts: &mut [u8], v: &[u8]) -> Result<()> {
    let kinds: [(u32, &[u8]); 9] = [
        (MULTI_LINE_COMMENT, b"multi-line comments"),
        (SINGLE_LINE_HASH_COMMENT, b"hash comments"),
        (SINGLE_LINE_SLASH_COMMENT, b"slash comments"),
        (WHITESPACE, b"white space"),
        (ERROR_COMMENT_TOO_SHORT, b"comments too short"),
        (ERROR_COMMENT_UNTERMINATED, b"comments not ended"),
        (ERROR_MISSING_TOKEN, b"missing tokens"),
        (ERROR_UNEXPECTED_TOKEN, b"unexpected tokens"),
        (ERROR_CUSTOM, b"custom errors"),
    ];
    for (kind, label) in kinds {
        report(rt, label, replay::replayed(records, texts, v, kind))?;
    }
    Ok(())
}

fn replay_vectors<R: Files + Print>(
    rt: &R,
    records: &mut [u32],
    texts: &mut [u8],
    file: &mut [u8],
) -> Result<()> {
    let n = load(rt, "vectors.bin", file)?;
    replay_all(rt, records, texts, front(file, n))
}

fn replay_large<R: Files + Print>(
    rt: &R,
    records: &mut [u32],
    texts: &mut [u8],
    file: &mut [u8],
) -> Result<()> {
    let n = load(rt, "large.bin", file)?;
    report(
        rt,
        b"large tokens",
        large::replayed(records, texts, front(file, n)),
    )
}

// Room for a file of vectors.
fn file_buffer() -> [u8; 393216]
    ensures { 393216 ≡ length result }
{
    zeros()
}

// So many words of zeros.
fn zero_words<const N: usize>() -> [u32; N]
    ensures { N ≡ length result }
{
    [0; N]
}

// Room for two records for each byte of a token of 32,000 bytes.
fn record_buffer() -> [u32; 196608]
    ensures { 196608 ≡ length result }
{
    zero_words()
}

// Room for four text bytes for each byte of a token of 32,000 bytes.
fn text_buffer() -> [u8; 131072]
    ensures { 131072 ≡ length result }
{
    zeros()
}

fn main(rt: HostRuntime) -> Result<()> {
    let mut records = record_buffer();
    let mut texts = text_buffer();
    let mut file = file_buffer();
    replay_vectors(&rt, &mut records, &mut texts, &mut file)?;
    replay_large(&rt, &mut records, &mut texts, &mut file)
}
