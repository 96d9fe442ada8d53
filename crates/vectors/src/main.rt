// Replays the images of data/vectors.bin and data/keeping.bin through what the program prints, those of the second in the keeping
// mode, and prints how many of the answers that each file has agree.
#![tactic(auto)]

ghost use Rattle.vectors.specs.Replies.{Replies};

use cases::{behind_long_field, front, line, load, long_field, zeros};
use formatter::program::respond;
use numbers::mode::Mode;
use std::io::Result;

// Room for the file.
const FILE: usize = 524_288;

// Room for what is printed of an image.
const REPLY: usize = 65_536;

// An answer is counted by its number: 0 for a listing, that of a refusal, and one that no refusal has if it is not the one in the
// file.
const LISTED: usize = 0;

const REFUSALS: usize = 13;

const DIFFERENT: usize = 255;

const ANSWERS: usize = 256;

// The number of the answer for an image in a mode, if it is the expected one byte for byte.
fn replied(image: &[u8], mode: Mode, want: &[u8]) -> usize
    ensures { Replies mode image.now want.now result }
{
    let mut out = [0u8; REPLY];
    let r = respond(image, mode, &mut out);
    let n = r.bytes;
    if &out[..n] != want {
        return DIFFERENT;
    }
    match r.refused {
        None => LISTED,
        Some(reason) => u32::from(reason) as usize,
    }
}

fn count(counts: &mut [u64], k: usize) {
    if k < counts.len() {
        counts[k] = std::num::wrapping_add_u64(counts[k], 1);
    }
}

// Counts the answers for all images of a file in a mode, and says how many images there are.
fn replay(v: &[u8], mode: Mode, counts: &mut [u64]) -> u64 {
    let mut images: u64 = 0;
    let mut rest = v;
    while 0 < rest.len() {
        let want = behind_long_field(rest);
        count(counts, replied(long_field(rest), mode, long_field(want)));
        images = std::num::wrapping_add_u64(images, 1);
        let next = behind_long_field(want);
        rest = next;
    }
    images
}

fn counted(counts: &[u64], k: usize) -> u64 {
    if k < counts.len() { counts[k] } else { 0 }
}

fn report_refusal(rt: &impl Print, k: usize, n: u64) -> Result<()> {
    print!(rt; "refused {k}")?;
    line(rt, b"", n)
}

// Prints a line for each number of a refusal.
fn report_refusals(rt: &impl Print, counts: &[u64]) -> Result<()> {
    for k in 1..=REFUSALS {
        report_refusal(rt, k, counted(counts, k))?;
    }
    Ok(())
}

// Replays the images of a file in a mode, and reports.
fn report(rt: &impl Print, v: &[u8], mode: Mode, title: &[u8]) -> Result<()> {
    let mut counts = [0u64; ANSWERS];
    line(rt, title, replay(v, mode, &mut counts))?;
    line(rt, b"listings", counted(&counts, LISTED))?;
    report_refusals(rt, &counts)?;
    line(rt, b"differ", counted(&counts, DIFFERENT))
}

fn main(rt: HostRuntime) -> Result<()> {
    let mut file = zeros::<FILE>();
    let n = load(&rt, "vectors.bin", &mut file)?;
    report(
        &rt,
        front(&file, n),
        Mode::Plain,
        b"images in the plain mode",
    )?;
    let k = load(&rt, "keeping.bin", &mut file)?;
    report(
        &rt,
        front(&file, k),
        Mode::Keeping,
        b"images in the keeping mode",
    )
}
