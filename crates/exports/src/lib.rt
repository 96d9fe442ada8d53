// Functions for programs in other languages. `exports_c` hands them to C, and `oracle/crates/compare` calls them from Rust.
#![tactic(auto)]

pub mod print;

ghost use Rattle.std.specs.Prelude.{◌≡◌};
ghost use Rattle.comments.specs.Place.{place};
ghost use Rattle.std.proofs.lemmas.List.Edits.{sets};
ghost use Rattle.tree.specs.Answer.{said, answer};
ghost use Rattle.exports.specs.Comment.{location, comment_in, records_of, texts_of, printed_of, code, counts_after};
ghost use Rattle.exports.specs.Refusal.{number, both_values, Tells};

use comments::CommentLocation;
use items::{Output, Size, no_size};
use numbers::refusal::Refusal;
use tree::Accepted;

// The numbers of the places, for C; any other number is the last of them, after all items.
const ABOVE_ITEM: u32 = 0;

const ITEM_INLINE: u32 = 1;

// The answers.
const DONE: u32 = 0;

// A number no longer fits; no refusal has this one.
const FULL: u32 = 255;

// The place with a number.
fn location_of(n: u32) -> CommentLocation
    ensures { place result ≡ location n }
{
    match n {
        ABOVE_ITEM => CommentLocation::AboveItem,
        ITEM_INLINE => CommentLocation::ItemInline,
        _ => CommentLocation::EndOfItems,
    }
}

// Writes the four counts of a comment, which has no run and no mark, and gives the answer.
fn tell(counts: &mut [u32; 4], p: Option<Size>) -> u32
    ensures value { result ≡ code p }
    ensures counts_after { counts.new ≡ counts_after counts.old p }
{
    match p {
        Some(d) => {
            counts[0] = d.records;
            counts[1] = d.texts;
            counts[2] = 0;
            counts[3] = 0;
            DONE
        }
        None => FULL,
    }
}

// The records of a trivia token or a custom error, given its kind and its text, in a place.
pub fn tungvesk_comment(
    kind: u32,
    at: u32,
    s: &[u8],
    records: &mut [u32],
    texts: &mut [u8],
    counts: &mut [u32; 4],
) -> u32
    ensures value { result ≡ code (printed_of (comment_in records texts kind s at)) }
    ensures counts_after { counts.new ≡ counts_after counts.old (printed_of (comment_in records texts kind s at)) }
    ensures records_after { records.new ≡ records_of (comment_in records texts kind s at) }
    ensures texts_after { texts.new ≡ texts_of (comment_in records texts kind s at) }
{
    let loc = location_of(at);
    let mut out = Output::new(records, texts, Some(no_size(false)));
    comments::format_comment(&mut out, kind, s, loc);
    tell(counts, out.size())
}

// A refusal of document 01 with its element and 0, or 0 with N and B.
#[derive(Clone, Copy)]
struct Verdict(u32, u32, u32);

impl From<Result<Accepted, Refusal>> for Verdict {
    ghost from_gives = { λ t v. Tells v (said t) };

    #[tactic(auto, unfolding(crate::specs::Refusal::number, crate::specs::Refusal::first_value, crate::specs::Refusal::second_value))]
    fn from(t: Result<Accepted, Refusal>) -> Verdict {
        match t {
            Err(r) => Verdict(u32::from(r.reason), r.element.0, 0),
            Ok(a) => Verdict(0, a.elements, a.bytes),
        }
    }
}

// What the tests 1 to 9 say of an image.
pub fn tungvesk_refusal(image: &[u8], values: &mut [u32; 2]) -> u32
    ensures value { result ≡ number (answer image.now) }
    ensures values_after { values.new ≡ sets values.old 0 (both_values (answer image.now)) }
{
    let v = Verdict::from(tree::refusal(image));
    values[0] = v.1;
    values[1] = v.2;
    v.0
}
