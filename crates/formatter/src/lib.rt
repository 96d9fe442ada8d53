// The calls from a tree image to print items and to their listing.
#![tactic(auto)]

pub mod program;
mod serve;

ghost use Rattle.std.specs.Prelude.{◌≡◌};
ghost use Rattle.std.proofs.Math.Option.{none};
ghost use Rattle.formatter.specs.Reply.{reply, reply_listed};
ghost use Rattle.formatter.specs.Calls.{answer_in, records_in, texts_in, listing_in, listed, AnsweredIn, ReadBackIn};

use items::Count;
use numbers::mode::Mode;
use numbers::refusal::Refusal;
use serve::{Buffers, Wanted, serve};

// The counts of what was printed, and the bytes of its listing.
#[derive(Clone, Copy)]
pub struct Listed {
    pub counts: Count,
    pub bytes: usize,
}

// Prints the source file of a tree image in a mode into the lent buffers and gives the counts, or says why the tree is turned away and leaves
// the buffers as they are.
pub fn print_items(
    image: &[u8],
    mode: Mode,
    records: &mut [u32],
    texts: &mut [u8],
) -> Result<Count, Refusal>
    ensures value { reply result ≡ answer_in image mode records texts none }
    ensures records_after { records.new ≡ records_in image mode records texts none }
    ensures texts_after { texts.new ≡ texts_in image mode records texts none }
    ensures answered { AnsweredIn image mode records texts (reply result) }
{
    let mut unasked = [0u8; 0];
    let mut buffers = Buffers::new(records, texts, &mut unasked);
    let wanted = Wanted {
        mode,
        listed: false,
    };
    let done = serve(image, &mut buffers, wanted)?;
    Ok(done.counts)
}

// The same, and writes the listing of what was printed into a third buffer.
pub fn list_items(
    image: &[u8],
    mode: Mode,
    records: &mut [u32],
    texts: &mut [u8],
    listing: &mut [u8],
) -> Result<Listed, Refusal>
    ensures value { reply_listed result ≡ answer_in image mode records texts (listed listing) }
    ensures records_after { records.new ≡ records_in image mode records texts (listed listing) }
    ensures texts_after { texts.new ≡ texts_in image mode records texts (listed listing) }
    ensures listing_after { listing.new ≡ listing_in image mode records texts listing }
    ensures read_back { ReadBackIn records texts listing (reply_listed result) }
    ensures answered { AnsweredIn image mode records texts (reply_listed result) }
{
    let mut buffers = Buffers::new(records, texts, listing);
    let wanted = Wanted { mode, listed: true };
    serve(image, &mut buffers, wanted)
}
