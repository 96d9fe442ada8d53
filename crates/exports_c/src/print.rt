// The calls from a tree image to print items and to their listing.
ghost use Rattle.std.specs.Prelude.{◌≡◌};
ghost use Rattle.std.proofs.Math.Option.{none};
ghost use Rattle.std.proofs.lemmas.List.Edits.{sets};
ghost use Rattle.formatter.specs.Calls.{answer_in, records_in, texts_in, listing_in, listed};
ghost use Rattle.numbers.specs.Mode.{mode_of};
ghost use Rattle.exports.specs.Print.{by_mode, unknown_mode, number, values, values_listed};

use exports::print;

// The records of a tree image in the mode with a number, with the four counts and 0; or the number of a refusal, with four times 0 and
// its element. For a number that no mode has nothing is written.
#[unsafe(no_mangle)]
pub extern "C" fn tungvesk_print(
    image: &[u8],
    mode: u32,
    records: &mut [u32],
    texts: &mut [u8],
    counts: &mut [u64; 5],
) -> u32
    ensures value { result ≡ by_mode (mode_of mode) unknown_mode (λ m. number (answer_in image m records texts none)) }
    ensures counts_after { counts.new ≡ by_mode (mode_of mode) counts.old (λ m. sets counts.old 0 (values (answer_in image m records texts none))) }
    ensures records_after { records.new ≡ by_mode (mode_of mode) records.old (λ m. records_in image m records texts none) }
    ensures texts_after { texts.new ≡ by_mode (mode_of mode) texts.old (λ m. texts_in image m records texts none) }
{
    print::tungvesk_print(image, mode, records, texts, counts)
}

// The same with the listing, whose length stands behind the four counts.
#[unsafe(no_mangle)]
pub extern "C" fn tungvesk_list(
    image: &[u8],
    mode: u32,
    records: &mut [u32],
    texts: &mut [u8],
    listing: &mut [u8],
    counts: &mut [u64; 6],
) -> u32
    ensures value { result ≡ by_mode (mode_of mode) unknown_mode (λ m. number (answer_in image m records texts (listed listing))) }
    ensures counts_after { counts.new ≡ by_mode (mode_of mode) counts.old (λ m. sets counts.old 0 (values_listed (answer_in image m records texts (listed listing)))) }
    ensures records_after { records.new ≡ by_mode (mode_of mode) records.old (λ m. records_in image m records texts (listed listing)) }
    ensures texts_after { texts.new ≡ by_mode (mode_of mode) texts.old (λ m. texts_in image m records texts (listed listing)) }
    ensures listing_after { listing.new ≡ by_mode (mode_of mode) listing.old (λ m. listing_in image m records texts listing) }
{
    print::tungvesk_list(image, mode, records, texts, listing, counts)
}
