// The functions of `exports` under their own names for programs in other languages: the static library over that crate.
#![tactic(auto)]

mod print;

ghost use Rattle.std.specs.Prelude.{◌≡◌};
ghost use Rattle.std.proofs.lemmas.List.Edits.{sets};
ghost use Rattle.tree.specs.Answer.{answer};
ghost use Rattle.exports.specs.Comment.{comment_in, records_of, texts_of, printed_of, code, counts_after};
ghost use Rattle.exports.specs.Refusal.{number, both_values};

// The records of a trivia token or a custom error, given its kind and its text, in a place.
#[unsafe(no_mangle)]
pub extern "C" fn tungvesk_comment(
    kind: u32,
    at: u32,
    s: &[u8],
    records: &mut [u32],
    texts: &mut [u8],
    counts: &mut [u32; 4],
) -> u32
    ensures value { result ≡ code (printed_of (comment_in records texts kind s at)) }
    ensures counts_after { counts.new ≡ counts_after counts.old (printed_of (comment_in records texts kind s at)) }
    ensures records_after { records.new ≡ records_of (comment_in records texts kind s at) }
    ensures texts_after { texts.new ≡ texts_of (comment_in records texts kind s at) }
{
    exports::tungvesk_comment(kind, at, s, records, texts, counts)
}

// What the tests 1 to 9 say of an image.
#[unsafe(no_mangle)]
pub extern "C" fn tungvesk_refusal(image: &[u8], values: &mut [u32; 2]) -> u32
    ensures value { result ≡ number (answer image.now) }
    ensures values_after { values.new ≡ sets values.old 0 (both_values (answer image.now)) }
{
    exports::tungvesk_refusal(image, values)
}
