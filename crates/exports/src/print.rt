// The calls from a tree image to print items and to their listing.
ghost use Rattle.std.specs.Prelude.{◌≡◌};
ghost use Rattle.std.proofs.Math.Option.{none};
ghost use Rattle.std.proofs.lemmas.List.Edits.{sets};
ghost use Rattle.formatter.specs.Calls.{answer_in, records_in, texts_in, listing_in, listed};
ghost use Rattle.formatter.specs.Reply.{refused_for, reply, reply_listed};
ghost use Rattle.numbers.specs.Mode.{mode_of};
ghost use Rattle.exports.specs.Print.{by_mode, unknown_mode, number, values, values_listed, Reports};

use formatter::Listed;
use items::Count;
use numbers::mode::Mode;
use numbers::refusal::Refusal;

// The answer to a number that no mode has; no refusal has this one.
const UNKNOWN_MODE: u32 = 254;

// A refusal of document 01 with its element, or 0 with the counts and the bytes of the listing.
#[derive(Clone, Copy)]
struct Report {
    number: u32,
    counts: Count,
    bytes: usize,
    element: u32,
}

// A refusal, with no counts.
impl From<Refusal> for Report {
    ghost from_gives = { λ f r. Reports r (refused_for f) };

    fn from(f: Refusal) -> Report {
        let reason = f.reason;
        Report {
            number: u32::from(reason),
            counts: Count {
                records: 0,
                texts: 0,
                runs: 0,
                marks: 0,
            },
            bytes: 0,
            element: f.element.0,
        }
    }
}

// What a printing answers.
impl From<Result<Count, Refusal>> for Report {
    ghost from_gives = { λ a r. Reports r (reply a) };

    fn from(a: Result<Count, Refusal>) -> Report {
        match a {
            Ok(counts) => Report {
                number: 0,
                counts,
                bytes: 0,
                element: 0,
            },
            Err(f) => Report::from(f),
        }
    }
}

// What a printing with its listing answers.
impl From<Result<Listed, Refusal>> for Report {
    ghost from_gives = { λ a r. Reports r (reply_listed a) };

    fn from(a: Result<Listed, Refusal>) -> Report {
        match a {
            Ok(listed) => Report {
                number: 0,
                counts: listed.counts,
                bytes: listed.bytes,
                element: 0,
            },
            Err(f) => Report::from(f),
        }
    }
}

// The records of a tree image in the mode with a number, with the four counts and 0; or the number of a refusal, with four times 0 and
// its element. For a number that no mode has nothing is written.
pub fn tungvesk_print(
    image: &[u8],
    mode: u32,
    records: &mut [u32],
    texts: &mut [u8],
    counts: &mut [u64; 5],
) -> u32
    ensures value { result ≡ by_mode (mode_of mode) unknown_mode (λ m. number (answer_in image m records texts none)) }
    ensures counts_after { counts.new ≡ by_mode (mode_of mode) counts.old (λ m. sets counts.old 0 (values (answer_in image m records texts none))) }
    ensures records_after { records.new ≡ by_mode (mode_of mode) records.old (λ m. records_in image m records texts none) }
    ensures texts_after { texts.new ≡ by_mode (mode_of mode) texts.old (λ m. texts_in image m records texts none) }
{
    let Ok(m) = Mode::try_from(mode) else {
        return UNKNOWN_MODE;
    };
    let r = Report::from(formatter::print_items(image, m, records, texts));
    counts[0] = r.counts.records as u64;
    counts[1] = r.counts.texts as u64;
    counts[2] = r.counts.runs as u64;
    counts[3] = r.counts.marks as u64;
    counts[4] = r.element as u64;
    r.number
}

// The same with the listing, whose length stands behind the four counts.
pub fn tungvesk_list(
    image: &[u8],
    mode: u32,
    records: &mut [u32],
    texts: &mut [u8],
    listing: &mut [u8],
    counts: &mut [u64; 6],
) -> u32
    ensures value { result ≡ by_mode (mode_of mode) unknown_mode (λ m. number (answer_in image m records texts (listed listing))) }
    ensures counts_after { counts.new ≡ by_mode (mode_of mode) counts.old (λ m. sets counts.old 0 (values_listed (answer_in image m records texts (listed listing)))) }
    ensures records_after { records.new ≡ by_mode (mode_of mode) records.old (λ m. records_in image m records texts (listed listing)) }
    ensures texts_after { texts.new ≡ by_mode (mode_of mode) texts.old (λ m. texts_in image m records texts (listed listing)) }
    ensures listing_after { listing.new ≡ by_mode (mode_of mode) listing.old (λ m. listing_in image m records texts listing) }
{
    let Ok(m) = Mode::try_from(mode) else {
        return UNKNOWN_MODE;
    };
    let l = Report::from(formatter::list_items(image, m, records, texts, listing));
    counts[0] = l.counts.records as u64;
    counts[1] = l.counts.texts as u64;
    counts[2] = l.counts.runs as u64;
    counts[3] = l.counts.marks as u64;
    counts[4] = l.bytes as u64;
    counts[5] = l.element as u64;
    l.number
}
