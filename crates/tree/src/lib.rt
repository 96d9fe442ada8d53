// The tree image: why an image is turned away, and the index of its tree.
#![tactic(auto)]

pub mod access;
mod bytes;
pub mod class;
mod clean;
pub mod index;
pub mod iter;
mod read;
mod reader;
mod refuse;

ghost use Rattle.std.specs.Prelude.{◌≡◌};
ghost use Rattle.numbers.specs.Refusal.{number_of};
ghost use Rattle.tree.specs.Refusal.{refused_at};
ghost use Rattle.tree.specs.Answer.{found, said, answer, refused_by};
ghost use Rattle.tree.specs.Tree.{count_n, count_b};

pub use access::Tree;
use numbers::Element;
use numbers::refusal::{Reason, Refusal};
pub use read::{byte_count, element_count};

// How many elements and bytes of text an image has that passed the tests.
#[derive(Clone, Copy)]
pub struct Accepted {
    pub elements: u32,
    pub bytes: u32,
}

// A test finds no element that offends, or the first one is why the image is turned away.
fn none_offends(first: Option<Element>, reason: Reason) -> Result<(), Refusal>
    ensures { refused_by result ≡ refused_at (number_of reason) (found first) }
{
    match first {
        Some(element) => Err(Refusal { reason, element }),
        None => Ok(()),
    }
}

// What an image has that passed the tests.
fn passed(image: &[u8]) -> Accepted
    ensures { result ≡ record { elements = count_n image.now; bytes = count_b image.now } }
{
    Accepted {
        elements: read::element_count(image),
        bytes: read::byte_count(image),
    }
}

// What the tests 1 to 9 say of an image, each over the whole image before the next: why it is turned away, or how much it has.
// All but the first two are passed at once by an image in which no element offends.
#[tactic(auto, using(crate::proofs::Verdict::left, crate::proofs::Passing::measures), unfolding(crate::specs::Answer::answer, crate::specs::Refusal::refusal, crate::specs::Refusal::tests))]
pub fn refusal(image: &[u8]) -> Result<Accepted, Refusal>
    ensures { said result ≡ answer image.now }
{
    if refuse::wrong_length(image) {
        return Err(Refusal::from(Reason::WrongLength));
    }
    if refuse::out_of_limits(image) {
        return Err(Refusal::from(Reason::OutOfLimits));
    }
    if clean::is_clean(image) {
        return Ok(passed(image));
    }
    none_offends(refuse::first_unknown(image), Reason::UnknownKind)?;
    none_offends(refuse::first_misplaced(image), Reason::Misplaced)?;
    none_offends(refuse::wrong_sizes(image), Reason::WrongSize)?;
    none_offends(refuse::first_not_utf8(image), Reason::NotUtf8)?;
    none_offends(refuse::first_string_block(image), Reason::StringBlock)?;
    none_offends(refuse::first_misformed(image), Reason::Misformed)?;
    none_offends(refuse::first_nameless(image), Reason::Nameless)?;
    Ok(passed(image))
}
