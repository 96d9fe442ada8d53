// Why a tree is turned away.
ghost use Rattle.std.specs.Prelude.{◌≡◌};
ghost use Rattle.numbers.specs.Refusal.{number_of};

use super::Element;

// The reasons 1 to 13 of document 01 in order.
#[derive(Clone, Copy)]
pub enum Reason {
    WrongLength,
    OutOfLimits,
    UnknownKind,
    Misplaced,
    WrongSize,
    NotUtf8,
    StringBlock,
    Misformed,
    Nameless,
    Stopped,
    RecordsTooShort,
    TextsTooShort,
    ListingTooShort,
}

// A refusal: its reason, and the first offending element, 0 for a reason that names none.
#[derive(Clone, Copy)]
pub struct Refusal {
    pub reason: Reason,
    pub element: Element,
}

// A reason that names no element.
impl From<Reason> for Refusal {
    ghost from_gives = { λ reason r. r ≡ record { reason = reason; element = record { 0 = 0 } } };

    fn from(reason: Reason) -> Refusal {
        Refusal {
            reason,
            element: Element(0),
        }
    }
}

// The number of a reason.
impl From<Reason> for u32 {
    ghost from_gives = { λ reason n. n ≡ number_of reason };

    fn from(reason: Reason) -> u32 {
        match reason {
            Reason::WrongLength => 1,
            Reason::OutOfLimits => 2,
            Reason::UnknownKind => 3,
            Reason::Misplaced => 4,
            Reason::WrongSize => 5,
            Reason::NotUtf8 => 6,
            Reason::StringBlock => 7,
            Reason::Misformed => 8,
            Reason::Nameless => 9,
            Reason::Stopped => 10,
            Reason::RecordsTooShort => 11,
            Reason::TextsTooShort => 12,
            Reason::ListingTooShort => 13,
        }
    }
}
