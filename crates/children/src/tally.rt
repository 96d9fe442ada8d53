// What a gap holds, counted while it is walked.
ghost use Rattle.std.specs.Prelude.{◌≡◌, ◌+◌, ◌<◌, ◌^◌};
ghost use Rattle.children.specs.Tally.{counted};

use super::turn::{is_error, is_single_line, is_trivia};
use numbers::kind::WHITESPACE;

// What a gap holds so far: the newlines of what waits; those of its inline trivia, from behind; whether anything waits;
// whether trivia waits that is no whitespace, behind which no newline counts; and whether there is anything but whitespace.
#[derive(Clone, Copy)]
pub struct Tally {
    pub before: usize,
    pub back: usize,
    pub waits: bool,
    pub ended: bool,
    pub noted: bool,
}

impl Tally {
    // A gap before its first element.
    pub(crate) const NOTHING: Self = Tally {
        before: 0,
        back: 0,
        waits: false,
        ended: false,
        noted: false,
    };

    // One element more, of kind k and with f line feeds, 0 if it is no whitespace: before the cut, if the cut goes on with it, else
    // behind. What is neither trivia nor a custom error counts nothing.
    pub(crate) fn with(self, k: u32, f: usize, follows: bool) -> Self
        requires fits { self.before + self.back + f + 2 < 2 ^ 64 }
        requires space { (k ≡ 64 → ⊥) → f ≡ 0 }
        ensures { result ≡ counted follows k f self }
    {
        let error = is_error(k);
        let trivia = is_trivia(k);
        if !error & !trivia {
            return self;
        }
        let comment = trivia & (k != WHITESPACE);
        let feeds = if follows { 0 } else { f };
        let newlines = feeds + usize::from(error);
        let inline = if is_single_line(k) { 1 } else { f + self.back };
        Tally {
            before: self.before + if self.ended { 0 } else { newlines },
            back: if follows { inline } else { self.back },
            waits: self.waits | error | (trivia & !follows),
            ended: self.ended | (comment & !follows),
            noted: self.noted | error | comment,
        }
    }
}
