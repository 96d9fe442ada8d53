// Counting answers, and lines of counts. No contract can say what is written to standard output.
ghost use Rattle.std.specs.Prelude.{◌≡◌, true};
ghost use Rattle.cases.specs.Tally.{more_if};

use std::io::Result;

// How many answers were compared, and how many were as expected.
#[derive(Clone, Copy)]
pub struct Agreement {
    pub seen: u64,
    pub right: u64,
}

// One more, if the test holds.
pub fn more(n: u64, holds: bool) -> u64
    ensures { result ≡ more_if n holds }
{
    if holds { n.wrapping_add(1) } else { n }
}

// One line: a label, a space and a number.
pub fn line(rt: &impl Print, label: &[u8], n: u64) -> Result<()> {
    rt.write_all(label)?;
    println!(rt; " {n}")
}

// Before the first answer.
impl Default for Agreement {
    ghost is_default = { λ a. a ≡ record { seen = 0; right = 0 } };

    fn default() -> Self {
        Agreement { seen: 0, right: 0 }
    }
}

impl Agreement {
    // One answer more.
    pub fn with(self, agrees: bool) -> Self
        ensures seen { result.seen ≡ more_if self.seen true }
        ensures right { result.right ≡ more_if self.right agrees }
    {
        Agreement {
            seen: more(self.seen, true),
            right: more(self.right, agrees),
        }
    }

    // Two lines: all answers, by their label, and those that agree.
    pub fn print(self, rt: &impl Print, label: &[u8]) -> Result<()> {
        line(rt, label, self.seen)?;
        line(rt, b"  agree", self.right)
    }
}
