// In which mode a tree is printed.
ghost use Rattle.std.specs.Prelude.{◌≡◌};
ghost use Rattle.numbers.specs.Mode.{mode_number, Chooses};

// Plain: as the Rust prints. Keeping: with the comments around the statements of an expression.
#[derive(Clone, Copy, PartialEq, Eq)]
pub enum Mode {
    Plain,
    Keeping,
}

// Their numbers.
pub const PLAIN: u32 = 0;

pub const KEEPING: u32 = 1;

// A number that no mode has.
#[derive(Clone, Copy)]
pub struct UnknownMode(pub u32);

impl From<Mode> for u32 {
    ghost from_gives = { λ mode n. n ≡ mode_number mode };

    fn from(mode: Mode) -> u32 {
        match mode {
            Mode::Plain => PLAIN,
            Mode::Keeping => KEEPING,
        }
    }
}

impl TryFrom<u32> for Mode {
    type Error = UnknownMode;

    ghost try_from_gives = { Chooses };

    fn try_from(n: u32) -> Result<Self, UnknownMode> {
        match n {
            PLAIN => Ok(Mode::Plain),
            KEEPING => Ok(Mode::Keeping),
            _ => Err(UnknownMode(n)),
        }
    }
}
