// Byte classes: what a single byte is in UTF-8, in padding and as white space.
// A table is laid out anew by each call that reads it, so padding and white space, which are ASCII, are found by comparing.
ghost use Rattle.std.specs.Prelude.{◌≡◌, [], ◌∷◌};
ghost use Rattle.text.specs.Text.{lead_length, class_of, is_pad, is_white};

// The class number of each byte: the length of the UTF-8 character that it leads (0 for a tail byte
// and for c0, c1 and f5 to ff, which lead nothing), 8 more for a padding byte, 16 more for white space.
const CLASSES: [u8; 256] = [
    1, 1, 1, 1, 1, 1, 1, 1, 1, 25, 25, 17, 25, 25, 1, 1, 1, 1, 1, 1, 1, 1, 1, 1, 1, 1, 1, 1, 1, 1,
    1, 1, 25, 1, 1, 1, 1, 1, 1, 1, 1, 1, 9, 1, 1, 1, 1, 1, 1, 1, 1, 1, 1, 1, 1, 1, 1, 1, 1, 1, 1,
    1, 1, 1, 1, 1, 1, 1, 1, 1, 1, 1, 1, 1, 1, 1, 1, 1, 1, 1, 1, 1, 1, 1, 1, 1, 1, 1, 1, 1, 1, 1, 1,
    1, 1, 1, 1, 1, 1, 1, 1, 1, 1, 1, 1, 1, 1, 1, 1, 1, 1, 1, 1, 1, 1, 1, 1, 1, 1, 1, 1, 1, 1, 1, 1,
    1, 1, 1, 0, 0, 0, 0, 0, 0, 0, 0, 0, 0, 0, 0, 0, 0, 0, 0, 0, 0, 0, 0, 0, 0, 0, 0, 0, 0, 0, 0, 0,
    0, 0, 0, 0, 0, 0, 0, 0, 0, 0, 0, 0, 0, 0, 0, 0, 0, 0, 0, 0, 0, 0, 0, 0, 0, 0, 0, 0, 0, 0, 0, 0,
    0, 0, 0, 0, 0, 2, 2, 2, 2, 2, 2, 2, 2, 2, 2, 2, 2, 2, 2, 2, 2, 2, 2, 2, 2, 2, 2, 2, 2, 2, 2, 2,
    2, 2, 2, 3, 3, 3, 3, 3, 3, 3, 3, 3, 3, 3, 3, 3, 3, 3, 3, 4, 4, 4, 4, 4, 0, 0, 0, 0, 0, 0, 0, 0,
    0, 0, 0,
];

pub fn class_of(b: u8) -> u8
    ensures { result ≡ class_of b }
{
    CLASSES[b as usize]
}

pub fn lead_length(b: u8) -> u8
    ensures { result ≡ lead_length b }
{
    class_of(b) % 8
}

const VERTICAL_TAB: u8 = 11;

const STAR: u8 = 42;

// The library's white space of ASCII has no vertical tab.
pub fn is_padding(b: u8) -> bool
    ensures { result ≡ is_pad b }
{
    b.is_ascii_whitespace() | (b == STAR)
}

// White space of one byte.
pub fn is_white_byte(b: u8) -> bool
    ensures { result ≡ is_white (b ∷ []) }
{
    b.is_ascii_whitespace() | (b == VERTICAL_TAB)
}
