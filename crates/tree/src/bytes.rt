// Numbers at a place of a slice. A byte past its end is 0; where the caller knows that there is none, nothing is tested.
ghost use Rattle.std.specs.Prelude.{◌≡◌, ◌+◌, ◌-◌, ◌<◌, ◌^◌, length, take, drop};
ghost use Rattle.tree.specs.Tree.{byte, le16, le32};
ghost use Rattle.tree.specs.Image.{header_at};

// Where level and length of an element stand behind its kind.
pub const LEVEL: usize = 2;

pub const LENGTH: usize = 4;

// The eight bytes of an element.
#[derive(Clone, Copy)]
pub struct Header {
    pub kind: u32,
    pub level: u16,
    pub size: u32,
}

fn byte_at(s: &[u8], i: usize) -> u8
    ensures { result ≡ byte s.now i }
{
    s.get(i).copied().unwrap_or(0)
}

// The little-endian number of the two bytes at i.
#[tactic(auto, unfolding(crate::specs::Tree::le16))]
fn u16_at(s: &[u8], i: usize) -> u16
    requires { i + 1 < 2 ^ 64 }
    ensures { result ≡ le16 s.now i }
{
    u16::from_le_bytes([byte_at(s, i), byte_at(s, i + 1)])
}

// The little-endian number of the four bytes at i.
#[tactic(auto, unfolding(crate::specs::Tree::le16, crate::specs::Tree::le32))]
fn u32_at(s: &[u8], i: usize) -> u32
    requires { i + 3 < 2 ^ 64 }
    ensures { result ≡ le32 s.now i }
{
    u32::from_le_bytes([
        byte_at(s, i),
        byte_at(s, i + 1),
        byte_at(s, i + 2),
        byte_at(s, i + 3),
    ])
}

// The number whose two bytes stand at a place.
pub fn short_at(s: &[u8], at: usize) -> u16
    ensures { result ≡ le16 s.now at }
{
    u16_at(text::behind(s, at), 0)
}

// The number whose four bytes stand at a place.
pub fn number_at(s: &[u8], at: usize) -> u32
    ensures { result ≡ le32 s.now at }
{
    u32_at(text::behind(s, at), 0)
}

// The element whose eight bytes stand at a place.
pub fn header_at(s: &[u8], at: usize) -> Header
    ensures { result ≡ header_at s.now at }
{
    let t = text::behind(s, at);
    Header {
        kind: u16_at(t, 0) as u32,
        level: u16_at(t, LEVEL),
        size: u32_at(t, LENGTH),
    }
}

// The number of two bytes that stand in s.
#[tactic(auto, unfolding(crate::specs::Tree::le16))]
pub(crate) fn short_in(s: &[u8], at: usize) -> u16
    requires { at + 1 < length s.now }
    ensures { result ≡ le16 s.now at }
{
    u16::from_le_bytes([s[at], s[at + 1]])
}

// The number of four bytes that stand in s.
#[tactic(auto, unfolding(crate::specs::Tree::le16, crate::specs::Tree::le32))]
pub(crate) fn number_in(s: &[u8], at: usize) -> u32
    requires { at + 3 < length s.now }
    ensures { result ≡ le32 s.now at }
{
    u32::from_le_bytes([s[at], s[at + 1], s[at + 2], s[at + 3]])
}

// The element whose eight bytes stand in s.
#[tactic(auto, unfolding(crate::specs::Image::header_at))]
pub(crate) fn header_in(s: &[u8], at: usize) -> Header
    requires { at + 7 < length s.now }
    ensures { result ≡ header_at s.now at }
{
    Header {
        kind: short_in(s, at) as u32,
        level: short_in(s, at + LEVEL),
        size: number_in(s, at + LENGTH),
    }
}
