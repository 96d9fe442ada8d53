// Parts of a slice, and numbers in it, the lowest byte first. Past the end every number is 0. The length of a part is said
// too, so that who takes one needs no law of lists.
ghost use Rattle.std.specs.Prelude.{◌≡◌, ◌-◌, min, length, take, drop, slice_index};
ghost use Rattle.cases.specs.Fields.{le16, le24, le32};

// The byte at a place, 0 past the end.
pub fn byte(s: &[u8], at: usize) -> u8
    ensures { result ≡ slice_index s.now at }
{
    s.get(at).copied().unwrap_or(0)
}

// The word at a place, 0 past the end: `byte` for another type, since no bound on a type says that its default is the number 0.
pub fn word(t: &[u32], at: usize) -> u32
    ensures { result ≡ slice_index t.now at }
{
    t.get(at).copied().unwrap_or(0)
}

// The first n bytes, or all of them if there are fewer.
pub fn front(s: &[u8], n: usize) -> &[u8]
    ensures value { result.now ≡ take n s.now }
    ensures len { length result.now ≡ min n (length s.now) }
{
    s.get(..n).unwrap_or(s)
}

// What stands behind the first n bytes.
pub fn behind(s: &[u8], n: usize) -> &[u8]
    ensures value { result.now ≡ drop n s.now }
    ensures len { length result.now ≡ length s.now - n }
{
    s.get(n..).unwrap_or(&s[..0])
}

// The number of the first two bytes.
pub fn number(s: &[u8]) -> u16
    ensures { result ≡ le16 s.now }
{
    u16::from_le_bytes([byte(s, 0), byte(s, 1)])
}

// The number of the first three bytes.
pub(crate) fn number24(s: &[u8]) -> u32
    ensures { result ≡ le24 s.now }
{
    u32::from_le_bytes([byte(s, 0), byte(s, 1), byte(s, 2), 0])
}

// The number of the first four bytes.
pub fn number32(s: &[u8]) -> u32
    ensures { result ≡ le32 s.now }
{
    u32::from_le_bytes([byte(s, 0), byte(s, 1), byte(s, 2), byte(s, 3)])
}
