// Beginnings and ends of texts.
ghost use Rattle.std.specs.Prelude.{◌≡◌, ◌&&◌, eqb, length, take, drop};
ghost use Rattle.text.specs.Basic.{starts_with};
ghost use Rattle.text.specs.Text.{is_pad, padding, ends_with};

use crate::class::is_padding;

// A byte of the common padding, if all before it are.
fn is_common(x: u8, y: u8) -> bool
    ensures { result ≡ (eqb x y && is_pad x) }
{
    x == y && is_padding(x)
}

fn common_length(a: &[u8], b: &[u8]) -> usize
    ensures { result ≡ length (padding a.now b.now) }
{
    a.iter()
        .zip(b)
        .take_while(|(x, y)| is_common(**x, **y))
        .count()
}

// A part of the first text, never of the second: the longest common beginning that is made of padding.
pub fn common_ws_prefix<'a, 'b>(a: &'a [u8], b: &'b [u8]) -> &'a [u8]
    ensures { result.now ≡ padding a.now b.now }
{
    &a[..common_length(a, b)]
}

// The text begins with `t`.
pub fn starts_with(s: &[u8], t: &[u8]) -> bool
    ensures { result ≡ starts_with t.now s.now }
{
    s.starts_with(t)
}

// The text ends with `t`.
pub fn ends_with(s: &[u8], t: &[u8]) -> bool
    ensures { result ≡ ends_with t.now s.now }
{
    s.ends_with(t)
}

// What stands behind the first n bytes; nothing, where there are no more.
pub fn behind(s: &[u8], n: usize) -> &[u8]
    ensures { result.now ≡ drop n s.now }
{
    s.get(n..).unwrap_or(&[])
}

// The first n bytes, or all of them if there are fewer.
pub fn front(s: &[u8], n: usize) -> &[u8]
    ensures { result.now ≡ take n s.now }
{
    s.get(..n).unwrap_or(s)
}
