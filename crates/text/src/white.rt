// White space, by characters: Unicode's White_Space.
ghost use Rattle.std.specs.Prelude.{◌≡◌, [], ◌∷◌, ◌<◌, length};
ghost use Rattle.text.specs.Basic.{within};
ghost use Rattle.text.specs.Text.{is_white, trim_end, trim_start, trim};
ghost use Rattle.text.specs.Places.{FirstChar, LastChar};

use crate::class::is_white_byte;
use crate::utf8::{TAIL_HIGH, TAIL_LOW};

// A byte that continues a character.
fn is_tail(b: u8) -> bool
    ensures { result ≡ within 0x80 0xbf b }
{
    (TAIL_LOW..=TAIL_HIGH).contains(&b)
}

// A character of two bytes: U+0085, U+00A0.
fn is_white_pair(a: u8, b: u8) -> bool
    ensures { result ≡ is_white (a ∷ b ∷ []) }
{
    let k = u16::from_be_bytes([a, b]);
    (k == 0xc285) | (k == 0xc2a0)
}

// A character of three bytes: U+1680, U+2000 to U+200A, U+2028, U+2029, U+202F, U+205F, U+3000.
fn is_white_triple(a: u8, b: u8, c: u8) -> bool
    ensures { result ≡ is_white (a ∷ b ∷ c ∷ []) }
{
    let k = u32::from_be_bytes([0, a, b, c]);
    (k == 0xe19a80)
        | (0xe28080..=0xe2808a).contains(&k)
        | (k == 0xe280a8)
        | (k == 0xe280a9)
        | (k == 0xe280af)
        | (k == 0xe2819f)
        | (k == 0xe38080)
}

// The bytes are a character that is white space.
#[tactic(auto, using(crate::proofs::WhiteSpace::white_other))]
fn is_white(g: &[u8]) -> bool
    ensures { result ≡ is_white g.now }
{
    match g {
        [a] => is_white_byte(*a),
        [a, b] => is_white_pair(*a, *b),
        [a, b, c] => is_white_triple(*a, *b, *c),
        _ => false,
    }
}

// Where the first character of a text ends: behind its first byte and the tails that follow.
fn char_end(s: &[u8]) -> usize
    requires { 0 < length s.now }
    ensures { FirstChar s.now result }
{
    1 + s[1..].iter().take_while(|b| is_tail(**b)).count()
}

// Where the last character of a text begins: one byte in front of the tails at the end.
fn char_start(s: &[u8]) -> usize
    requires { 0 < length s.now }
    ensures { LastChar s.now result }
{
    let tails = s.iter().rev().take_while(|b| is_tail(**b)).count();
    s.len().saturating_sub(tails + 1)
}

// str::trim_end. An ASCII byte at the end is a character by itself.
pub fn trim_end(s: &[u8]) -> &[u8]
    ensures { result.now ≡ trim_end s.now }
{
    let mut rest = s;
    while let Some((b, before)) = rest.split_last() {
        if *b < TAIL_LOW {
            if !is_white_byte(*b) {
                break;
            }
            rest = before;
        } else {
            let (front, last) = rest.split_at(char_start(rest));
            if !is_white(last) {
                break;
            }
            rest = front;
        }
    }
    rest
}

// str::trim_start
fn trim_start(s: &[u8]) -> &[u8]
    ensures { result.now ≡ trim_start s.now }
{
    let mut rest = s;
    while !rest.is_empty() {
        let (first, behind) = rest.split_at(char_end(rest));
        if !is_white(first) {
            break;
        }
        rest = behind;
    }
    rest
}

// str::trim
pub fn trim(s: &[u8]) -> &[u8]
    ensures { result.now ≡ trim s.now }
{
    trim_start(trim_end(s))
}
