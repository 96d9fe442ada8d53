// The tests 3 to 9 in one pass over the elements. Nearly every image passes them; where one may not, the tests by themselves
// say why.
ghost use Rattle.std.specs.Prelude.{◌≡◌, true, false, cond, ◌&&◌, ◌||◌, ◌+◌, ◌≤◌, eqb, ltb, leb, length};
ghost use Rattle.std.proofs.Math.Option.{none};
ghost use Rattle.text.specs.Text.{valid};
ghost use Rattle.tree.specs.Image.{kind_in, level_in, size_in};
ghost use Rattle.tree.specs.Refusal.{wrong_length, out_of_limits, refusal};
ghost use Rattle.tree.specs.Clean.{Ascii, Sound, part};

use super::bytes::Header;
use super::read;
use super::read::COUNT;
use super::refuse::{MAX_LEVEL, is_misformed, is_unknown, nameless_at};
use numbers::kind;

// A text is valid UTF-8. Where all texts are ASCII, which was asked before, it is not read.
fn is_valid(ascii: bool, s: &[u8]) -> bool
    requires { ascii ≡ true → Ascii s.now }
    ensures { result ≡ true → valid s.now ≡ true }
{
    if ascii {
        return true;
    }
    if s.is_ascii() {
        return true;
    }
    text::is_utf8(s)
}

// An element of this kind with this text offends none of the tests 3 and 5 to 8.
fn is_sound(kind: u32, ascii: bool, s: &[u8]) -> bool
    requires { ascii ≡ true → Ascii s.now }
    ensures { result ≡ true → Sound (part kind s.now) }
{
    if is_unknown(kind) | (kind == kind::STRING_BLOCK) {
        return false;
    }
    if kind < kind::FIRST_TOKEN {
        return s.len() == 0;
    }
    if !is_valid(ascii, s) {
        return false;
    }
    !is_misformed(kind, s)
}

// The deepest level behind an element: its own if it is a token, else its children's.
fn deepest_behind(e: Header) -> u32
    ensures { result ≡ cond (leb 64 e.kind) e.level (e.level + 1) }
{
    let level = e.level as u32;
    if kind::FIRST_TOKEN <= e.kind {
        level
    } else {
        level + 1
    }
}

// An element is where no element may be; deepest is the deepest level behind the one before it.
fn is_misplaced(e: Header, deepest: u32) -> bool
    ensures { result ≡ (eqb e.kind 1 || (eqb e.level 0 || (ltb 200 e.level || ltb deepest e.level))) }
{
    let level = e.level as u32;
    (e.kind == kind::SOURCE_FILE) | ((level == 0) | ((MAX_LEVEL < level) | (deepest < level)))
}

// The first element is a SourceFile at level 0 with no text.
fn starts_right(image: &[u8]) -> bool
    requires { 12 ≤ length image.now }
    ensures { result ≡ (eqb (kind_in image.now 0) 1 && (eqb (level_in image.now 0) 0 && eqb (size_in image.now 0) 0)) }
{
    let e = read::element_in(image, 0);
    (e.kind == kind::SOURCE_FILE) & ((e.level == 0) & (e.size == 0))
}

// No element offends. Asked of an image that passed the tests 1 and 2.
#[tactic(auto, using(crate::proofs::Passing::measures))]
pub(crate) fn is_clean(image: &[u8]) -> bool
    requires length { wrong_length image.now ≡ false }
    requires limits { out_of_limits image.now ≡ false }
    ensures { result ≡ true → refusal image.now ≡ none }
{
    if !starts_right(image) {
        return false;
    }
    let n = read::count_in(image);
    let end = image.len();
    let mut at = read::place_of(n) + COUNT;
    let ascii = image[at..].is_ascii();
    let mut deepest = 1;
    for i in 1..n {
        let e = read::element_in(image, i);
        let size = e.size as usize;
        if is_misplaced(e, deepest) | (end - at < size) {
            return false;
        }
        let next = at + size;
        if !is_sound(e.kind, ascii, &image[at..next]) {
            return false;
        }
        if nameless_at(image, i) {
            return false;
        }
        deepest = deepest_behind(e);
        at = next;
    }
    at == end
}
