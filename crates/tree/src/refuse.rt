// The tests 1 to 9. `first_where` walks the elements for all but the first two.
ghost use Rattle.std.specs.Prelude.{◌≡◌, ℕ, Bool, not, ◌&&◌, [], ◌+◌, ◌*◌, ◌<◌, ◌≤◌, suc, eqb, length, drop};
ghost use Rattle.text.specs.Basic.{sum};
ghost use Rattle.tree.specs.Tree;
ghost use Rattle.tree.specs.Tree.{count_n, elements_of};
ghost use Rattle.tree.specs.Image.{kind_in, level_in, start_in, element_in};
ghost use Rattle.tree.specs.Refusal.{wrong_length, out_of_limits, first_where, unknown_kind, misplaced, first_misplaced, first_number, misplaced_in, node_with_text, wrong_sizes, not_utf8, string_block, misformed, no_ident, first_nameless, misformed_block, nameless_in};
ghost use Rattle.tree.specs.Clean.{part};
ghost use Rattle.tree.specs.Answer.{found};

use super::read;
use super::read::COUNT;
use super::reader::Reader;
use numbers::{Element, kind};

const MAX_ELEMENTS: u32 = 4096;

const MAX_BYTES: u32 = 32000;

pub const MAX_LEVEL: u32 = 200;

// 1: the image is too short to read N or B, or its length is not 8 + 8N + B.
pub fn wrong_length(image: &[u8]) -> bool
    ensures { result ≡ wrong_length image.now }
{
    let end = read::place_of(read::element_count(image));
    let b = read::byte_count(image) as usize;
    let r = Reader::new(image);
    let no_count = r.left() < COUNT;
    let no_bytes = r.skip(end).left() < COUNT;
    no_count | (no_bytes | (r.skip(end + COUNT).left() != b))
}

// 2: N is 0 or above 4,096, or B is above 32,000.
#[tactic(auto, unfolding(crate::specs::Refusal::out_of_limits))]
pub fn out_of_limits(image: &[u8]) -> bool
    ensures { result ≡ out_of_limits image.now }
{
    let n = read::element_count(image);
    let b = read::byte_count(image);
    (n == 0) | ((MAX_ELEMENTS < n) | (MAX_BYTES < b))
}

// A kind is not in the tables.
#[tactic(auto, unfolding(crate::specs::Refusal::unknown_kind))]
pub fn is_unknown(k: u32) -> bool
    ensures { result ≡ unknown_kind (part k []) }
{
    let node = (kind::FIRST_NODE..=kind::LAST_NODE).contains(&k);
    let token = (kind::FIRST_TOKEN..=kind::LAST_TOKEN).contains(&k);
    !(node | token)
}

// The kind of element i is not in the tables.
#[tactic(auto, unfolding(crate::specs::Refusal::unknown_kind))]
fn unknown_kind_at(image: &[u8], i: u32) -> bool
    ensures { result ≡ unknown_kind (element_in image.now i) }
{
    is_unknown(read::kind_of(image, i))
}

// Element i, behind the element before, is where no element may be.
#[tactic(auto, unfolding(crate::specs::Refusal::misplaced))]
fn misplaced_at(image: &[u8], before: u32, i: u32) -> bool
    ensures { result ≡ misplaced (element_in image.now before) (element_in image.now i) }
{
    let e = read::element_of(image, i);
    let prior = read::element_of(image, before);
    let level = e.level as u32;
    let above = prior.level as u32;
    (e.kind == kind::SOURCE_FILE)
        | ((level == 0)
            | ((MAX_LEVEL < level)
                | ((above + 1 < level) | ((kind::FIRST_TOKEN <= prior.kind) & (above < level)))))
}

// The first element is not a SourceFile at level 0.
fn starts_wrong(image: &[u8]) -> bool
    ensures { result ≡ not (eqb (kind_in image.now 0) 1 && eqb (level_in image.now 0) 0) }
{
    let e = read::element_of(image, 0);
    !((e.kind == kind::SOURCE_FILE) & (e.level == 0))
}

// Element i is where it may not be.
fn misplaced_in(image: &[u8], i: u32) -> bool
    ensures { result ≡ misplaced_in image.now i }
{
    if i == 0 {
        return starts_wrong(image);
    }
    misplaced_at(image, i - 1, i)
}

// 4: the first element that is where it may not be.
pub fn first_misplaced(image: &[u8]) -> Option<Element>
    ensures { found result ≡ first_misplaced (elements_of image.now) }
{
    first_where(image, |i, _| misplaced_in(image, i))
}

// Element i is a node with a length other than 0.
#[tactic(auto, unfolding(crate::specs::Refusal::node_with_text))]
fn node_with_text_at(image: &[u8], i: u32) -> bool
    ensures { result ≡ node_with_text (element_in image.now i) }
{
    let e = read::element_of(image, i);
    !(kind::FIRST_TOKEN <= e.kind) & (e.size != 0)
}

// Element i is a token whose text is not valid UTF-8.
#[tactic(auto, unfolding(crate::specs::Refusal::not_utf8))]
fn not_utf8_at(image: &[u8], i: u32, at: usize) -> bool
    requires { at ≡ start_in image.now i }
    ensures { result ≡ not_utf8 (element_in image.now i) }
{
    if read::kind_of(image, i) < kind::FIRST_TOKEN {
        return false;
    }
    !text::is_utf8(read::text_of(image, i, at))
}

// Element i is a string block.
#[tactic(auto, unfolding(crate::specs::Refusal::string_block))]
fn string_block_at(image: &[u8], i: u32) -> bool
    ensures { result ≡ string_block (element_in image.now i) }
{
    read::kind_of(image, i) == kind::STRING_BLOCK
}

// A multi-line comment is shorter than 4 bytes or lacks its opening or its end.
fn misformed_multi_line(s: &[u8]) -> bool
    ensures { result ≡ misformed_block s.now }
{
    let opened = text::starts_with(s, b"/*");
    let closed = text::ends_with(s, b"*/");
    (s.len() < 4) | (!opened | !closed)
}

// An element of this kind with this text is a misformed comment.
pub fn is_misformed(k: u32, s: &[u8]) -> bool
    ensures { result ≡ misformed (part k s.now) }
{
    if k == kind::SINGLE_LINE_HASH_COMMENT {
        return !text::starts_with(s, b"#");
    }
    if k == kind::SINGLE_LINE_SLASH_COMMENT {
        return !text::starts_with(s, b"//");
    }
    if k == kind::MULTI_LINE_COMMENT {
        return misformed_multi_line(s);
    }
    false
}

// Element i is a misformed comment.
#[tactic(auto, unfolding(crate::specs::Refusal::misformed))]
fn misformed_at(image: &[u8], i: u32, at: usize) -> bool
    requires { at ≡ start_in image.now i }
    ensures { result ≡ misformed (element_in image.now i) }
{
    let k = read::kind_of(image, i);
    is_misformed(k, read::text_of(image, i, at))
}

// The first element that offends. A test is told an element's number, and where its text starts in the texts.
fn first_where<F: Fn(u32, usize) -> bool>(image: &[u8], offends: F) -> Option<Element>
    ghost test: { ℕ → Bool }
    requires asked { (i at : ℕ) → i < count_n image.now → at ≡ start_in image.now i → F.pre offends i at }
    requires told { (i at : ℕ) (r : Bool) → i < count_n image.now → at ≡ start_in image.now i → F.post offends i at r → r ≡ test i }
    ensures { found result ≡ first_number test 0 (count_n image.now) }
{
    let mut at: usize = 0;
    for i in 0..read::element_count(image) {
        if offends(i, at) {
            return Some(Element(i));
        }
        at += read::size_of(image, i) as usize;
    }
    None
}

// 3: the first element of a kind that is not in the tables.
pub fn first_unknown(image: &[u8]) -> Option<Element>
    ensures { found result ≡ first_where unknown_kind (elements_of image.now) }
{
    first_where(image, |i, _| unknown_kind_at(image, i))
}

// 5: the first node with a length other than 0.
fn first_node_with_text(image: &[u8]) -> Option<Element>
    ensures { found result ≡ first_where node_with_text (elements_of image.now) }
{
    first_where(image, |i, _| node_with_text_at(image, i))
}

// 6: the first token whose text is not valid UTF-8.
pub fn first_not_utf8(image: &[u8]) -> Option<Element>
    ensures { found result ≡ first_where not_utf8 (elements_of image.now) }
{
    first_where(image, |i, at| not_utf8_at(image, i, at))
}

// 7: the first string block.
pub fn first_string_block(image: &[u8]) -> Option<Element>
    ensures { found result ≡ first_where string_block (elements_of image.now) }
{
    first_where(image, |i, _| string_block_at(image, i))
}

// 8: the first misformed comment.
pub fn first_misformed(image: &[u8]) -> Option<Element>
    ensures { found result ≡ first_where misformed (elements_of image.now) }
{
    first_where(image, |i, at| misformed_at(image, i, at))
}

// 5: the sum of the lengths.
fn sum_of_sizes(image: &[u8]) -> usize
    ensures { result ≡ sum (λ (e : Tree.Element). e.size) (elements_of image.now) }
{
    let mut total: usize = 0;
    for i in 0..read::element_count(image) {
        total += read::size_of(image, i) as usize;
    }
    total
}

// 5: the first node with a length other than 0, or else N where the lengths do not add up to B.
pub fn wrong_sizes(image: &[u8]) -> Option<Element>
    ensures { found result ≡ wrong_sizes image.now (elements_of image.now) }
{
    let node = first_node_with_text(image);
    if node.is_some() {
        return node;
    }
    if sum_of_sizes(image) == read::byte_count(image) as usize {
        return None;
    }
    let n = read::element_count(image);
    Some(Element(n))
}

// Element i is an identifier at the level below a Name's.
fn ident_under(image: &[u8], name: u16, i: u32) -> bool
    requires { 12 + 8 * i ≤ length image.now }
    ensures { result ≡ (eqb (level_in image.now i) (name + 1) && eqb (kind_in image.now i) 90) }
{
    (read::level_in(image, i) as u32 == name as u32 + 1) & (read::kind_in(image, i) == kind::IDENT)
}

// No direct child of element i is an identifier. Walks the subtree of i at most: the walks for all Names take no
// more than a step for each element and each level, of which there are 200 after test 4.
fn lacks_ident(image: &[u8], i: u32) -> bool
    requires within { i < count_n image.now }
    requires headers { 8 + 8 * count_n image.now ≤ length image.now }
    ensures { result ≡ no_ident (suc (level_in image.now i)) (drop (i + 1) (elements_of image.now)) }
{
    let n = read::count_in(image);
    let name = read::level_in(image, i);
    for j in i + 1..n {
        if read::level_in(image, j) <= name {
            return true;
        }
        if ident_under(image, name, j) {
            return false;
        }
    }
    true
}

// Element i is a Name without an identifier.
pub(crate) fn nameless_at(image: &[u8], i: u32) -> bool
    requires within { i < count_n image.now }
    requires headers { 8 + 8 * count_n image.now ≤ length image.now }
    ensures { result ≡ nameless_in image.now i }
{
    if read::kind_in(image, i) != kind::NAME {
        return false;
    }
    lacks_ident(image, i)
}

// 9: the first Name without an identifier.
pub(crate) fn first_nameless(image: &[u8]) -> Option<Element>
    requires { 8 + 8 * count_n image.now ≤ length image.now }
    ensures { found result ≡ first_nameless (elements_of image.now) }
{
    first_where(image, |i, _| nameless_at(image, i))
}
