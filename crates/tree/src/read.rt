// An image's counts, elements and texts, each read at its place. Those that end in `in` ask that it stands in the image, and
// test nothing.
ghost use Rattle.std.specs.Prelude.{◌≡◌, ◌+◌, ◌*◌, ◌≤◌, length};
ghost use Rattle.tree.specs.Tree.{count_n, count_b, texts_of};
ghost use Rattle.tree.specs.Image.{kind_in, level_in, size_in, start_in, text_in};

use super::bytes;
use super::bytes::{Header, LENGTH, LEVEL};
use super::reader::Reader;

// How many bytes N and B have. N stands at the start.
pub const COUNT: usize = 4;

const ELEMENT: usize = 8;

// Where element i stands: behind N and the elements before it.
pub fn place_of(i: u32) -> usize
    ensures { result ≡ 4 + 8 * i }
{
    COUNT + ELEMENT * (i as usize)
}

// N.
#[tactic(auto, unfolding(crate::specs::Tree::count_n))]
pub fn element_count(image: &[u8]) -> u32
    ensures { result ≡ count_n image.now }
{
    Reader::new(image).read_u32()
}

// B, which stands behind the last element.
#[tactic(auto, unfolding(crate::specs::Tree::count_b))]
pub fn byte_count(image: &[u8]) -> u32
    ensures { result ≡ count_b image.now }
{
    let n = element_count(image);
    Reader::new(image).skip(place_of(n)).read_u32()
}

// Element i.
pub fn element_of(image: &[u8], i: u32) -> Header
    ensures { result ≡ record { kind = kind_in image.now i; level = level_in image.now i; size = size_in image.now i } }
{
    Reader::new(image).skip(place_of(i)).read_element()
}

#[tactic(auto, unfolding(crate::specs::Image::kind_in))]
pub fn kind_of(image: &[u8], i: u32) -> u32
    ensures { result ≡ kind_in image.now i }
{
    u32::from(Reader::new(image).skip(place_of(i)).read_u16())
}

pub fn size_of(image: &[u8], i: u32) -> u32
    ensures { result ≡ size_in image.now i }
{
    Reader::new(image).skip(place_of(i) + LENGTH).read_u32()
}

// N.
#[tactic(auto, unfolding(crate::specs::Tree::count_n))]
pub(crate) fn count_in(image: &[u8]) -> u32
    requires { 4 ≤ length image.now }
    ensures { result ≡ count_n image.now }
{
    bytes::number_in(image, 0)
}

// Element i.
pub(crate) fn element_in(image: &[u8], i: u32) -> Header
    requires { 12 + 8 * i ≤ length image.now }
    ensures { result ≡ record { kind = kind_in image.now i; level = level_in image.now i; size = size_in image.now i } }
{
    bytes::header_in(image, place_of(i))
}

#[tactic(auto, unfolding(crate::specs::Image::kind_in))]
pub(crate) fn kind_in(image: &[u8], i: u32) -> u32
    requires { 12 + 8 * i ≤ length image.now }
    ensures { result ≡ kind_in image.now i }
{
    u32::from(bytes::short_in(image, place_of(i)))
}

pub(crate) fn level_in(image: &[u8], i: u32) -> u16
    requires { 12 + 8 * i ≤ length image.now }
    ensures { result ≡ level_in image.now i }
{
    bytes::short_in(image, place_of(i) + LEVEL)
}

pub(crate) fn size_in(image: &[u8], i: u32) -> u32
    requires { 12 + 8 * i ≤ length image.now }
    ensures { result ≡ size_in image.now i }
{
    bytes::number_in(image, place_of(i) + LENGTH)
}

// The texts, joined.
#[tactic(auto, unfolding(crate::specs::Tree::texts_of))]
fn texts_of(image: &[u8]) -> &[u8]
    ensures { result.now ≡ texts_of image.now }
{
    let n = element_count(image);
    text::behind(image, 8 + ELEMENT * (n as usize))
}

// The text of element i, which starts at place at of the texts.
#[tactic(auto, unfolding(crate::specs::Image::text_in))]
pub(crate) fn text_of(image: &[u8], i: u32, at: usize) -> &[u8]
    requires { at ≡ start_in image.now i }
    ensures { result.now ≡ text_in image.now i }
{
    let texts = texts_of(image);
    let size = size_of(image, i) as usize;
    text::front(text::behind(texts, at), size)
}
