// A reader: an image, and the place of what is read next. What is read at a place are functions of a slice and a number
// (`bytes.rt`).
ghost use Rattle.std.specs.Prelude.{◌≡◌, ◌+◌, ◌-◌, ◌<◌, ◌^◌, length};
ghost use Rattle.tree.specs.Tree.{le16, le32};
ghost use Rattle.tree.specs.Image.{header_at};

use super::bytes;
use super::bytes::Header;

#[derive(Clone, Copy)]
pub struct Reader<'a> {
    image: &'a [u8],
    at: usize,
}

impl<'a> Reader<'a> {
    // A reader at the start of an image.
    pub fn new(image: &'a [u8]) -> Reader<'a>
        ensures { result ≡ record { image = image.entry; at = 0 } }
    {
        Reader { image, at: 0 }
    }

    // The reader n bytes further on.
    pub fn skip(self, n: usize) -> Reader<'a>
        requires { self.at + n < 2 ^ 64 }
        ensures { result ≡ record { image = self.entry.image; at = self.entry.at + n } }
    {
        Reader {
            image: self.image,
            at: self.at + n,
        }
    }

    // How many bytes are left.
    pub fn left(self) -> usize
        ensures { result ≡ length self.entry.image.now - self.entry.at }
    {
        self.image.len().saturating_sub(self.at)
    }

    // The number of two bytes at the reader's place.
    pub fn read_u16(self) -> u16
        ensures { result ≡ le16 self.entry.image.now self.entry.at }
    {
        bytes::short_at(self.image, self.at)
    }

    // The number of four bytes at the reader's place.
    pub fn read_u32(self) -> u32
        ensures { result ≡ le32 self.entry.image.now self.entry.at }
    {
        bytes::number_at(self.image, self.at)
    }

    // The element at the reader's place.
    pub fn read_element(self) -> Header
        ensures { result ≡ header_at self.entry.image.now self.entry.at }
    {
        bytes::header_at(self.image, self.at)
    }
}
