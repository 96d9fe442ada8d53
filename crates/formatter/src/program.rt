// What the program of document 01 prints of a tree image. The program stays in the plain mode.
ghost use Rattle.formatter.specs.Program.{Responds};

use crate::list_items;
use items::RECORD;
use listing::write_refused;
use numbers::mode::Mode;
use numbers::refusal::Reason;

// Words of 5,000 records.
const WORDS: usize = RECORD * 5_000;

const TEXT_BYTES: usize = 32_000;

const LISTING_BYTES: usize = 65_536;

// Why an image was turned away, if it was, and how many bytes are printed.
#[derive(Clone, Copy)]
pub struct Response {
    pub refused: Option<Reason>,
    pub bytes: usize,
}

// Writes the listing of an image in a mode, or the line of its refusal, to the front of a buffer.
pub fn respond(image: &[u8], mode: Mode, out: &mut [u8; LISTING_BYTES]) -> Response
    ensures { Responds mode image.now out.old out.new result }
{
    let mut records = [0u32; WORDS];
    let mut texts = [0u8; TEXT_BYTES];
    match list_items(image, mode, &mut records, &mut texts, out) {
        Ok(listed) => Response {
            refused: None,
            bytes: listed.bytes,
        },
        Err(refusal) => {
            let reason = refusal.reason;
            Response {
                refused: Some(reason),
                bytes: write_refused(u32::from(reason), refusal.element.0, out),
            }
        }
    }
}
