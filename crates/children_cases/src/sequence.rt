// A sequence of elements by its letters, and the image of a tree whose root has them as its children.
ghost use Rattle.std.specs.Prelude.{◌<◌, ◌≤◌, length};

use cases::{put, put_all};

// How many elements a sequence has at most.
pub const LONGEST: usize = 7;

// Where the entry of the first element behind the root stands in an image, and how long an entry is.
const FIRST: usize = 12;

const ENTRY: usize = 8;

// The sequence of a number: its decimal digits, the lowest first.
pub fn spell(number: u32, word: &mut [u8]) {
    let mut rest = number;
    for letter in word.iter_mut() {
        *letter = (rest % 10) as u8;
        rest /= 10;
    }
}

// The kind of a letter: a child, white space, a `#` comment, a multi-line comment, a custom error, a comma, a colon.
fn kind_of(letter: u8) -> u8 {
    match letter {
        0 => 2,
        1 | 2 | 3 => 64,
        4 => 68,
        5 | 6 => 65,
        7 => 70,
        8 => 94,
        _ => 102,
    }
}

// Writes the text of a letter and says where it ends.
fn put_text(image: &mut [u8], at: usize, letter: u8) -> usize {
    match letter {
        0 => at,
        1 => put_all(image, at, b" "),
        2 => put_all(image, at, b"\n"),
        3 => put_all(image, at, b"\n\n"),
        4 => put_all(image, at, b"#\n"),
        5 => put_all(image, at, b"/**/"),
        6 => put_all(image, at, b"/*\n*/"),
        7 => put_all(image, at, b"e"),
        8 => put_all(image, at, b","),
        _ => put_all(image, at, b":"),
    }
}

// How far an end lies behind a beginning, in a byte.
fn size(from: usize, end: usize) -> u8 {
    (end.wrapping_sub(from) % 256) as u8
}

// Writes the i-th element behind the root and its text, and says where the text ends.
fn put_element(image: &mut [u8], i: usize, at: usize, letter: u8) -> usize
    requires { i < 7 }
{
    let entry = FIRST + i * ENTRY;
    let end = put_text(image, at, letter);
    put(image, entry, kind_of(letter));
    put(image, entry + 2, 1);
    put(image, entry + 4, size(at, end));
    end
}

// Writes the elements behind the root, their texts from `at` on, and says where the last ends.
fn put_elements(word: &[u8], image: &mut [u8], at: usize) -> usize
    requires { length word.now ≤ 7 }
{
    let mut end = at;
    for (i, letter) in word.iter().enumerate() {
        end = put_element(image, i, end, *letter);
    }
    end
}

// Writes the image of a sequence over zeros and says where it ends.
pub fn put_image(word: &[u8], image: &mut [u8]) -> usize
    requires { length word.now ≤ 7 }
{
    let count = FIRST + word.len() * ENTRY;
    let texts = count + 4;
    let end = put_elements(word, image, texts);
    put(image, 0, size(0, word.len() + 1));
    put(image, 4, 1);
    put(image, count, size(texts, end));
    end
}
