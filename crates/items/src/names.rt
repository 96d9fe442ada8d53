// The names in a listing, in two tables: those of the kinds of records by their numbers, and others. Each table is the names
// joined, where each of them starts, and how long it is.
ghost use Rattle.std.specs.Prelude.{◌≡◌, ◌+◌, ◌<◌, ◌≤◌, ◌^◌, length};
ghost use Rattle.text.specs.Basic.{ascii};
ghost use Rattle.text.specs.Words.{joined_words, word_start};
ghost use Rattle.items.specs.Machine.{store};
ghost use Rattle.items.specs.Names.{names_of, name_at, name_lengths};

use super::put_bytes;

#[derive(Clone, Copy)]
pub enum Table {
    Kinds,
    Others,
}

// The names that are no kinds, by their numbers, since those of kinds go by theirs.
pub const IF_LINES: u32 = 0;

pub const RECORDS: u32 = 1;

pub const TEXTS: u32 = 2;

pub const RUNS: u32 = 3;

pub const MARKS: u32 = 4;

// Where each name starts among the joined ones, and where the last one ends.
const KIND_STARTS: [u8; 19] = [
    0, 0, 4, 11, 27, 30, 36, 43, 47, 52, 61, 66, 75, 78, 85, 90, 99, 103, 109,
];

const OTHER_STARTS: [u8; 6] = [0, 8, 15, 21, 26, 32];

// Where the name with a number starts, which is where the one before it ends.
fn start_of(t: Table, w: u32) -> usize
    requires { w ≤ length (names_of t) }
    ensures { result ≡ word_start (names_of t) w }
{
    let at = w as usize;
    match t {
        Table::Kinds => usize::from(KIND_STARTS[at]),
        Table::Others => usize::from(OTHER_STARTS[at]),
    }
}

// The lengths of the names of a table.
fn lengths(t: Table) -> &'static [u8]
    ensures { result.now ≡ name_lengths t }
{
    match t {
        Table::Kinds => &[0, 4, 7, 16, 3, 6, 7, 4, 5, 9, 5, 9, 3, 7, 5, 9, 4, 6],
        Table::Others => &[8, 7, 6, 5, 6],
    }
}

// The length of the name with a number; no name has another number.
pub fn name_length(t: Table, w: u32) -> u64
    ensures { result ≡ length (ascii (name_at t w)) }
{
    lengths(t).get(w as usize).copied().unwrap_or(0) as u64
}

// The names of a table, joined.
fn joined(t: Table) -> &'static [u8]
    ensures { result.now ≡ joined_words (names_of t) }
{
    match t {
        Table::Kinds => {
            b"textnewlinespace-or-newlinetabindentoutdentmarkgroupgroup-endblockblock-endrunrun-endagainif alwayselseend-if"
        }
        Table::Others => b"if linesrecords texts runs marks",
    }
}

// Stores the name with a number from a place on, as far as there is room.
pub fn put_name(buf: &mut [u8], at: usize, t: Table, w: u32)
    requires known { w < length (names_of t) }
    requires room { at + length (ascii (name_at t w)) < 2 ^ 64 }
    ensures { buf.new ≡ store buf.old at (ascii (name_at t w)) }
{
    let start = start_of(t, w);
    let end = start_of(t, w + 1);
    put_bytes(buf, at, &joined(t)[start..end]);
}
