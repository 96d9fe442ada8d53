// The index of the tree: kind, end of the subtree and start of the text of each element, and an entry more for the end.
// Starts are places in the image, so that the image itself is handed to the accessors. An entry is three numbers in a lent table: there is no heap.
ghost use Rattle.std.specs.Prelude.{◌≡◌, ◌+◌, ◌*◌, ◌<◌, ◌≤◌, length, set};
ghost use Rattle.tree.specs.Tree.{count_n};
ghost use Rattle.tree.specs.Index.{IndexedFrom, Indexable, Filled, Tried, end_in};

use super::access::{END, ENTRY, START};
use super::read;

// Writes the entry of element i.
fn put_entry(table: &mut [u32], i: u32, kind: u32, end: u32, start: u32)
    requires { i * 3 + 2 < length table.old }
    ensures { table.new ≡ set (set (set table.old (i * 3) kind) (i * 3 + 1) end) (i * 3 + 2) start }
{
    let at = (i as usize) * ENTRY;
    table[at] = kind;
    table[at + END] = end;
    table[at + START] = start;
}

// Where the subtree of element i ends: jumps over the subtrees behind it that are deeper. Each subtree is jumped over
// once in all, since the element that jumped over it is met first from then on.
fn find_end(image: &[u8], table: &[u32], n: u32, i: u32) -> u32
    requires count { n ≡ count_n image.now }
    requires headers { 8 + 8 * n ≤ length image.now }
    requires within { i < n }
    requires indexed_from { IndexedFrom image.now table.now (i + 1) }
    ensures { result ≡ end_in image.now i }
{
    let level = read::level_in(image, i);
    let mut j = i + 1;
    while j < n {
        if read::level_in(image, j) <= level {
            return j;
        }
        j = table[(j as usize) * ENTRY + END];
    }
    j
}

// Writes the index of an image that passed the tests, from the last element to the first.
#[tactic(auto, using(crate::proofs::Passing::accepts))]
pub fn index(image: &[u8], table: &mut [u32])
    requires { Indexable image.now table.old }
    ensures { Filled image.now table.old table.new }
{
    let n = read::count_in(image);
    let mut start = image.len() as u32;
    put_entry(table, n, 0, n, start);
    for i in (0..n).rev() {
        start -= read::size_in(image, i);
        let kind = read::kind_in(image, i);
        let end = find_end(image, table, n, i);
        put_entry(table, i, kind, end, start);
    }
}

// The same of any image and table: writes the index if the image passes the tests and the table has room, and says whether.
pub fn try_index(image: &[u8], table: &mut [u32]) -> bool
    ensures { Tried image.now table.old table.new result }
{
    let Ok(accepted) = super::refusal(image) else {
        return false;
    };
    if table.len() < (accepted.elements as usize) * ENTRY + ENTRY {
        return false;
    }
    index(image, table);
    true
}
