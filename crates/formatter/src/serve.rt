// What both calls do: tests, plan, room, and then records, texts and the listing, if one is asked for.
ghost use Rattle.std.specs.Prelude.{◌≡◌, ◌+◌, ◌*◌, ◌<◌, ◌≤◌, ◌^◌, length};
ghost use Rattle.std.proofs.Math.Option.{none};
ghost use Rattle.tree.specs.Refusal.{refusal};
ghost use Rattle.tree.specs.Index.{Indexed};
ghost use Rattle.formatter.specs.Calls.{buffers, ServedIn, ServedBy, AttemptedIn, TriedIn, most_records, Ready, Foresees, Whole, counts_with, ample, shortage};

use crate::Listed;
use items::{Count, RECORD, Size};
use listing::{listing_length, write_listing};
use numbers::mode::Mode;
use numbers::refusal::{Reason, Refusal};
use plan::write::{count_ops, write_ops};
use plan::{Halt, Plan, Planner};
use printer::plan_source;
use tree::access::ENTRY;
use tree::{Tree, byte_count, element_count};

// How many operations an array holds, four times as many in each size but the largest, which has room for every image. An array is
// tried first that holds some for each element, which most images do not need; where it is full, the largest.
const SMALLEST: usize = 384;

const SMALL: usize = 1_536;

const MIDDLE: usize = 6_144;

const LARGE: usize = 24_576;

const LARGEST: usize = 226_305;

const NEXT_SIZE: usize = 4;

// The operations for each element in the array that is tried first.
const LIKELY: usize = 6;

// An index has an entry for each element, three numbers where there are six operations, and one for the end.
const INDEX_PART: usize = LIKELY / ENTRY;

const SMALLEST_INDEX: usize = SMALLEST / INDEX_PART + ENTRY;

const SMALL_INDEX: usize = SMALL / INDEX_PART + ENTRY;

const MIDDLE_INDEX: usize = MIDDLE / INDEX_PART + ENTRY;

// That of the largest image too.
const LARGE_INDEX: usize = LARGE / INDEX_PART + ENTRY;

// Records for each element and each byte of text, at most.
const EACH_ELEMENT: usize = 24;

const EACH_BYTE: usize = 4;

// Bytes of text for each record, at most.
const EACH_RECORD: usize = 39;

// What a call asks for: a mode, and whether what is printed is listed, which the listing's buffer does not tell.
#[derive(Clone, Copy)]
pub struct Wanted {
    pub mode: Mode,
    pub listed: bool,
}

// The lent buffers: records, texts and a listing; where none is asked for, one of no bytes. In an `Option`, or at the lifetime of the
// texts, the caller would not learn what the listing's buffer ends as.
#[derive(Drop)]
pub struct Buffers<'a, 'l> {
    records: &'a mut [u32],
    texts: &'a mut [u8],
    listing: &'l mut [u8],
}

impl<'a, 'l> Buffers<'a, 'l> {
    // The three together.
    pub fn new(records: &'a mut [u32], texts: &'a mut [u8], listing: &'l mut [u8]) -> Self
        ensures { result ≡ buffers records.entry texts.entry listing.entry }
    {
        Buffers {
            records,
            texts,
            listing,
        }
    }
}

// The answer to a tree image, which prints it into the lent buffers, and lists what was printed if that is asked for.
pub fn serve(image: &[u8], buffers: &mut Buffers, wanted: Wanted) -> Result<Listed, Refusal>
    ensures { ServedIn image buffers wanted result }
{
    match tree::refusal(image) {
        Err(r) => Err(r),
        Ok(_) => serve_passed(image, buffers, wanted),
    }
}

// The same of an image that passed the tests 1 to 9.
fn serve_passed(image: &[u8], buffers: &mut Buffers, wanted: Wanted) -> Result<Listed, Refusal>
    requires { refusal image.now ≡ none }
    ensures { ServedIn image buffers wanted result }
{
    if let Some(answer) = attempt_sized(image, buffers, wanted, SMALLEST) {
        return answer;
    }
    // The largest has room for every image, so that this one answers.
    attempt_sized(image, buffers, wanted, LARGEST).unwrap()
}

// How many records an image prints at most.
fn most_records(image: &[u8]) -> usize
    ensures { result ≡ most_records image.now }
{
    let elements = element_count(image) as usize;
    let bytes = byte_count(image) as usize;
    EACH_ELEMENT * elements + EACH_BYTE * bytes
}

// The answer to an image that passed the tests 1 to 9, in arrays of a size, or of the next one where they hold too little for each element.
// A function that calls itself stays a function of its own, and so does each that it calls with an array: a small image needs
// no stack for a large one.
fn attempt_sized(
    image: &[u8],
    buffers: &mut Buffers,
    wanted: Wanted,
    size: usize,
) -> Option<Result<Listed, Refusal>>
    requires passed { refusal image.now ≡ none }
    requires positive { 1 ≤ size }
    ensures { TriedIn size image buffers wanted result }
{
    if size < LIKELY * (element_count(image) as usize) {
        return attempt_sized(image, buffers, wanted, NEXT_SIZE * size);
    }
    match size {
        SMALLEST => attempt::<SMALLEST, SMALLEST_INDEX>(image, buffers, wanted),
        SMALL => attempt::<SMALL, SMALL_INDEX>(image, buffers, wanted),
        MIDDLE => attempt::<MIDDLE, MIDDLE_INDEX>(image, buffers, wanted),
        LARGE => attempt::<LARGE, LARGE_INDEX>(image, buffers, wanted),
        _ => attempt::<LARGEST, LARGE_INDEX>(image, buffers, wanted),
    }
}

// The same in arrays of so many operations and of so many words for the index.
fn attempt<const OPERATIONS: usize, const INDEX: usize>(
    image: &[u8],
    buffers: &mut Buffers,
    wanted: Wanted,
) -> Option<Result<Listed, Refusal>>
    requires small { OPERATIONS + INDEX < 2 ^ 61 }
    requires ready { Ready image.now INDEX }
    ensures { AttemptedIn OPERATIONS image buffers wanted result }
{
    let mut table = [0u32; INDEX];
    let mut ops = [0u32; OPERATIONS];
    serve_in(image, &mut table, &mut ops, buffers, wanted)
}

// The same in lent arrays: the index is written into the table, and the tree is planned.
fn serve_in(
    image: &[u8],
    table: &mut [u32],
    ops: &mut [u32],
    buffers: &mut Buffers,
    wanted: Wanted,
) -> Option<Result<Listed, Refusal>>
    requires { Ready image.now (length table.old) }
    ensures { AttemptedIn (length ops.old) image buffers wanted result }
{
    tree::index::index(image, table);
    let tree = Tree {
        image,
        index: table,
    };
    match plan_tree(&tree, wanted.mode, ops) {
        Ok(plan) => Some(serve_planned(&tree, ops, plan, buffers, wanted)),
        Err(Halt::Stopped(element)) => Some(Err(Refusal {
            reason: Reason::Stopped,
            element,
        })),
        Err(Halt::Full) => None,
    }
}

// The plan of a tree's printing in a mode, or why there is none.
fn plan_tree(tree: &Tree, mode: Mode, ops: &mut [u32]) -> Result<Plan, Halt>
    requires { Indexed tree.now.image tree.now.index }
    ensures { Foresees mode tree.now.image tree.now.index ops.new result }
{
    let mut planner = Planner::new(ops, mode);
    plan_source(&mut planner, tree);
    planner.finish()
}

// The counts of a plan's items, by their size and the runs: each run's list has two marks.
fn counts_with(p: Size, runs: u32) -> Count
    requires { 2 * runs < 2 ^ 32 }
    ensures { result ≡ counts_with p runs }
{
    Count {
        records: p.records,
        texts: p.texts,
        runs,
        marks: 2 * runs,
    }
}

// The answer by a plan: why buffers are too short, or the counts of what is printed into them.
fn serve_planned(
    tree: &Tree,
    ops: &[u32],
    plan: Plan,
    buffers: &mut Buffers,
    wanted: Wanted,
) -> Result<Listed, Refusal>
    requires { Whole wanted.mode tree.now.image tree.now.index ops.now plan }
    ensures { ServedBy tree buffers wanted result }
{
    let n = plan.operations;
    let listed = wanted.listed;
    let records = &mut *buffers.records;
    let texts = &mut *buffers.texts;
    let listing = &mut *buffers.listing;
    let words = records.len();
    let room = texts.len();
    let size = listing.len();
    if !listed & is_ample(tree.image, words, room) {
        let p = write_ops(records, texts, tree, ops, n);
        return Ok(Listed {
            counts: counts_with(p, plan.runs),
            bytes: 0,
        });
    }
    let p = count_ops(tree, ops, n, listed);
    let counts = counts_with(p, plan.runs);
    let bytes = listing_length(counts, p.lines);
    fit(counts, bytes, words, room, size, listed)?;
    write_ops(records, texts, tree, ops, n);
    if listed {
        write_listing(records, texts, counts, listing);
    }
    Ok(Listed { counts, bytes })
}

// Whether buffers of so many words and bytes have room for all that an image may print: then nothing is counted first.
fn is_ample(image: &[u8], words: usize, room: usize) -> bool
    requires { refusal image.now ≡ none }
    ensures { result ≡ ample image.now words room }
{
    let most = most_records(image);
    (RECORD * most <= words) & (EACH_RECORD * most <= room)
}

// Whether buffers of so many words and bytes have room for what was counted, and one of so many bytes for its listing.
fn fit(
    c: Count,
    bytes: usize,
    words: usize,
    room: usize,
    size: usize,
    listed: bool,
) -> Result<(), Reason>
    ensures { result ≡ shortage c bytes words room size listed }
{
    if words < RECORD * (c.records as usize) {
        return Err(Reason::RecordsTooShort);
    }
    if room < c.texts as usize {
        return Err(Reason::TextsTooShort);
    }
    if listed & (size < bytes) {
        return Err(Reason::ListingTooShort);
    }
    Ok(())
}
