// Print items, written as records into lent buffers.
#![tactic(auto)]

pub mod lines;
pub mod names;

ghost use Rattle.std.specs.Prelude.{◌≡◌, true, false, [], ◌∷◌, ◌+◌, ◌<◌, ◌≤◌, ◌^◌, length, set};
ghost use Rattle.items.specs.Item.{plain_item, text, signal, signal_kind};
ghost use Rattle.items.specs.Machine.{output, SaysIn, PutsIn, all_fit, sized, size_after, store, store_record, no_size};
ghost use Rattle.items.specs.Entry.{RoomAfter, entry_of, plain_entry, line_of, grown_by, room_for, Emits, store_entry};

use lines::LINES;
use numbers::Mark;

// What was printed: records, bytes of their texts, runs and marks.
#[derive(Clone, Copy)]
pub struct Count {
    pub records: u32,
    pub texts: u32,
    pub runs: u32,
    pub marks: u32,
}

// How much is put: records, bytes of their texts and, where the records are listed, of the lines that list them, else 0. With an `Option`
// for these bytes each sum and each test of a size would ask what `text_entry` and `line_if` ask now. Printing gives an `Option<Size>`: none
// where it is full, since a number of the size or an operand would no longer fit 32 bits.
#[derive(Clone, Copy)]
pub struct Size {
    pub records: u32,
    pub texts: u32,
    pub lines: u32,
    pub listed: bool,
}

// Where items are printed: lent records and texts, and the size of what was printed.
#[derive(Drop)]
pub struct Output<'a> {
    records: &'a mut [u32],
    texts: &'a mut [u8],
    size: Option<Size>,
}

// An item without operands.
#[derive(Clone, Copy)]
pub enum Signal {
    NewLine,
    SpaceOrNewLine,
    Tab,
    StartIndent,
    FinishIndent,
    StartGroup,
    FinishGroup,
    StartBlock,
    FinishBlock,
    Else,
    EndIf,
}

// What a condition tests: nothing, or whether the lines of a mark and of the next one differ.
#[derive(Clone, Copy)]
pub enum Condition {
    Always,
    Lines(Mark),
}

// The words of a record.
pub const RECORD: usize = 3;

// The kinds of records: numbers, as lent records and C have them.
pub const TEXT: u32 = 1;

pub const NEW_LINE: u32 = 2;

pub const SPACE_OR_NEW_LINE: u32 = 3;

pub const TAB: u32 = 4;

pub const INDENT: u32 = 5;

pub const OUTDENT: u32 = 6;

pub const MARK: u32 = 7;

pub const GROUP: u32 = 8;

pub const GROUP_END: u32 = 9;

pub const BLOCK: u32 = 10;

pub const BLOCK_END: u32 = 11;

pub const RUN: u32 = 12;

pub const RUN_END: u32 = 13;

pub const AGAIN: u32 = 14;

pub const IF: u32 = 15;

pub const ELSE: u32 = 16;

pub const END_IF: u32 = 17;

// A condition on lines, where it goes by one number; no record is of this kind.
pub const IF_LINES: u32 = 18;

// Numbers from here on do not fit 32 bits.
const LIMIT: u64 = 0x1_0000_0000;

// A record, the bytes of its text and, where records are listed, how many of these are escaped.
#[derive(Clone, Copy)]
struct Entry {
    kind: u32,
    first: u32,
    second: u32,
    bytes: u32,
    escapes: u32,
}

// A record with no text.
fn plain(kind: u32, first: u32, second: u32) -> Entry
    ensures { result ≡ plain_entry kind first second }
{
    Entry {
        kind,
        first,
        second,
        bytes: 0,
        escapes: 0,
    }
}

// The record of a text at an offset. Where records are not listed, no byte of it is looked at.
fn text_entry(at: u32, listed: bool, s: &[u8]) -> Entry
    requires { length s.now < 2 ^ 32 }
    ensures { result ≡ entry_of at listed (text s.now) }
{
    let bytes = s.len() as u32;
    let escapes = if listed { lines::escapes(s) as u32 } else { 0 };
    Entry {
        kind: TEXT,
        first: at,
        second: bytes,
        bytes,
        escapes,
    }
}

// The record of an item without a text, by its kind and its number.
fn plain_entry(kind: u32, n: u32) -> Entry
    requires kind_from { 2 ≤ kind }
    requires kind_to { kind ≤ 18 }
    ensures { result ≡ entry_of 0 false (plain_item kind n) }
{
    if kind == IF_LINES {
        return plain(IF, LINES, n);
    }
    if lines::has_number(kind) {
        plain(kind, n, 0)
    } else {
        plain(kind, 0, 0)
    }
}

// Stores x at place at, if there is room.
fn put<T: Copy>(buf: &mut [T], at: usize, x: T)
    ensures { buf.new ≡ set buf.old at x }
{
    if at < buf.len() {
        buf[at] = x;
    }
}

// Stores a record at its place, as far as there is room.
fn put_record(buf: &mut [u32], n: u32, kind: u32, first: u32, second: u32)
    ensures { buf.new ≡ store_record buf.old n kind first second }
{
    let at = RECORD * (n as usize);
    put(buf, at, kind);
    put(buf, at + 1, first);
    put(buf, at + 2, second);
}

// Stores b at place at, if there is room.
pub fn put_byte(buf: &mut [u8], at: usize, b: u8)
    ensures { buf.new ≡ set buf.old at b }
{
    put(buf, at, b);
}

// Stores the bytes of s from place at on, as far as there is room. By `copy_from_slice` the archive for C would need `memmove` and `memcpy` from
// outside.
pub fn put_bytes(buf: &mut [u8], at: usize, s: &[u8])
    requires { at + length s.now < 2 ^ 64 }
    ensures { buf.new ≡ store buf.old at s.now }
{
    let end = buf.len().min(at + s.len());
    for i in at..end {
        buf[i] = s[i - at];
    }
}

impl Size {
    // Advances the size by a record, with so many bytes of text and of its line.
    fn advance(&mut self, bytes: u32, line: u32)
        requires { RoomAfter bytes line self.old }
        ensures { self.new ≡ size_after bytes line self.old }
    {
        self.records += 1;
        self.texts += bytes;
        self.lines += line;
    }
}

// Stores a record at the end, and gives the size after it. Its numbers must fit.
fn put_entry(records: &mut [u32], mut p: Size, e: Entry, line: u32) -> Size
    requires { RoomAfter e.bytes line p }
    ensures value { result ≡ size_after e.bytes line p }
    ensures records_after { records.new ≡ store_entry e p records.old }
{
    put_record(records, p.records, e.kind, e.first, e.second);
    p.advance(e.bytes, line);
    p
}

// The bytes of a record's line, where records are listed.
fn line_if(e: Entry, p: Size) -> u64
    ensures { result ≡ line_of e p }
{
    if !p.listed {
        return 0;
    }
    lines::line_length(p.records, e.kind, e.first, e.second, e.escapes)
}

// Puts a text, also one of no bytes, behind what was put. Its numbers must fit, of which no type tells, since that goes by the item and by
// the size; no line is counted, so records are not listed. This and `put_plain` are no methods of `Output`, whose size may be none: where all
// numbers fit, nothing is ever full.
pub fn put_text(records: &mut [u32], texts: &mut [u8], s: &[u8], p: Size) -> Size
    requires unlisted { p.listed ≡ false }
    requires fits { all_fit (text s.now ∷ []) p ≡ true }
    ensures { PutsIn records texts p result (text s.now ∷ []) }
{
    put_bytes(texts, p.texts as usize, s);
    put_entry(records, p, text_entry(p.texts, false, s), 0)
}

// Puts an item without a text, by its kind and its number. Its numbers must fit, and no line is counted.
pub fn put_plain(records: &mut [u32], texts: &mut [u8], kind: u32, n: u32, p: Size) -> Size
    requires unlisted { p.listed ≡ false }
    requires kind_from { 2 ≤ kind }
    requires kind_to { kind ≤ 18 }
    requires fits { all_fit (plain_item kind n ∷ []) p ≡ true }
    ensures { PutsIn records texts p result (plain_item kind n ∷ []) }
{
    put_entry(records, p, plain_entry(kind, n), 0)
}

// The size after a record that is put into no buffer. Its numbers must fit.
fn count_entry(e: Entry, mut p: Size) -> Size
    requires { RoomAfter e.bytes (line_of e p) p }
    ensures { result ≡ grown_by e p }
{
    let line = line_if(e, p);
    p.advance(e.bytes, line as u32);
    p
}

// The size after a text. Its numbers must fit.
pub fn count_text(s: &[u8], p: Size) -> Size
    requires { all_fit (text s.now ∷ []) p ≡ true }
    ensures { result ≡ sized (text s.now ∷ []) p }
{
    count_entry(text_entry(p.texts, p.listed, s), p)
}

// The size after an item without a text. Its numbers must fit.
pub fn count_plain(kind: u32, n: u32, p: Size) -> Size
    requires kind_from { 2 ≤ kind }
    requires kind_to { kind ≤ 18 }
    requires fits { all_fit (plain_item kind n ∷ []) p ≡ true }
    ensures { result ≡ sized (plain_item kind n ∷ []) p }
{
    count_entry(plain_entry(kind, n), p)
}

// Nothing is put yet, of records that are to be listed or not.
pub fn no_size(listed: bool) -> Size
    ensures { result ≡ no_size listed }
{
    Size {
        records: 0,
        texts: 0,
        lines: 0,
        listed,
    }
}

// The bytes to be counted of a record's line; none where a number of the size after it does not fit.
fn fitting(e: Entry, p: Size) -> Option<u32>
    ensures { result ≡ room_for e p }
{
    let records = p.records as u64 + 1;
    let texts = p.texts as u64 + e.bytes as u64;
    let line = line_if(e, p);
    let lines = p.lines as u64 + line;
    if LIMIT <= records.max(texts.max(lines)) {
        return None;
    }
    Some(line as u32)
}

// The kind of an item without operands. With numbers in the enum they would stand twice, beside the constants of all kinds.
pub fn signal_kind(s: Signal) -> u32
    ensures { result ≡ signal_kind s }
{
    match s {
        Signal::NewLine => NEW_LINE,
        Signal::SpaceOrNewLine => SPACE_OR_NEW_LINE,
        Signal::Tab => TAB,
        Signal::StartIndent => INDENT,
        Signal::FinishIndent => OUTDENT,
        Signal::StartGroup => GROUP,
        Signal::FinishGroup => GROUP_END,
        Signal::StartBlock => BLOCK,
        Signal::FinishBlock => BLOCK_END,
        Signal::Else => ELSE,
        Signal::EndIf => END_IF,
    }
}

impl<'a> Output<'a> {
    // Behind what has this size, in lent buffers.
    pub fn new(records: &'a mut [u32], texts: &'a mut [u8], size: Option<Size>) -> Output<'a>
        ensures { result ≡ output records.entry texts.entry size }
    {
        Output {
            records,
            texts,
            size,
        }
    }

    // The size of what was printed; none where it is full.
    pub fn size(&self) -> Option<Size>
        ensures { result ≡ self.now.size }
    {
        self.size
    }

    // The one place that asks: stores a record and counts it, if its numbers fit. If not, the output is full, and no cell changes.
    fn emit(&mut self, e: Entry)
        ensures { Emits e self.old self.new }
    {
        let Some(p) = self.size else {
            return;
        };
        let Some(line) = fitting(e, p) else {
            self.size = None;
            return;
        };
        self.size = Some(put_entry(self.records, p, e, line));
    }

    // Prints a text, also one of no bytes. It is stored once its record is: where that does not fit, nothing is.
    pub fn print_text(&mut self, s: &[u8])
        ensures { SaysIn self (text s.now ∷ []) }
    {
        let Some(p) = self.size else {
            return;
        };
        if LIMIT <= s.len() as u64 {
            self.size = None;
            return;
        }
        self.emit(text_entry(p.texts, p.listed, s));
        if self.size.is_some() {
            put_bytes(self.texts, p.texts as usize, s);
        }
    }

    // Prints an item without operands.
    pub fn print_signal(&mut self, s: Signal)
        ensures { SaysIn self (signal s ∷ []) }
    {
        self.emit(plain(signal_kind(s), 0, 0));
    }
}
