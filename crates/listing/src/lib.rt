// The listing of records, written into a lent buffer.
#![tactic(auto)]

ghost use Rattle.std.specs.Prelude.{◌≡◌, [], ◌∷◌, ℕ, ◌<◌, ◌+◌, ◌≤◌, length};
ghost use Rattle.text.specs.Basic.{ascii};
ghost use Rattle.items.specs.Lines.{decimal, field, octal, escaped_byte, escaped};
ghost use Rattle.items.specs.Names.{names_of, name_at};
ghost use Rattle.listing.specs.Listing.{head_line, listing, refused_line};
ghost use Rattle.listing.specs.Writes.{WritesIn, WritesOn, Room};
ghost use Rattle.listing.specs.Shown.{listed_text, shown, Readable, Line, line_at, lines_from};
ghost use Rattle.listing.specs.Listable.{items_in, Listable};

use items::lines::{LINES, field_length, has_number, is_escaped};
use items::names::{IF_LINES, MARKS, RECORDS, RUNS, TEXTS, Table};
use items::{Count, IF, RECORD, TEXT, names};

// A sheet that is written from its start on: a lent buffer, and where the next byte goes, also past its end.
#[derive(Drop)]
struct Sheet<'a> {
    out: &'a mut [u8],
    at: usize,
}

// A digit as a byte.
fn digit(n: usize) -> u8
    requires { n < 10 }
    ensures { result ≡ 48 + n }
{
    48 + (n as u8)
}

// Writes a number in decimal from a place on, and gives the next place. It calls itself, and is lent no sheet: the place would be read from
// memory for each digit.
fn put_digits(out: &mut [u8], at: usize, n: usize) -> usize
    requires { Room (decimal n) at }
    ensures { WritesIn out at result (decimal n) }
{
    if n < 10 {
        items::put_byte(out, at, digit(n));
        return at + 1;
    }
    let next = put_digits(out, at, n / 10);
    items::put_byte(out, next, digit(n % 10));
    next + 1
}

impl<'a> Sheet<'a> {
    // Writes one byte, if there is room.
    fn put_byte(&mut self, b: u8)
        requires { Room (b ∷ []) self.old.at }
        ensures { WritesOn self (b ∷ []) }
    {
        items::put_byte(self.out, self.at, b);
        self.at += 1;
    }

    // Writes the bytes of s, as far as there is room.
    fn put_bytes(&mut self, s: &[u8])
        requires { Room s.now self.old.at }
        ensures { WritesOn self s.now }
    {
        items::put_bytes(self.out, self.at, s);
        self.at += s.len();
    }

    // Writes a number in decimal.
    fn put_decimal(&mut self, n: usize)
        requires { Room (decimal n) self.old.at }
        ensures { WritesOn self (decimal n) }
    {
        self.at = put_digits(self.out, self.at, n);
    }

    // Writes the name with a number.
    fn put_name(&mut self, t: Table, w: u32)
        requires known { w < length (names_of t) }
        requires room { Room (ascii (name_at t w)) self.old.at }
        ensures { WritesOn self (ascii (name_at t w)) }
    {
        names::put_name(self.out, self.at, t, w);
        self.at += names::name_length(t, w) as usize;
    }

    // Writes a name and a number.
    fn put_field(&mut self, t: Table, w: u32, n: u32)
        requires known { w < length (names_of t) }
        requires room { Room (field (name_at t w) n) self.old.at }
        ensures { WritesOn self (field (name_at t w) n) }
    {
        self.put_name(t, w);
        self.put_byte(b' ');
        self.put_decimal(n as usize);
    }

    // Writes a byte by a backslash and its octal digits.
    fn put_octal(&mut self, b: u8)
        requires { Room (octal b) self.old.at }
        ensures { WritesOn self (octal b) }
    {
        let n = b as usize;
        self.put_byte(b'\\');
        self.put_byte(digit(n / 64));
        self.put_byte(digit(n / 8 % 8));
        self.put_byte(digit(n % 8));
    }

    // Writes what lists a byte of a text.
    fn put_escaped_byte(&mut self, b: u8)
        requires { Room (escaped_byte b) self.old.at }
        ensures { WritesOn self (escaped_byte b) }
    {
        if is_escaped(b) {
            self.put_octal(b);
        } else {
            self.put_byte(b);
        }
    }

    // Writes what lists a text, byte by byte.
    fn put_escaped(&mut self, s: &[u8])
        requires { Room (escaped s.now) self.old.at }
        ensures { WritesOn self (escaped s.now) }
    {
        for b in s {
            self.put_escaped_byte(*b);
        }
    }

    // Writes a text by its offset and length.
    fn put_text(&mut self, texts: &[u8], offset: u32, bytes: u32)
        requires inside { offset + bytes ≤ length texts.now }
        requires room { Room (listed_text texts.now offset bytes) self.old.at }
        ensures { WritesOn self (listed_text texts.now offset bytes) }
    {
        let start = offset as usize;
        let end = start + (bytes as usize);
        self.put_field(Table::Kinds, TEXT, bytes);
        self.put_byte(b' ');
        self.put_escaped(&texts[start..end]);
    }

    // Writes a record's kind and operands.
    fn put_item(&mut self, texts: &[u8], kind: u32, first: u32, second: u32)
        requires known { Readable texts.now kind first second }
        requires room { Room (shown texts.now kind first second) self.old.at }
        ensures { WritesOn self (shown texts.now kind first second) }
    {
        if kind == TEXT {
            self.put_text(texts, first, second);
        } else if (kind == IF) & (first == LINES) {
            self.put_field(Table::Others, IF_LINES, second);
        } else if has_number(kind) {
            self.put_field(Table::Kinds, kind, first);
        } else {
            self.put_name(Table::Kinds, kind);
        }
    }

    // Writes the line of record i.
    fn put_line(&mut self, records: &[u32], texts: &[u8], i: u32)
        requires known { Line records.now texts.now i }
        requires room { Room (line_at records.now texts.now i) self.old.at }
        ensures { WritesOn self (line_at records.now texts.now i) }
    {
        let word = RECORD * (i as usize);
        self.put_decimal(i as usize);
        self.put_byte(b' ');
        self.put_item(texts, records[word], records[word + 1], records[word + 2]);
        self.put_byte(b'\n');
    }

    // Writes the lines of the first n records.
    fn put_lines(&mut self, records: &[u32], texts: &[u8], n: u32)
        requires known { (i : ℕ) → i < n → Line records.now texts.now i }
        requires room { Room (lines_from records.now texts.now 0 n) self.old.at }
        ensures { WritesOn self (lines_from records.now texts.now 0 n) }
    {
        for i in 0..n {
            self.put_line(records, texts, i);
        }
    }

    // Writes the line of counts.
    fn put_head(&mut self, c: Count)
        requires { Room (head_line c) self.old.at }
        ensures { WritesOn self (head_line c) }
    {
        self.put_field(Table::Others, RECORDS, c.records);
        self.put_field(Table::Others, TEXTS, c.texts);
        self.put_field(Table::Others, RUNS, c.runs);
        self.put_field(Table::Others, MARKS, c.marks);
        self.put_byte(b'\n');
    }
}

// Writes the listing of the first records, as far as there is room, and gives its length.
pub fn write_listing(records: &[u32], texts: &[u8], c: Count, out: &mut [u8]) -> usize
    requires { Listable records.now texts.now c }
    ensures { WritesIn out 0 result (listing (items_in records.now texts.now c.records)) }
{
    let mut sheet = Sheet { out, at: 0 };
    sheet.put_head(c);
    sheet.put_lines(records, texts, c.records);
    sheet.at
}

// Writes the line of a refusal, as far as there is room, and gives its length.
pub fn write_refused(number: u32, element: u32, out: &mut [u8]) -> usize
    ensures { WritesIn out 0 result (refused_line number element) }
{
    let mut sheet = Sheet { out, at: 0 };
    sheet.put_bytes(b"refused ");
    sheet.put_decimal(number as usize);
    sheet.put_byte(b' ');
    sheet.put_decimal(element as usize);
    sheet.put_byte(b'\n');
    sheet.at
}

// The length of the line of counts.
fn head_length(c: Count) -> u64
    ensures { result ≡ length (head_line c) }
{
    field_length(Table::Others, RECORDS, c.records)
        + field_length(Table::Others, TEXTS, c.texts)
        + field_length(Table::Others, RUNS, c.runs)
        + field_length(Table::Others, MARKS, c.marks)
        + 1
}

// The length of the listing of items with these counts, whose lines have so many bytes.
pub fn listing_length(c: Count, lines: u32) -> usize
    ensures { result ≡ length (head_line c) + lines }
{
    (head_length(c) + lines as u64) as usize
}
