// The rows of pieces: what nodes with a fixed layout print.
ghost use Rattle.std.specs.Prelude.{◌≡◌, ◌<◌};
ghost use Rattle.tree.specs.Class.{kinds};
ghost use Rattle.printer.specs.Rows.{want_at, bits_at, option_at, what_in, entry_of, extent_of, Coded, RowOf, WantOf, MarksOf, want_count, piece_count};

use items::Signal;
use tree::class::Kinds;

// What a piece prints.
#[derive(Clone, Copy)]
pub enum What {
    // A text.
    Text,
    // A newline, an indent or an outdent.
    Signal(Signal),
    // A part, or the text if it is missing.
    Part,
    // All parts of a class; ended: each before a comma and a newline.
    Each { ended: bool },
    // The `+` of a field.
    Plus,
}

// A piece: whether it goes by other parts, and then only if one of two is there, where any is named, and a third is not; what it prints,
// of which part, with which text. What it prints stays a number until `what_in` reads it where it is matched: read with the other
// numbers it makes 145 jumps of the table's one load, which cost 6 of 100 instructions of the printers.
#[derive(Clone, Copy)]
pub struct Entry {
    pub tested: bool,
    pub given: Option<u32>,
    pub other: Option<u32>,
    pub unless: Option<u32>,
    pub what: u32,
    pub want: u32,
    pub word: u32,
}

// The pieces of a row, from one to before another, and whether the parts of its node are marked first.
#[derive(Clone, Copy)]
pub struct Extent {
    pub start: u32,
    pub end: u32,
    pub marks: bool,
}

// Marks of a node's parts: a bit for each wanted part whose class one of them is of, by its number; all of them; the number of operators,
// of which the `+` of a field is one.
pub const ALL_MARKS: u64 = 0xffff_ffff_ffff_ffff;

pub const OPERATORS: u32 = 0;

// What a piece goes by stands in the bits of its number below this one.
const CONDITION: u64 = 0x100_0000;

// The eight bits of a table's number from a place on.
fn bits_at(code: u64, place: u32) -> u32
    requires { place < 64 }
    ensures { result ≡ bits_at code place }
{
    ((code >> place) % 256) as u32
}

// The table of rows: from the lowest bits on, the first piece of the kind's row, the one behind its last, and whether parts
// are marked. A `match` of constants is one load from a table that lies ready, where an array would be laid out anew at each call.
fn row_code(k: u32) -> u64
    requires { k < 64 }
    ensures { RowOf k (extent_of result) }
{
    match k {
        0 => 0x00_00_00,
        1 => 0x00_00_00,
        2 => 0x00_00_00,
        3 => 0x00_05_00,
        4 => 0x00_07_05,
        5 => 0x00_0a_07,
        6 => 0x00_0d_0a,
        7 => 0x00_0e_0d,
        8 => 0x00_0f_0e,
        9 => 0x00_10_0f,
        10 => 0x00_10_10,
        11 => 0x00_11_10,
        12 => 0x00_15_11,
        13 => 0x00_18_15,
        14 => 0x00_19_18,
        15 => 0x01_1f_19,
        16 => 0x00_23_1f,
        17 => 0x00_25_23,
        18 => 0x01_28_25,
        19 => 0x01_2c_28,
        20 => 0x00_2d_2c,
        21 => 0x00_2e_2d,
        22 => 0x00_2e_2e,
        23 => 0x00_31_2e,
        24 => 0x00_34_31,
        25 => 0x00_38_34,
        26 => 0x00_38_38,
        27 => 0x00_38_38,
        28 => 0x00_39_38,
        29 => 0x00_3a_39,
        30 => 0x01_3f_3a,
        31 => 0x00_44_3f,
        32 => 0x00_48_44,
        33 => 0x00_50_48,
        34 => 0x00_52_50,
        35 => 0x00_53_52,
        36 => 0x00_54_53,
        37 => 0x00_5a_54,
        38 => 0x01_62_5a,
        39 => 0x00_63_62,
        40 => 0x00_65_63,
        41 => 0x01_67_65,
        42 => 0x00_6a_67,
        43 => 0x00_6b_6a,
        44 => 0x01_72_6b,
        45 => 0x00_73_72,
        46 => 0x00_74_73,
        47 => 0x00_74_74,
        48 => 0x01_77_74,
        49 => 0x00_7d_77,
        50 => 0x01_82_7d,
        51 => 0x00_84_82,
        52 => 0x01_88_84,
        53 => 0x00_89_88,
        54 => 0x00_8a_89,
        55 => 0x01_91_8a,
        56 => 0x00_91_91,
        57 => 0x00_91_91,
        58 => 0x00_91_91,
        59 => 0x00_91_91,
        60 => 0x00_91_91,
        61 => 0x00_91_91,
        62 => 0x00_91_91,
        63 => 0x00_91_91,
        _ => 0,
    }
}

// The pieces of a kind's row.
pub fn row_of(k: u32) -> Extent
    requires { k < 64 }
    ensures { RowOf k result }
{
    let code = row_code(k);
    Extent {
        start: bits_at(code, 0),
        end: bits_at(code, 8),
        marks: bits_at(code, 16) != 0,
    }
}

// The table of pieces of all rows in the order of their kinds: the numbers of an entry, from the lowest bits on.
fn piece_code(q: u32) -> u64
    requires { q < piece_count }
    ensures { Coded q (entry_of result) }
{
    match q {
        0 => 0x0f_01_04_00_00_00,
        1 => 0x02_00_00_00_00_00,
        2 => 0x10_02_04_00_00_00,
        3 => 0x02_00_00_00_00_00,
        4 => 0x0f_03_04_00_00_00,
        5 => 0x11_04_04_00_00_00,
        6 => 0x0f_01_04_00_00_00,
        7 => 0x0f_01_04_00_00_00,
        8 => 0x02_00_00_00_00_00,
        9 => 0x0f_03_04_00_00_00,
        10 => 0x09_00_00_00_00_00,
        11 => 0x0f_01_04_00_00_00,
        12 => 0x0a_00_00_00_00_00,
        13 => 0x12_05_04_00_00_00,
        14 => 0x13_06_04_00_00_00,
        15 => 0x14_07_04_00_00_00,
        16 => 0x15_08_04_00_00_00,
        17 => 0x04_00_00_00_00_00,
        18 => 0x0f_01_04_00_00_00,
        19 => 0x02_09_05_00_00_00,
        20 => 0x05_00_00_00_00_00,
        21 => 0x16_0a_04_00_00_00,
        22 => 0x02_00_00_00_00_00,
        23 => 0x12_05_04_00_00_00,
        24 => 0x17_0b_04_00_00_00,
        25 => 0x18_00_00_00_00_00,
        26 => 0x0f_01_04_00_00_00,
        27 => 0x19_00_00_00_00_00,
        28 => 0x1a_0c_04_00_00_00,
        29 => 0x1b_00_00_00_0e_0d,
        30 => 0x1a_0e_04_00_0e_0d,
        31 => 0x1c_00_00_00_00_00,
        32 => 0x1d_0f_04_00_00_00,
        33 => 0x00_00_01_00_00_00,
        34 => 0x0f_01_04_00_00_00,
        35 => 0x1e_00_00_00_00_00,
        36 => 0x0f_01_04_00_00_00,
        37 => 0x1f_00_00_00_00_10,
        38 => 0x20_00_00_00_00_00,
        39 => 0x17_0b_04_00_00_00,
        40 => 0x21_00_00_00_00_10,
        41 => 0x04_00_00_00_00_00,
        42 => 0x0f_01_04_00_00_00,
        43 => 0x05_00_00_00_00_00,
        44 => 0x22_11_04_00_00_00,
        45 => 0x23_12_04_00_00_00,
        46 => 0x24_13_04_00_00_00,
        47 => 0x0d_00_00_00_00_00,
        48 => 0x00_00_01_00_00_00,
        49 => 0x25_14_04_00_00_00,
        50 => 0x26_00_00_00_00_00,
        51 => 0x0f_01_04_00_00_00,
        52 => 0x17_0b_04_00_00_00,
        53 => 0x1d_0f_04_00_00_00,
        54 => 0x26_00_00_00_00_00,
        55 => 0x0f_01_04_00_00_00,
        56 => 0x27_15_04_00_00_00,
        57 => 0x24_13_04_00_00_00,
        58 => 0x28_16_04_00_00_00,
        59 => 0x00_00_07_00_00_00,
        60 => 0x29_17_04_00_00_00,
        61 => 0x02_00_00_00_00_00,
        62 => 0x0f_01_04_00_00_00,
        63 => 0x28_16_04_00_00_00,
        64 => 0x1d_0f_04_00_00_00,
        65 => 0x29_17_04_00_00_00,
        66 => 0x02_00_00_00_00_00,
        67 => 0x0f_01_04_00_00_00,
        68 => 0x2a_00_00_00_00_00,
        69 => 0x25_14_04_00_00_00,
        70 => 0x2b_00_00_00_00_00,
        71 => 0x0f_01_04_00_00_00,
        72 => 0x2c_00_00_00_00_00,
        73 => 0x17_0b_04_00_00_00,
        74 => 0x05_00_00_00_00_00,
        75 => 0x29_17_04_00_00_00,
        76 => 0x02_00_00_00_00_00,
        77 => 0x25_14_04_00_00_00,
        78 => 0x2b_00_00_00_00_00,
        79 => 0x0f_01_04_00_00_00,
        80 => 0x18_00_00_00_00_00,
        81 => 0x0f_01_04_00_00_00,
        82 => 0x17_0b_04_00_00_00,
        83 => 0x1f_00_00_00_00_00,
        84 => 0x04_00_00_00_00_00,
        85 => 0x00_00_02_00_00_00,
        86 => 0x00_00_01_00_00_00,
        87 => 0x00_18_06_00_00_00,
        88 => 0x00_00_03_00_00_00,
        89 => 0x05_00_00_00_00_00,
        90 => 0x07_00_00_00_00_00,
        91 => 0x00_00_02_00_00_00,
        92 => 0x00_00_01_00_00_00,
        93 => 0x00_19_05_00_00_00,
        94 => 0x00_1a_04_00_00_00,
        95 => 0x00_00_01_00_00_1a,
        96 => 0x00_00_03_00_00_00,
        97 => 0x08_00_00_00_00_00,
        98 => 0x25_14_04_00_00_00,
        99 => 0x2d_00_00_00_00_00,
        100 => 0x00_0b_04_00_00_00,
        101 => 0x00_0b_04_00_00_00,
        102 => 0x28_05_04_0b_00_00,
        103 => 0x04_00_00_00_00_00,
        104 => 0x0f_01_04_00_00_00,
        105 => 0x05_00_00_00_00_00,
        106 => 0x00_1b_04_00_00_00,
        107 => 0x04_00_00_00_00_00,
        108 => 0x00_01_04_00_00_00,
        109 => 0x2e_00_00_00_00_00,
        110 => 0x00_1c_04_00_00_00,
        111 => 0x2e_00_00_00_00_1d,
        112 => 0x00_1d_04_00_00_00,
        113 => 0x05_00_00_00_00_00,
        114 => 0x0f_01_04_00_00_00,
        115 => 0x0f_01_04_00_00_00,
        116 => 0x17_0b_04_00_1e_0b,
        117 => 0x26_00_00_00_1e_0b,
        118 => 0x0f_01_04_00_00_00,
        119 => 0x09_00_00_00_00_00,
        120 => 0x00_00_02_00_00_00,
        121 => 0x00_00_01_00_00_00,
        122 => 0x00_1f_05_00_00_00,
        123 => 0x00_00_03_00_00_00,
        124 => 0x0a_00_00_00_00_00,
        125 => 0x25_14_04_00_00_00,
        126 => 0x26_00_00_00_01_1e,
        127 => 0x0f_01_04_00_01_1e,
        128 => 0x01_00_00_00_00_00,
        129 => 0x00_00_01_00_00_00,
        130 => 0x0c_00_00_00_00_00,
        131 => 0x2f_20_04_00_00_00,
        132 => 0x30_00_00_00_00_00,
        133 => 0x0f_01_04_00_00_00,
        134 => 0x31_00_00_00_03_21,
        135 => 0x0f_03_04_00_03_21,
        136 => 0x0f_01_04_00_00_00,
        137 => 0x0f_01_04_00_00_00,
        138 => 0x17_0b_04_00_00_00,
        139 => 0x31_00_00_00_00_14,
        140 => 0x00_14_04_00_00_00,
        141 => 0x26_00_00_00_00_01,
        142 => 0x00_01_04_00_00_00,
        143 => 0x01_00_00_00_00_00,
        144 => 0x00_00_01_00_00_00,
        _ => 0,
    }
}

// The number that stands there; 0 is none.
fn option_at(code: u64, place: u32) -> Option<u32>
    requires { place < 64 }
    ensures { result ≡ option_at code place }
{
    match bits_at(code, place) {
        0 => None,
        w => Some(w),
    }
}

// What a piece prints, by its number.
pub fn what_in(k: u32) -> What
    ensures { result ≡ what_in k }
{
    match k {
        0 => What::Text,
        1 => What::Signal(Signal::NewLine),
        2 => What::Signal(Signal::StartIndent),
        3 => What::Signal(Signal::FinishIndent),
        4 => What::Part,
        5 => What::Each { ended: false },
        6 => What::Each { ended: true },
        _ => What::Plus,
    }
}

// The piece with a number.
pub fn entry_at(q: u32) -> Entry
    requires { q < piece_count }
    ensures { Coded q result }
{
    let code = piece_code(q);
    Entry {
        tested: code % CONDITION != 0,
        given: option_at(code, 0),
        other: option_at(code, 8),
        unless: option_at(code, 16),
        what: bits_at(code, 24),
        want: bits_at(code, 32),
        word: bits_at(code, 40),
    }
}

// The table of wanted parts: from the lowest bits on, their kinds, from .. to .. but for one, and which of them it is.
#[tactic(auto, unfolding(crate::specs::Rows::wants, tree::specs::Class::kinds))]
fn want_code(w: u32) -> u64
    requires { w < want_count }
    ensures { WantOf w result }
{
    match w {
        0 => 0x00_00_5d_5b,
        1 => 0x00_00_02_02,
        2 => 0x00_5c_5d_5b,
        3 => 0x01_00_02_02,
        4 => 0x00_00_5d_5c,
        5 => 0x00_00_56_49,
        6 => 0x00_00_57_57,
        7 => 0x00_00_58_58,
        8 => 0x00_00_1b_1a,
        9 => 0x00_00_22_20,
        10 => 0x00_00_59_59,
        11 => 0x00_00_2b_2b,
        12 => 0x00_00_35_35,
        13 => 0x00_00_6a_6a,
        14 => 0x00_00_36_36,
        15 => 0x00_00_31_31,
        16 => 0x00_00_67_67,
        17 => 0x00_00_2c_2c,
        18 => 0x00_00_2f_2f,
        19 => 0x00_00_34_34,
        20 => 0x00_00_26_23,
        21 => 0x00_00_33_33,
        22 => 0x00_00_2a_29,
        23 => 0x00_00_38_38,
        24 => 0x00_00_28_27,
        25 => 0x00_00_37_37,
        26 => 0x00_00_28_28,
        27 => 0x00_00_5a_5a,
        28 => 0x00_00_2d_2d,
        29 => 0x00_00_2e_2e,
        30 => 0x00_00_68_68,
        31 => 0x00_00_32_32,
        32 => 0x00_00_19_18,
        33 => 0x00_00_66_66,
        _ => 0,
    }
}

// The kinds of a wanted part.
pub fn kinds_wanted(w: u32) -> Kinds
    requires { w < want_count }
    ensures { result ≡ kinds (want_at w).class }
{
    let code = want_code(w);
    Kinds {
        lo: bits_at(code, 0),
        hi: bits_at(code, 8),
        but: option_at(code, 16),
    }
}

// Which of its kinds a wanted part is, from 0.
pub fn place_wanted(w: u32) -> u32
    requires { w < want_count }
    ensures { result ≡ (want_at w).place }
{
    bits_at(want_code(w), 24)
}

// The table of marks: for each kind the wanted parts whose class it is of.
#[tactic(auto, using(crate::proofs::Marking::marks_coded, crate::proofs::Marking::marks_beyond), unfolding(tree::specs::Class::kinds, tree::specs::Class::one_of, crate::specs::Rows::wants))]
pub fn marks_of(k: u32) -> u64
    ensures { MarksOf k result }
{
    match k {
        0 => 0x0,
        1 => 0x0,
        2 => 0xa,
        3 => 0x0,
        4 => 0x0,
        5 => 0x0,
        6 => 0x0,
        7 => 0x0,
        8 => 0x0,
        9 => 0x0,
        10 => 0x0,
        11 => 0x0,
        12 => 0x0,
        13 => 0x0,
        14 => 0x0,
        15 => 0x0,
        16 => 0x0,
        17 => 0x0,
        18 => 0x0,
        19 => 0x0,
        20 => 0x0,
        21 => 0x0,
        22 => 0x0,
        23 => 0x0,
        24 => 0x100000000,
        25 => 0x100000000,
        26 => 0x100,
        27 => 0x100,
        28 => 0x0,
        29 => 0x0,
        30 => 0x0,
        31 => 0x0,
        32 => 0x200,
        33 => 0x200,
        34 => 0x200,
        35 => 0x100000,
        36 => 0x100000,
        37 => 0x100000,
        38 => 0x100000,
        39 => 0x1000000,
        40 => 0x5000000,
        41 => 0x400000,
        42 => 0x400000,
        43 => 0x800,
        44 => 0x20000,
        45 => 0x10000000,
        46 => 0x20000000,
        47 => 0x40000,
        48 => 0x0,
        49 => 0x8000,
        50 => 0x80000000,
        51 => 0x200000,
        52 => 0x80000,
        53 => 0x1000,
        54 => 0x4000,
        55 => 0x2000000,
        56 => 0x800000,
        57 => 0x0,
        58 => 0x0,
        59 => 0x0,
        60 => 0x0,
        61 => 0x0,
        62 => 0x0,
        63 => 0x0,
        64 => 0x0,
        65 => 0x0,
        66 => 0x0,
        67 => 0x0,
        68 => 0x0,
        69 => 0x0,
        70 => 0x0,
        71 => 0x0,
        72 => 0x0,
        73 => 0x20,
        74 => 0x20,
        75 => 0x20,
        76 => 0x20,
        77 => 0x20,
        78 => 0x20,
        79 => 0x20,
        80 => 0x20,
        81 => 0x20,
        82 => 0x20,
        83 => 0x20,
        84 => 0x20,
        85 => 0x20,
        86 => 0x20,
        87 => 0x40,
        88 => 0x80,
        89 => 0x400,
        90 => 0x8000000,
        91 => 0x5,
        92 => 0x11,
        93 => 0x15,
        94 => 0x0,
        95 => 0x0,
        96 => 0x0,
        97 => 0x0,
        98 => 0x0,
        99 => 0x0,
        100 => 0x0,
        101 => 0x0,
        102 => 0x200000000,
        103 => 0x10000,
        104 => 0x40000000,
        105 => 0x0,
        106 => 0x2000,
        107 => 0x0,
        _ => 0,
    }
}
