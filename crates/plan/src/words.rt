// The texts of the formatter's own, by their numbers, which operations have as operands. A number comes out of a packed table or is one of
// these constants, so that it is no type of its own: planners ask that it is one of `WORDS`.
ghost use Rattle.std.specs.Prelude.{◌≡◌, ◌≤◌};
ghost use Rattle.text.specs.Basic.{ascii};
ghost use Rattle.text.specs.Words.{joined_words, word_start};
ghost use Rattle.plan.specs.Words.{words, word_at, word_count};

pub const COMMA: u32 = 1;

pub const SPACE: u32 = 2;

pub const EMPTY_ARRAY: u32 = 3;

pub const LEFT_BRACKET: u32 = 4;

pub const RIGHT_BRACKET: u32 = 5;

pub const EMPTY_OBJECT: u32 = 6;

pub const LEFT_BRACE: u32 = 7;

pub const RIGHT_BRACE: u32 = 8;

pub const LEFT_PAREN: u32 = 9;

pub const RIGHT_PAREN: u32 = 10;

pub const LOCAL: u32 = 11;

pub const LOCAL_SPACE: u32 = 12;

pub const SEMICOLON: u32 = 13;

pub const MISSING_EXPR_BASE: u32 = 14;

pub const MISSING_EXPR: u32 = 15;

// How many there are.
pub const WORDS: u32 = 50;

// All of them joined.
pub const ALL: [u8; 506] =
    *b", [ ][]{ }{}()locallocal ;/*missing ExprBase*//*missing Expr*//*missing BinaryOperator*//*missing UnaryOperator*//*missing Text*//*missing Number*//*missing Literal*//*missing ObjBody*//*missing ImportKind*//*missing Name*/if  then /*missing core::option::Option<Expr>*/ else function/*missing ParamsDesc*/error ?..?/*missing SliceDesc*//*missing ArgsDesc*//*missing Assertion*//*missing Destruct*/ = /*missing ObjLocal*//*missing FieldName*//*missing Visibility*/for  in for [...:/*missing Bind*/assert : ";

// Where the text with a number starts among all of them joined, which is where the one before it ends. A match of constants is one
// load from a table that lies ready.
#[tactic(auto, using(crate::proofs::Texts::starts), unfolding(crate::specs::Words::words))]
fn start_of(w: u32) -> usize
    requires { w ≤ word_count }
    ensures { result ≡ word_start words w }
{
    match w {
        0 => 0,
        1 => 0,
        2 => 1,
        3 => 2,
        4 => 5,
        5 => 6,
        6 => 7,
        7 => 10,
        8 => 11,
        9 => 12,
        10 => 13,
        11 => 14,
        12 => 19,
        13 => 25,
        14 => 26,
        15 => 46,
        16 => 62,
        17 => 88,
        18 => 113,
        19 => 129,
        20 => 147,
        21 => 166,
        22 => 185,
        23 => 207,
        24 => 223,
        25 => 226,
        26 => 232,
        27 => 270,
        28 => 276,
        29 => 284,
        30 => 306,
        31 => 312,
        32 => 313,
        33 => 314,
        34 => 316,
        35 => 337,
        36 => 357,
        37 => 378,
        38 => 398,
        39 => 401,
        40 => 421,
        41 => 442,
        42 => 464,
        43 => 468,
        44 => 472,
        45 => 477,
        46 => 480,
        47 => 481,
        48 => 497,
        49 => 504,
        50 => 506,
        _ => 0,
    }
}

// The text with a number among all of them joined; behind the last one there is none.
pub(crate) fn word_in(all: &[u8], w: u32) -> &[u8]
    requires { all.now ≡ joined_words words }
    ensures { result.now ≡ ascii (word_at w) }
{
    if WORDS <= w {
        return &all[0..0];
    }
    let start = start_of(w);
    let end = start_of(w + 1);
    &all[start..end]
}
