// Classes of kinds, as accessors and readings look for them.
ghost use Rattle.std.specs.Prelude.{◌≡◌};
ghost use Rattle.tree.specs.Class.{from, only, without, kinds, one_of};

use numbers::kind;

// What accessors and readings look for.
#[derive(Clone, Copy)]
pub enum Class {
    Expr,
    ExprBase,
    Suffix,
    Stmt,
    Bind,
    ObjBody,
    Member,
    MemberComp,
    CompSpec,
    Destruct,
    DestructArrayPart,
    FieldName,
    Name,
    SliceDesc,
    SliceDescEnd,
    SliceDescStep,
    ArgsDesc,
    Arg,
    ParamsDesc,
    Param,
    ObjLocal,
    Assertion,
    TrueExpr,
    FalseExpr,
    DestructObjectField,
    DestructRest,
    Visibility,
    Trivia,
    CustomError,
    SingleLine,
    Separator,
    Text,
    Number,
    Literal,
    ImportKind,
    Ident,
    Operator,
    BinaryOperator,
    UnaryOperator,
    Semi,
    LParen,
    RParen,
    LBrack,
    RBrack,
    LBrace,
    RBrace,
    Colon,
    Question,
    Assign,
    Local,
    Else,
}

// The kinds of a class: from lo to hi, but for one, if any.
#[derive(Clone, Copy)]
pub struct Kinds {
    pub lo: u32,
    pub hi: u32,
    pub but: Option<u32>,
}

// All kinds from lo to hi.
fn from(lo: u32, hi: u32) -> Kinds
    ensures { result ≡ from lo hi }
{
    Kinds { lo, hi, but: None }
}

// One kind.
fn only(k: u32) -> Kinds
    ensures { result ≡ only k }
{
    from(k, k)
}

// All kinds from lo to hi, but for one.
fn without(lo: u32, hi: u32, but: u32) -> Kinds
    ensures { result ≡ without lo hi but }
{
    Kinds {
        lo,
        hi,
        but: Some(but),
    }
}

// The kinds of a class: a function by name, since a call that says `from` or `into` says no class.
#[tactic(auto, unfolding(crate::specs::Class::kinds))]
pub fn kinds_of(c: Class) -> Kinds
    ensures { result ≡ kinds c }
{
    match c {
        Class::Expr => only(kind::EXPR),
        Class::ExprBase => from(kind::EXPR_BINARY, kind::EXPR_ERROR),
        Class::Suffix => from(kind::SUFFIX_INDEX, kind::SUFFIX_APPLY),
        Class::Stmt => from(kind::STMT_LOCAL, kind::STMT_ASSERT),
        Class::Bind => from(kind::BIND_DESTRUCT, kind::BIND_FUNCTION),
        Class::ObjBody => from(kind::OBJ_BODY_COMP, kind::OBJ_BODY_MEMBER_LIST),
        Class::Member => from(kind::MEMBER_BIND_STMT, kind::MEMBER_FIELD_METHOD),
        Class::MemberComp => without(
            kind::MEMBER_BIND_STMT,
            kind::MEMBER_FIELD_METHOD,
            kind::MEMBER_ASSERT_STMT,
        ),
        Class::CompSpec => from(kind::FOR_SPEC, kind::IF_SPEC),
        Class::Destruct => from(kind::DESTRUCT_FULL, kind::DESTRUCT_OBJECT),
        Class::DestructArrayPart => from(kind::DESTRUCT_ARRAY_ELEMENT, kind::DESTRUCT_REST),
        Class::FieldName => from(kind::FIELD_NAME_FIXED, kind::FIELD_NAME_DYNAMIC),
        Class::Name => only(kind::NAME),
        Class::SliceDesc => only(kind::SLICE_DESC),
        Class::SliceDescEnd => only(kind::SLICE_DESC_END),
        Class::SliceDescStep => only(kind::SLICE_DESC_STEP),
        Class::ArgsDesc => only(kind::ARGS_DESC),
        Class::Arg => only(kind::ARG),
        Class::ParamsDesc => only(kind::PARAMS_DESC),
        Class::Param => only(kind::PARAM),
        Class::ObjLocal => only(kind::OBJ_LOCAL),
        Class::Assertion => only(kind::ASSERTION),
        Class::TrueExpr => only(kind::TRUE_EXPR),
        Class::FalseExpr => only(kind::FALSE_EXPR),
        Class::DestructObjectField => only(kind::DESTRUCT_OBJECT_FIELD),
        Class::DestructRest => only(kind::DESTRUCT_REST),
        Class::Visibility => only(kind::VISIBILITY),
        Class::Trivia => from(kind::WHITESPACE, kind::SINGLE_LINE_SLASH_COMMENT),
        Class::CustomError => from(kind::ERROR_MISSING_TOKEN, kind::ERROR_CUSTOM),
        Class::SingleLine => from(
            kind::SINGLE_LINE_HASH_COMMENT,
            kind::SINGLE_LINE_SLASH_COMMENT,
        ),
        Class::Separator => from(kind::COMMA, kind::SEMI),
        Class::Text => from(kind::STRING_DOUBLE, kind::ERROR_STRING_BLOCK_MISSING_INDENT),
        Class::Number => only(kind::NUMBER),
        Class::Literal => only(kind::LITERAL),
        Class::ImportKind => only(kind::IMPORT_KIND),
        Class::Ident => only(kind::IDENT),
        Class::Operator => from(kind::BINARY_ONLY, kind::EITHER),
        Class::BinaryOperator => without(kind::BINARY_ONLY, kind::EITHER, kind::UNARY_ONLY),
        Class::UnaryOperator => from(kind::UNARY_ONLY, kind::EITHER),
        Class::Semi => only(kind::SEMI),
        Class::LParen => only(kind::L_PAREN),
        Class::RParen => only(kind::R_PAREN),
        Class::LBrack => only(kind::L_BRACK),
        Class::RBrack => only(kind::R_BRACK),
        Class::LBrace => only(kind::L_BRACE),
        Class::RBrace => only(kind::R_BRACE),
        Class::Colon => only(kind::COLON),
        Class::Question => only(kind::QUESTION),
        Class::Assign => only(kind::ASSIGN),
        Class::Local => only(kind::LOCAL),
        Class::Else => only(kind::ELSE),
    }
}

// Whether k is one of the kinds.
#[tactic(auto, unfolding(crate::specs::Class::one_of))]
pub fn is(w: Kinds, k: u32) -> bool
    ensures { result ≡ one_of w k }
{
    (w.lo..=w.hi).contains(&k) & (w.but != Some(k))
}
