// The kinds of elements that the code names, by the Rust's names; nodes first, then tokens. `Operator` tokens: binary only, unary only, either.
// Numbers and no enum: an image and its lent index hold numbers, and a class of kinds is a range of them.

// Nodes: 1 to 56.
pub const FIRST_NODE: u32 = SOURCE_FILE;

pub const LAST_NODE: u32 = VISIBILITY;

pub const SOURCE_FILE: u32 = 1;

pub const EXPR: u32 = 2;

pub const EXPR_BINARY: u32 = 3;

pub const EXPR_ARRAY: u32 = 10;

pub const EXPR_ERROR: u32 = 17;

pub const SUFFIX_INDEX: u32 = 18;

pub const SUFFIX_APPLY: u32 = 21;

pub const STMT_LOCAL: u32 = 22;

pub const STMT_ASSERT: u32 = 23;

pub const BIND_DESTRUCT: u32 = 24;

pub const BIND_FUNCTION: u32 = 25;

pub const OBJ_BODY_COMP: u32 = 26;

pub const OBJ_BODY_MEMBER_LIST: u32 = 27;

pub const MEMBER_BIND_STMT: u32 = 28;

pub const MEMBER_ASSERT_STMT: u32 = 29;

pub const MEMBER_FIELD_METHOD: u32 = 31;

pub const FOR_SPEC: u32 = 32;

pub const IF_SPEC: u32 = 34;

pub const DESTRUCT_FULL: u32 = 35;

pub const DESTRUCT_OBJECT: u32 = 38;

pub const DESTRUCT_ARRAY_ELEMENT: u32 = 39;

pub const DESTRUCT_REST: u32 = 40;

pub const FIELD_NAME_FIXED: u32 = 41;

pub const FIELD_NAME_DYNAMIC: u32 = 42;

pub const NAME: u32 = 43;

pub const SLICE_DESC: u32 = 44;

pub const SLICE_DESC_END: u32 = 45;

pub const SLICE_DESC_STEP: u32 = 46;

pub const ARGS_DESC: u32 = 47;

pub const ARG: u32 = 48;

pub const PARAMS_DESC: u32 = 49;

pub const PARAM: u32 = 50;

pub const OBJ_LOCAL: u32 = 51;

pub const ASSERTION: u32 = 52;

pub const TRUE_EXPR: u32 = 53;

pub const FALSE_EXPR: u32 = 54;

pub const DESTRUCT_OBJECT_FIELD: u32 = 55;

pub const VISIBILITY: u32 = 56;

// Tokens: 64 to 107; `TriviaKind`, `CustomErrorKind` and `TextKind` in order, and then the others.
pub const FIRST_TOKEN: u32 = WHITESPACE;

pub const LAST_TOKEN: u32 = OTHER;

pub const WHITESPACE: u32 = 64;

pub const MULTI_LINE_COMMENT: u32 = 65;

pub const ERROR_COMMENT_TOO_SHORT: u32 = 66;

pub const ERROR_COMMENT_UNTERMINATED: u32 = 67;

pub const SINGLE_LINE_HASH_COMMENT: u32 = 68;

pub const SINGLE_LINE_SLASH_COMMENT: u32 = 69;

pub const ERROR_MISSING_TOKEN: u32 = 70;

pub const ERROR_CUSTOM: u32 = 72;

pub const STRING_DOUBLE: u32 = 73;

pub const STRING_BLOCK: u32 = 82;

pub const ERROR_STRING_BLOCK_MISSING_INDENT: u32 = 86;

pub const NUMBER: u32 = 87;

pub const LITERAL: u32 = 88;

pub const IMPORT_KIND: u32 = 89;

pub const IDENT: u32 = 90;

pub const BINARY_ONLY: u32 = 91;

pub const UNARY_ONLY: u32 = 92;

pub const EITHER: u32 = 93;

pub const COMMA: u32 = 94;

pub const SEMI: u32 = 95;

pub const L_PAREN: u32 = 96;

pub const R_PAREN: u32 = 97;

pub const L_BRACK: u32 = 98;

pub const R_BRACK: u32 = 99;

pub const L_BRACE: u32 = 100;

pub const R_BRACE: u32 = 101;

pub const COLON: u32 = 102;

pub const QUESTION: u32 = 103;

pub const ASSIGN: u32 = 104;

pub const LOCAL: u32 = 105;

pub const ELSE: u32 = 106;

pub const OTHER: u32 = 107;
