// The items of comments: `format_comments`, one trivia token or custom error at a time.
#![tactic(auto)]

mod block;
mod plain;
mod rows;

ghost use Rattle.std.specs.Prelude.{◌≡◌};
ghost use Rattle.text.specs.Basic.{is_nil};
ghost use Rattle.items.specs.Machine.{SaysIn};
ghost use Rattle.comments.specs.Comments.{Location, inline, comment};
ghost use Rattle.comments.specs.Place.{place};

use items::Output;
use numbers::kind;

// Where a comment stands.
#[derive(Clone, Copy)]
pub enum CommentLocation {
    // Above local, field, other things.
    AboveItem,
    // After an item.
    ItemInline,
    // After all items of a list.
    EndOfItems,
}

fn is_inline(loc: CommentLocation) -> bool
    ensures { result ≡ inline (place loc) }
{
    matches!(loc, CommentLocation::ItemInline)
}

// Prints a trivia token, or a custom error, which is any other kind, given its kind and its text.
pub fn format_comment(out: &mut Output, kind: u32, s: &[u8], loc: CommentLocation)
    ensures { SaysIn out (comment kind s.now (place loc)) }
{
    match kind {
        kind::WHITESPACE => {}
        kind::MULTI_LINE_COMMENT => block::print_multi_line(out, s, loc),
        kind::ERROR_COMMENT_TOO_SHORT => out.print_text(b"/*/"),
        kind::ERROR_COMMENT_UNTERMINATED => out.print_text(s),
        kind::SINGLE_LINE_HASH_COMMENT => plain::print_single(out, b"# ", text::behind(s, 1), loc),
        kind::SINGLE_LINE_SLASH_COMMENT => plain::print_single(
            out,
            b"// ",
            text::behind(s, 2),
            loc,
        ),
        _ => plain::print_error(out, s),
    }
}

// Whether a trivia token, or a custom error, prints nothing, at any place.
pub fn is_silent(kind: u32, s: &[u8]) -> bool
    ensures { (loc : Location) → result ≡ is_nil (comment kind s.now loc) }
{
    match kind {
        kind::WHITESPACE => true,
        kind::MULTI_LINE_COMMENT => block::is_blank(s),
        kind::ERROR_COMMENT_TOO_SHORT => false,
        kind::ERROR_COMMENT_UNTERMINATED => false,
        kind::SINGLE_LINE_HASH_COMMENT => false,
        kind::SINGLE_LINE_SLASH_COMMENT => false,
        _ => s.len() == 0,
    }
}
