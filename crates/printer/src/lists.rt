// What stands around the children of a list, and what opens and closes one.
ghost use Rattle.std.specs.Prelude.{◌≡◌, ◌+◌, ◌*◌, ◌<◌, false, not, ◌&&◌, ◌==◌};
ghost use Rattle.text.specs.Basic.{is_nil};
ghost use Rattle.items.specs.Item.{newline, indent, outdent, ◌⨟◌, say, lit, when, keeping, condition_test};
ghost use Rattle.children.specs.Spans.{Lies};
ghost use Rattle.comments.specs.Place.{place};
ghost use Rattle.plan.specs.Comments.{comments};
ghost use Rattle.plan.specs.Words.{word_at, Word, word_count};
ghost use Rattle.plan.specs.Plans.{PlansIn, PlansAny};
ghost use Rattle.printer.specs.Combine.{newline_if, only_if, comma, separator, ending, test_of};
ghost use Rattle.printer.specs.Lists.{on_line, behind_it, above, open_list, end_body, repeat_body, close_bracket, close_list, close_arguments, opener_of, closer_of, child_of, empty_text, open_text, close_text};
ghost use Rattle.printer.specs.Clauses.{gap_in, ending_in, following_in};

use children::gap::{Span, at_child};
use children::newlines::blank_line;
use children::survey::{Outline, nothing_waits};
use comments::CommentLocation;
use items::{Condition, Signal};
use numbers::{Mark, Run};
use plan::Planner;
use plan::notes::{plan_inline, plan_waiting};
use plan::words::{
    COMMA, EMPTY_ARRAY, EMPTY_OBJECT, LEFT_BRACE, LEFT_BRACKET, LOCAL, RIGHT_BRACE, RIGHT_BRACKET,
    SPACE,
};
use tree::Tree;
use tree::class::Class;

// The kinds of lists: elements of an array or members of an object; arguments; members of an object comprehension, and its
// CompSpecs; binds.
#[derive(Clone, Copy)]
pub enum Style {
    Elements,
    Arguments,
    Members,
    Specs,
    Binds,
}

// A newline, if it is asked for.
pub fn newline_if(planner: &mut Planner, b: bool)
    ensures { PlansAny planner (newline_if b) }
{
    if b {
        planner.plan_signal(Signal::NewLine);
    }
}

// A comma, where a test holds.
fn trailing_comma(planner: &mut Planner, t: Condition)
    ensures { PlansAny planner (only_if (condition_test t) (lit ",")) }
{
    planner.plan_if(t);
    planner.plan_word(COMMA);
    planner.plan_signal(Signal::EndIf);
}

// A newline where a test holds, else a space or newline.
fn separator(planner: &mut Planner, t: Condition)
    ensures { PlansAny planner (separator (condition_test t)) }
{
    planner.plan_if(t);
    planner.plan_signal(Signal::NewLine);
    planner.plan_signal(Signal::Else);
    planner.plan_signal(Signal::SpaceOrNewLine);
    planner.plan_signal(Signal::EndIf);
}

// A comma where more children follow, else one where a test holds.
fn comma(planner: &mut Planner, more: bool, t: Condition)
    ensures { PlansAny planner (comma more (condition_test t)) }
{
    if more {
        planner.plan_word(COMMA);
        return;
    }
    trailing_comma(planner, t);
}

// What follows a child on its line.
fn on_line(planner: &mut Planner, style: Style, t: Condition, more: bool)
    ensures { PlansAny planner (on_line style (condition_test t) more) }
{
    match style {
        Style::Elements => comma(planner, more, t),
        Style::Arguments => comma(planner, more, t),
        Style::Members => trailing_comma(planner, t),
        Style::Specs => {}
        Style::Binds => planner.plan_word(COMMA),
    }
}

// A separator, if more children follow.
fn separator_if(planner: &mut Planner, more: bool, t: Condition)
    ensures { PlansAny planner (when more (separator (condition_test t))) }
{
    if more {
        separator(planner, t);
    }
}

// What stands behind a child and its comments.
fn behind_it(planner: &mut Planner, style: Style, t: Condition, more: bool)
    ensures { PlansAny planner (behind_it style (condition_test t) more) }
{
    match style {
        Style::Elements => separator(planner, t),
        Style::Arguments => separator_if(planner, more, t),
        Style::Members => separator(planner, t),
        Style::Specs => separator(planner, t),
        Style::Binds => planner.plan_signal(Signal::NewLine),
    }
}

// What stands before a child: a blank line and the comments above it.
pub fn plan_above(planner: &mut Planner, tree: &Tree, s: Span)
    requires { Lies tree.now.image tree.now.index s }
    ensures { PlansIn planner tree (above (gap_in tree s)) }
{
    let blank = blank_line(tree, s);
    newline_if(planner, blank);
    plan_waiting(planner, tree, s, CommentLocation::AboveItem);
}

// What waits in a gap, if it is kept.
pub fn keep_waiting(planner: &mut Planner, tree: &Tree, s: Span, loc: CommentLocation)
    requires { Lies tree.now.image tree.now.index s }
    ensures { PlansIn planner tree (keeping (comments (gap_in tree s).waiting (place loc))) }
{
    if planner.is_keeping() {
        plan_waiting(planner, tree, s, loc);
    }
}

// The inline trivia of a gap, if it is kept. As one function this and `keep_waiting` would take the call that differs as a closure, whose
// contract is longer than both.
pub fn keep_inline(planner: &mut Planner, tree: &Tree, g: Span, loc: CommentLocation)
    requires { Lies tree.now.image tree.now.index g }
    ensures { PlansIn planner tree (keeping (comments (gap_in tree g).inline (place loc))) }
{
    if planner.is_keeping() {
        plan_inline(planner, tree, g, loc);
    }
}

// What follows a child, with the gap behind it.
pub fn plan_behind(planner: &mut Planner, tree: &Tree, g: Span, style: Style, t: Condition)
    requires { Lies tree.now.image tree.now.index g }
    ensures { PlansIn planner tree (following_in tree style t g) }
{
    let more = at_child(g);
    on_line(planner, style, t, more);
    plan_inline(planner, tree, g, CommentLocation::ItemInline);
    behind_it(planner, style, t, more);
}

// end_comments: a blank line, if one is asked for, and the comments behind the last child.
pub fn plan_ending(planner: &mut Planner, tree: &Tree, o: Outline)
    requires { Lies tree.now.image tree.now.index o.last }
    ensures { PlansIn planner tree (ending (ending_in tree o)) }
{
    newline_if(planner, o.blank);
    let last = o.last;
    plan_waiting(planner, tree, last, CommentLocation::EndOfItems);
}

// The test for many lines of list k.
pub fn test_of(many: bool, k: Run) -> Condition
    ensures { condition_test result ≡ test_of many k.0 }
{
    if many {
        return Condition::Always;
    }
    Condition::Lines(first_mark(k))
}

// The first line mark of list k.
fn first_mark(k: Run) -> Mark
    ensures { result.0 ≡ 2 * k.0 }
{
    Mark(2 * (k.0 as u64))
}

// The second line mark of list k: by a name of its own, which says more than a number or a test at a call.
fn second_mark(k: Run) -> Mark
    ensures { result.0 ≡ 2 * k.0 + 1 }
{
    Mark(2 * (k.0 as u64) + 1)
}

// Opens list k: its bracket and first mark, the branch of many lines, its run and a group.
pub fn open_list(planner: &mut Planner, bracket: u32, k: Run, t: Condition)
    requires { bracket < word_count }
    ensures { PlansAny planner (open_list (word_at bracket) k.0 (condition_test t)) }
{
    planner.plan_word(bracket);
    planner.plan_mark(first_mark(k));
    planner.plan_if(t);
    planner.plan_signal(Signal::StartBlock);
    planner.plan_signal(Signal::NewLine);
    planner.open_run();
    planner.plan_signal(Signal::StartGroup);
}

// Ends the group and the run of list k, and its block.
fn end_body(planner: &mut Planner, k: Run)
    ensures { PlansAny planner (end_body k.0) }
{
    planner.plan_signal(Signal::FinishGroup);
    planner.end_run(k);
    planner.plan_signal(Signal::FinishBlock);
}

// Repeats the body of list k, and ends the branches.
fn repeat_body(planner: &mut Planner, k: Run)
    ensures { PlansAny planner (repeat_body k.0) }
{
    planner.plan_again(k);
    planner.plan_signal(Signal::EndIf);
}

// Closes the bracket of list k.
fn close_bracket(planner: &mut Planner, bracket: u32, k: Run)
    requires { bracket < word_count }
    ensures { PlansAny planner (close_bracket (word_at bracket) k.0) }
{
    planner.plan_word(bracket);
    planner.plan_mark(second_mark(k));
}

// Closes a list made by with_indent_eoi, behind its inner group.
pub fn close_list(planner: &mut Planner, tree: &Tree, bracket: u32, k: Run, o: Outline)
    requires word { bracket < word_count }
    requires lies { Lies tree.now.image tree.now.index o.last }
    ensures { PlansIn planner tree (close_list (word_at bracket) k.0 (ending_in tree o)) }
{
    planner.plan_signal(Signal::FinishGroup);
    plan_ending(planner, tree, o);
    end_body(planner, k);
    planner.plan_signal(Signal::Else);
    planner.plan_word(SPACE);
    repeat_body(planner, k);
    close_bracket(planner, bracket, k);
}

// Closes a list of arguments.
pub fn close_arguments(planner: &mut Planner, tree: &Tree, bracket: u32, k: Run, o: Outline)
    requires word { bracket < word_count }
    requires lies { Lies tree.now.image tree.now.index o.last }
    ensures { PlansIn planner tree (close_arguments (word_at bracket) k.0 (ending_in tree o)) }
{
    end_body(planner, k);
    planner.plan_signal(Signal::NewLine);
    planner.plan_signal(Signal::Else);
    repeat_body(planner, k);
    plan_ending(planner, tree, o);
    close_bracket(planner, bracket, k);
}

// Lists with a text of their own where they are empty: the elements of an array, the members of an object.
#[derive(Clone, Copy)]
pub enum ListKind {
    Array,
    Object,
}

// What a list begins with.
pub fn opener(l: ListKind) -> Class
    ensures { result ≡ opener_of l }
{
    match l {
        ListKind::Array => Class::LBrack,
        ListKind::Object => Class::LBrace,
    }
}

// What a list ends with.
pub fn closer(l: ListKind) -> Class
    ensures { result ≡ closer_of l }
{
    match l {
        ListKind::Array => Class::RBrack,
        ListKind::Object => Class::RBrace,
    }
}

// The children of a list.
pub fn child_class(l: ListKind) -> Class
    ensures { result ≡ child_of l }
{
    match l {
        ListKind::Array => Class::Expr,
        ListKind::Object => Class::Member,
    }
}

// The text of an empty list.
pub fn empty_word(l: ListKind) -> u32
    ensures { Word result (empty_text l) }
{
    match l {
        ListKind::Array => EMPTY_ARRAY,
        ListKind::Object => EMPTY_OBJECT,
    }
}

// The text that opens a list.
pub fn open_word(l: ListKind) -> u32
    ensures { Word result (open_text l) }
{
    match l {
        ListKind::Array => LEFT_BRACKET,
        ListKind::Object => LEFT_BRACE,
    }
}

// The text that closes a list.
pub fn close_word(l: ListKind) -> u32
    ensures { Word result (close_text l) }
{
    match l {
        ListKind::Array => RIGHT_BRACKET,
        ListKind::Object => RIGHT_BRACE,
    }
}

// Whether a list prints as empty: no child, no blank line and nothing behind.
pub fn is_empty(tree: &Tree, o: Outline) -> bool
    requires { Lies tree.now.image tree.now.index o.last }
    ensures { result ≡ ((o.children == 0 && not o.blank) && is_nil (gap_in tree o.last).waiting) }
{
    let last = o.last;
    let nothing = nothing_waits(tree, last);
    (o.children == 0) & !o.blank & nothing
}

// A gap before which nothing came: its child asks for no blank line.
pub fn unasked(s: Span) -> Span
    ensures { result ≡ record { from = s.from; cut = s.cut; to = s.to; had = false; end = s.end; tally = s.tally } }
{
    Span { had: false, ..s }
}

// Opens a local statement with no bind, or with several.
pub fn open_binds(planner: &mut Planner)
    ensures { PlansAny planner (lit "local" ⨟ say indent ⨟ say newline) }
{
    planner.plan_word(LOCAL);
    planner.plan_signal(Signal::StartIndent);
    planner.plan_signal(Signal::NewLine);
}

// Closes it.
pub fn close_binds(planner: &mut Planner, tree: &Tree, o: Outline)
    requires { Lies tree.now.image tree.now.index o.last }
    ensures { PlansIn planner tree (ending (ending_in tree o) ⨟ say outdent) }
{
    plan_ending(planner, tree, o);
    planner.plan_signal(Signal::FinishIndent);
}
