// The printers, which call one another round the tree: the number of elements under the node falls, or stays the same on
// the way from a node to its list or row.
ghost use Rattle.std.specs.Prelude.{◌≡◌, ◌<◌, [], ◌∷◌, length};
ghost use Rattle.std.proofs.Math.Option.{none, some};
ghost use Rattle.items.specs.Item.{newline, ◌⨟◌, say, lit};
ghost use Rattle.tree.specs.Answer.{found};
ghost use Rattle.tree.specs.declared.class.Class.TheVariants.{ExprBase, Stmt, Suffix, Arg, LParen, RParen, Member, CompSpec, Bind, Local, Semi};
ghost use Rattle.tree.specs.Class.{kinds, first};
ghost use Rattle.tree.specs.Index.{kind_at};
ghost use Rattle.children.specs.Reading.{enclosed};
ghost use Rattle.children.specs.Spans.{Lies, gap_at};
ghost use Rattle.plan.specs.Words.{word_or_none, word_count};
ghost use Rattle.printer.specs.declared.lists.Style.TheVariants.{Specs};
ghost use Rattle.printer.specs.Layout.{layout};
ghost use Rattle.printer.specs.Print.{what, row, children, list, arguments, comp_of, comprehension, local_of, statements_of, values_of, expression};
ghost use Rattle.printer.specs.Rows.{piece_at, tested, want_count, piece_count, Marks};
ghost use Rattle.printer.specs.Under.{Kid, print_of};
ghost use Rattle.printer.specs.Walked.{Outlined};
ghost use Rattle.printer.specs.Reads.{number_or, Has, Within, read_at, Whole, kids_in, Walks};
ghost use Rattle.printer.specs.Clauses.{PlansOf, trailing_in, parts_in, under_in, read_in, part_in, piece_in, each_in, children_in, walked_in, around_in, stated_in, list_in};

use super::lists::{
    ListKind, Style, child_class, close_arguments, close_binds, close_list, close_word, closer,
    empty_word, is_empty, keep_inline, keep_waiting, newline_if, open_binds, open_list, open_word,
    opener, plan_above, plan_behind, test_of, unasked,
};
use super::node::Node;
use super::pieces::plan_end;
use super::rows::{Entry, What, entry_at, kinds_wanted, row_of, what_in};
use children::between::Bounds;
use children::gap::{Span, at_child, gap, lead};
use children::survey::{Outline, is_stopped, survey, survey_after};
use comments::CommentLocation;
use items::{Condition, Signal};
use numbers::{Element, kind};
use plan::notes::plan_waiting;
use plan::{Planner, words};
use tree::class::{Class, is, kinds_of};

// A node or token.
#[cycle(printers)]
fn node(planner: &mut Planner, n: Node)
    ensures { PlansOf planner n.entry (print_of n.entry.tree.now.image n.entry.element.0) }
{
    let k = n.tree.kind_at(n.element.0);
    if k >= kind::FIRST_TOKEN {
        planner.plan_token(n.element);
        return;
    }
    match k {
        kind::EXPR => expr(planner, n),
        kind::EXPR_ARRAY => list(planner, n, ListKind::Array),
        kind::STMT_LOCAL => local(planner, n),
        kind::OBJ_BODY_COMP => comp(planner, n),
        kind::OBJ_BODY_MEMBER_LIST => list(planner, n, ListKind::Object),
        kind::ARGS_DESC => args(planner, n),
        kind::VISIBILITY => planner.plan_token(n.element),
        _ => row(planner, n),
    }
}

// A node with a fixed layout: the pieces of its row.
#[cycle(printers)]
fn row(planner: &mut Planner, n: Node)
    requires { kind_at n.tree.now.index n.element.0 < 64 }
    ensures { PlansOf planner n.entry (row (under_in n.entry) (parts_in n.entry) (layout (kind_at n.entry.tree.now.index n.entry.element.0))) }
{
    let e = row_of(n.tree.kind_at(n.element.0));
    let m = n.marks_in(e.marks);
    for k in e.start..e.end {
        piece(planner, n, m, k);
    }
}

// Piece k of the row of a node, whose parts have the marks m.
#[cycle(printers)]
fn piece(planner: &mut Planner, n: Node, m: u64, k: u32)
    requires marks { Marks (parts_in n) (tested (piece_at k)) m }
    requires known { k < piece_count }
    ensures { PlansOf planner n.entry (piece_in n.entry (piece_at k)) }
{
    let x = entry_at(k);
    if !n.is_asked(m, x) {
        return;
    }
    match what_in(x.what) {
        What::Text => planner.plan_word(x.word),
        What::Signal(s) => planner.plan_signal(s),
        What::Each { ended } => each(planner, n, x, ended),
        What::Part => {
            let f = n.wanted_part(m, x.want);
            part(planner, n, f, x.word);
        }
        What::Plus => {
            let f = n.plus_part(m);
            part(planner, n, f, x.word);
        }
    }
}

// A part of a node, or the text that says what is missing.
#[cycle(printers)]
pub fn part(planner: &mut Planner, n: Node, f: Option<Element>, missing: u32)
    requires has { Has (parts_in n) (found f) }
    requires word { missing < word_count }
    ensures { PlansOf planner n.entry (number_or (under_in n.entry) (word_or_none missing) (found f)) }
{
    match f {
        Some(j) => node(
            planner,
            Node {
                tree: n.tree,
                element: j,
            },
        ),
        None => planner.plan_optional(missing),
    }
}

// All parts of a class of a node; ended: each before a comma and a newline.
#[cycle(printers)]
fn each(planner: &mut Planner, n: Node, x: Entry, ended: bool)
    requires want { x.want < want_count }
    requires word { x.word < word_count }
    ensures { PlansOf planner n.entry (each_in n.entry x ended (parts_in n.entry)) }
{
    let a = n.start();
    let b = n.end();
    for j in n.tree.siblings(a, b) {
        one(planner, n, j, x, ended);
    }
}

// Element j under a node, if it is of the class.
#[cycle(printers)]
fn one(planner: &mut Planner, n: Node, j: Element, x: Entry, ended: bool)
    requires kid { Kid n.tree.now.image n.tree.now.index n.element.0 j.0 }
    requires want { x.want < want_count }
    requires word { x.word < word_count }
    ensures { PlansOf planner n.entry (each_in n.entry x ended (part_in n.entry j.0 ∷ [])) }
{
    if !is(kinds_wanted(x.want), n.tree.kind_at(j.0)) {
        return;
    }
    planner.plan_optional(x.word);
    node(
        planner,
        Node {
            tree: n.tree,
            element: j,
        },
    );
    plan_end(planner, ended);
}

// An expression: statements, the expression at its base, suffixes.
#[cycle(printers)]
fn expr(planner: &mut Planner, n: Node)
    ensures { PlansOf planner n.entry (expression (under_in n.entry) (parts_in n.entry) (first ExprBase (parts_in n.entry))) }
{
    let base = n.first_of(Class::ExprBase);
    let y = n.between(None, base);
    let z = n.between(base, None);
    stmts(planner, n, y);
    part(planner, n, base, words::MISSING_EXPR_BASE);
    values(planner, n, z);
}

// The statements of a reading of a node, with the comments that are kept. Most readings have no element.
#[cycle(printers)]
fn stmts(planner: &mut Planner, n: Node, z: Bounds)
    requires { Within n.tree.now.image n.tree.now.index n.element.0 z }
    ensures { PlansOf planner n.entry (statements_of (under_in n.entry) (read_in n.entry Stmt z none)) }
{
    if z.to <= z.from {
        return;
    }
    let w = kinds_of(Class::Stmt);
    let o = survey(n.tree, w, z);
    if is_stopped(o) {
        planner.stop_at(Element(o.last.to));
        return;
    }
    let mut s = gap(n.tree, w, z, false, z.from);
    while at_child(s) {
        let g = gap(n.tree, w, z, true, n.tree.end_at(s.to));
        stmt(planner, n, s, Element(s.to), g);
        s = g;
    }
    let last = o.last;
    keep_waiting(planner, n.tree, last, CommentLocation::EndOfItems);
}

// Statement j of a node, with the gaps before and behind it.
#[cycle(printers)]
fn stmt(planner: &mut Planner, n: Node, s: Span, j: Element, g: Span)
    requires kid { Kid n.tree.now.image n.tree.now.index n.element.0 j.0 }
    requires before { Lies n.tree.now.image n.tree.now.index s }
    requires behind { Lies n.tree.now.image n.tree.now.index g }
    ensures { PlansOf planner n.entry (stated_in n.entry s j.0 g) }
{
    keep_waiting(planner, n.tree, s, CommentLocation::AboveItem);
    node(
        planner,
        Node {
            tree: n.tree,
            element: j,
        },
    );
    keep_inline(planner, n.tree, g, CommentLocation::EndOfItems);
}

// The suffixes of a reading of a node, without their comments. Most readings have no element. `stmts` begins alike, but hands on the gap behind
// each child, and prints what is left at the end.
#[cycle(printers)]
fn values(planner: &mut Planner, n: Node, z: Bounds)
    requires { Within n.tree.now.image n.tree.now.index n.element.0 z }
    ensures { PlansOf planner n.entry (values_of (under_in n.entry) (read_in n.entry Suffix z none)) }
{
    if z.to <= z.from {
        return;
    }
    let w = kinds_of(Class::Suffix);
    let o = survey(n.tree, w, z);
    if is_stopped(o) {
        planner.stop_at(Element(o.last.to));
        return;
    }
    let mut s = gap(n.tree, w, z, false, z.from);
    while at_child(s) {
        node(
            planner,
            Node {
                tree: n.tree,
                element: Element(s.to),
            },
        );
        s = gap(n.tree, w, z, true, n.tree.end_at(s.to));
    }
}

// The children of a reading of a node, with their comments, from a gap on.
#[cycle(printers)]
fn kids(
    planner: &mut Planner,
    n: Node,
    c: Class,
    z: Bounds,
    first: Span,
    style: Style,
    t: Condition,
)
    requires { Walks n.tree.now.image n.tree.now.index n.element.0 (kinds c) z.loose z.to first }
    ensures { PlansOf planner n.entry (walked_in n.entry style t c z first) }
{
    let w = kinds_of(c);
    let mut s = first;
    while at_child(s) {
        let g = gap(n.tree, w, z, true, n.tree.end_at(s.to));
        child(planner, n, s, Element(s.to), g, style, t);
        s = g;
    }
}

// The children of a reading of a node, with their comments.
#[cycle(printers)]
fn items(planner: &mut Planner, n: Node, c: Class, z: Bounds, style: Style, t: Condition)
    requires within { Within n.tree.now.image n.tree.now.index n.element.0 z }
    requires whole { Whole (read_at n.tree.now.image n.tree.now.index c z none) }
    ensures { PlansOf planner n.entry (children_in n.entry style t (kids_in (read_in n.entry c z none))) }
{
    let w = kinds_of(c);
    let s = gap(n.tree, w, z, false, z.from);
    kids(planner, n, c, z, s, style, t);
}

// Child j of a node, with the gaps before and behind it.
#[cycle(printers)]
fn child(planner: &mut Planner, n: Node, s: Span, j: Element, g: Span, style: Style, t: Condition)
    requires kid { Kid n.tree.now.image n.tree.now.index n.element.0 j.0 }
    requires before { Lies n.tree.now.image n.tree.now.index s }
    requires behind { Lies n.tree.now.image n.tree.now.index g }
    ensures { PlansOf planner n.entry (around_in n.entry style t s j.0 g) }
{
    plan_above(planner, n.tree, s);
    node(
        planner,
        Node {
            tree: n.tree,
            element: j,
        },
    );
    plan_behind(planner, n.tree, g, style, t);
}

// An array, or the members of an object.
#[cycle(printers)]
fn list(planner: &mut Planner, n: Node, l: ListKind)
    ensures { PlansOf planner n.entry (list_in n.entry l) }
{
    let z = n.enclosed(opener(l), closer(l));
    let c = child_class(l);
    let o = survey(n.tree, kinds_of(c), z);
    if is_stopped(o) {
        planner.stop_at(Element(o.last.to));
        return;
    }
    if is_empty(n.tree, o) {
        planner.plan_word(empty_word(l));
        return;
    }
    let k = planner.next_run();
    let t = test_of(o.many | o.blank, k);
    open_list(planner, open_word(l), k, t);
    planner.plan_signal(Signal::StartGroup);
    items(planner, n, c, z, Style::Elements, t);
    close_list(planner, n.tree, close_word(l), k, o);
}

// The arguments of a call.
#[cycle(printers)]
fn args(planner: &mut Planner, n: Node)
    ensures { PlansOf planner n.entry (arguments (under_in n.entry) (enclosed Arg LParen RParen (parts_in n.entry))) }
{
    let z = n.enclosed(Class::LParen, Class::RParen);
    let o = survey(n.tree, kinds_of(Class::Arg), z);
    if is_stopped(o) {
        planner.stop_at(Element(o.last.to));
        return;
    }
    let k = planner.next_run();
    let t = test_of(false, k);
    open_list(planner, words::LEFT_PAREN, k, t);
    items(planner, n, Class::Arg, z, Style::Arguments, t);
    close_arguments(planner, n.tree, words::RIGHT_PAREN, k, o);
}

// An object comprehension: the reading of its members.
#[cycle(printers)]
fn comp(planner: &mut Planner, n: Node)
    ensures { PlansOf planner n.entry (comprehension (under_in n.entry) n.entry.element.0 (parts_in n.entry) (first CompSpec (parts_in n.entry))) }
{
    let spec = n.first_of(Class::CompSpec);
    if spec.is_none() {
        planner.stop_at(n.element);
        return;
    }
    let brace = n.first_of(Class::LBrace);
    let y = n.between(brace, spec);
    let m = survey(n.tree, kinds_of(Class::Member), y);
    if is_stopped(m) {
        planner.stop_at(Element(m.last.to));
        return;
    }
    body(planner, n, y, m);
}

// An object comprehension from the reading of its members: the reading of its CompSpecs, and both printed.
#[cycle(printers)]
fn body(planner: &mut Planner, n: Node, y: Bounds, m: Outline)
    requires within { Within n.tree.now.image n.tree.now.index n.element.0 y }
    requires lies { Lies n.tree.now.image n.tree.now.index m.last }
    requires outlined { Outlined n.tree.now.image n.tree.now.index (read_at n.tree.now.image n.tree.now.index Member y none) m }
    ensures { PlansOf planner n.entry (comp_of (under_in n.entry) (parts_in n.entry) (read_in n.entry Member y none)) }
{
    let z = n.spec_bounds();
    let w = kinds_of(Class::CompSpec);
    let o = survey_after(n.tree, w, z, m.last);
    if is_stopped(o) {
        planner.stop_at(Element(o.last.to));
        return;
    }
    let k = planner.next_run();
    let t = test_of(m.many | (o.many | (m.blank | o.blank)), k);
    open_list(planner, words::LEFT_BRACE, k, t);
    planner.plan_signal(Signal::StartGroup);
    items(planner, n, Class::Member, y, Style::Members, t);
    newline_if(planner, m.blank);
    specs(planner, n, z, m.last, t);
    close_list(planner, n.tree, words::RIGHT_BRACE, k, o);
}

// The CompSpecs of an object comprehension; the trivia behind its members stands before the first.
#[cycle(printers)]
fn specs(planner: &mut Planner, n: Node, z: Bounds, trailing: Span, t: Condition)
    requires within { Within n.tree.now.image n.tree.now.index n.element.0 z }
    requires lies { Lies n.tree.now.image n.tree.now.index trailing }
    requires whole { Whole (read_at n.tree.now.image n.tree.now.index CompSpec z (some (gap_at n.tree.now.image n.tree.now.index trailing).waiting)) }
    ensures { PlansOf planner n.entry (children_in n.entry Specs t (kids_in (read_in n.entry CompSpec z (trailing_in n.entry trailing)))) }
{
    let w = kinds_of(Class::CompSpec);
    let s = lead(n.tree, w, z);
    if !at_child(s) {
        return;
    }
    let g = gap(n.tree, w, z, true, n.tree.end_at(s.to));
    let before = unasked(trailing);
    child(planner, n, before, Element(s.to), g, Style::Specs, t);
    kids(planner, n, Class::CompSpec, z, g, Style::Specs, t);
}

// A local statement.
#[cycle(printers)]
fn local(planner: &mut Planner, n: Node)
    ensures { PlansOf planner n.entry (local_of (under_in n.entry) (enclosed Bind Local Semi (parts_in n.entry)) ⨟ lit ";" ⨟ say newline) }
{
    binds(planner, n);
    planner.plan_word(words::SEMICOLON);
    planner.plan_signal(Signal::NewLine);
}

// The binds of a local statement.
#[cycle(printers)]
fn binds(planner: &mut Planner, n: Node)
    ensures { PlansOf planner n.entry (local_of (under_in n.entry) (enclosed Bind Local Semi (parts_in n.entry))) }
{
    let z = n.enclosed(Class::Local, Class::Semi);
    let o = survey(n.tree, kinds_of(Class::Bind), z);
    if is_stopped(o) {
        planner.stop_at(Element(o.last.to));
        return;
    }
    if o.children == 1 {
        lone(planner, n, z);
        return;
    }
    open_binds(planner);
    items(planner, n, Class::Bind, z, Style::Binds, Condition::Always);
    close_binds(planner, n.tree, o);
}

// The one bind of a local statement.
#[cycle(printers)]
fn lone(planner: &mut Planner, n: Node, z: Bounds)
    requires within { Within n.tree.now.image n.tree.now.index n.element.0 z }
    requires whole { Whole (read_at n.tree.now.image n.tree.now.index Bind z none) }
    requires one { length (kids_in (read_at n.tree.now.image n.tree.now.index Bind z none)) ≡ 1 }
    ensures { PlansOf planner n.entry (local_of (under_in n.entry) (read_in n.entry Bind z none)) }
{
    let w = kinds_of(Class::Bind);
    let s = gap(n.tree, w, z, false, z.from);
    plan_waiting(planner, n.tree, s, CommentLocation::AboveItem);
    planner.plan_word(words::LOCAL_SPACE);
    node(
        planner,
        Node {
            tree: n.tree,
            element: Element(s.to),
        },
    );
}
