// lib.rs: what each node of the tree prints, as operations of a plan.
#![tactic(auto)]

mod lists;
mod look;
mod node;
mod pieces;
mod printers;
mod rows;

ghost use Rattle.tree.specs.Tree.{tree_of};
ghost use Rattle.tree.specs.Answer.{found};
ghost use Rattle.tree.specs.Index.{Indexed, Region};
ghost use Rattle.plan.specs.Plans.{PlansIn};
ghost use Rattle.printer.specs.Print.{source_file};
ghost use Rattle.printer.specs.Reads.{Has};
ghost use Rattle.printer.specs.Clauses.{parts_in, whole_in, PlansOf};

use children::around::{Notes, trivia_after, trivia_before};
use comments::CommentLocation;
use items::Signal;
use node::Node;
use numbers::Element;
use plan::Planner;
use plan::notes::plan_notes;
use plan::words::MISSING_EXPR;
use printers::part;
use tree::Tree;
use tree::class::Class;

// The root of the tree.
const ROOT: u32 = 0;

// SourceFile::print: the expression with the comments around it.
pub fn plan_source(planner: &mut Planner, tree: &Tree)
    requires { Indexed tree.now.image tree.now.index }
    ensures { PlansIn planner tree (source_file (tree_of tree.now.image)) }
{
    let root = Node {
        tree,
        element: Element(ROOT),
    };
    let e = root.first_of(Class::Expr);
    let a = root.start();
    let b = root.end();
    match (trivia_before(tree, e, a, b), trivia_after(tree, e, a, b)) {
        (Ok(before), Ok(after)) => plan_whole(planner, root, e, before, after),
        (Err(x), _) => planner.stop_at(x),
        (_, Err(x)) => planner.stop_at(x),
    }
}

// The comments before the expression of a node, the expression, and the comments behind it.
fn plan_whole(planner: &mut Planner, n: Node, e: Option<Element>, before: Notes, after: Notes)
    requires has { Has (parts_in n) (found e) }
    requires before { Region n.tree.now.image n.tree.now.index before.from before.to }
    requires after { Region n.tree.now.image n.tree.now.index after.from after.to }
    ensures { PlansOf planner n.entry (whole_in n.entry before (found e) after) }
{
    plan_notes(
        planner,
        n.tree,
        before.from,
        before.to,
        CommentLocation::AboveItem,
    );
    part(planner, n, e, MISSING_EXPR);
    planner.plan_signal(Signal::NewLine);
    plan_notes(
        planner,
        n.tree,
        after.from,
        after.to,
        CommentLocation::EndOfItems,
    );
}
