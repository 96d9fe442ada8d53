// Planning the trivia and the custom errors of a gap.
ghost use Rattle.std.specs.Prelude.{◌<◌, [], ◌∷◌};
ghost use Rattle.comments.specs.Place.{place};
ghost use Rattle.tree.specs.Class.{all_of};
ghost use Rattle.tree.specs.Index.{part_at, parts_from, Region};
ghost use Rattle.children.specs.Stretch.{notes};
ghost use Rattle.children.specs.Spans.{Lies, gap_at};
ghost use Rattle.plan.specs.Comments.{comments};
ghost use Rattle.plan.specs.Ops.{operand_limit};
ghost use Rattle.plan.specs.Plans.{PlansIn};

use super::Planner;
use children::gap::Span;
use children::note_kinds;
use comments::CommentLocation;
use numbers::Element;
use tree::Tree;
use tree::class::{Class, Kinds, is, kinds_of};

// Plans element j if it is of these kinds.
fn plan_one(planner: &mut Planner, tree: &Tree, w: Kinds, j: Element, loc: CommentLocation)
    requires { j.0 < operand_limit }
    ensures { PlansIn planner tree (comments (all_of w (part_at tree.now.image tree.now.index j.0 ∷ [])) (place loc)) }
{
    let k = tree.kind_at(j.0);
    if is(w, k) {
        planner.plan_comment(tree, j, loc);
    }
}

// Plans the siblings of these kinds from a on that begin before b.
fn plan_all(planner: &mut Planner, tree: &Tree, w: Kinds, a: u32, b: u32, loc: CommentLocation)
    requires { Region tree.now.image tree.now.index a b }
    ensures { PlansIn planner tree (comments (all_of w (parts_from tree.now.image tree.now.index a b)) (place loc)) }
{
    for j in tree.siblings(a, b) {
        plan_one(planner, tree, w, j, loc);
    }
}

// Plans the inline trivia of a gap: nothing, where there is whitespace only.
pub fn plan_inline(planner: &mut Planner, tree: &Tree, g: Span, loc: CommentLocation)
    requires { Lies tree.now.image tree.now.index g }
    ensures { PlansIn planner tree (comments (gap_at tree.now.image tree.now.index g).inline (place loc)) }
{
    if !g.tally.noted {
        return;
    }
    let w = kinds_of(Class::Trivia);
    plan_all(planner, tree, w, g.from, g.cut, loc);
}

// Plans what waits in a gap: the custom errors before the cut, and all behind it; nothing, where there is whitespace only.
pub fn plan_waiting(planner: &mut Planner, tree: &Tree, g: Span, loc: CommentLocation)
    requires { Lies tree.now.image tree.now.index g }
    ensures { PlansIn planner tree (comments (gap_at tree.now.image tree.now.index g).waiting (place loc)) }
{
    if !g.tally.noted {
        return;
    }
    let w = kinds_of(Class::CustomError);
    plan_all(planner, tree, w, g.from, g.cut, loc);
    let v = note_kinds();
    plan_all(planner, tree, v, g.cut, g.to, loc);
}

// Plans the trivia and the custom errors from a on that begin before b.
pub fn plan_notes(planner: &mut Planner, tree: &Tree, a: u32, b: u32, loc: CommentLocation)
    requires { Region tree.now.image tree.now.index a b }
    ensures { PlansIn planner tree (comments (all_of notes (parts_from tree.now.image tree.now.index a b)) (place loc)) }
{
    let w = note_kinds();
    plan_all(planner, tree, w, a, b, loc);
}
