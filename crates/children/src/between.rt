// children_between: from just behind a start to an end, each an element by its number.
ghost use Rattle.std.specs.Prelude.{◌≡◌};
ghost use Rattle.tree.specs.Answer.{found};
ghost use Rattle.children.specs.Between.{from_at, to_at, Ends, Bounded};

use numbers::Element;
use tree::Tree;

// Where a reading begins and ends, and whether it is loose. That it is a reading of a node (`Within`) is asked by the printers, which are handed
// the node beside it.
#[derive(Clone, Copy)]
pub struct Bounds {
    pub from: u32,
    pub to: u32,
    pub loose: bool,
}

// Just behind the start, or at the node's first element.
fn from_of(tree: &Tree, start: Option<Element>, a: u32) -> u32
    ensures { result ≡ from_at tree.now.index (found start) a }
{
    match start {
        Some(e) => tree.end_at(e.0),
        None => a,
    }
}

// The end, if it stands behind the start, or else the node's last element.
fn to_of(end: Option<Element>, from: u32, b: u32) -> u32
    ensures { result ≡ to_at (found end) from b }
{
    match end {
        Some(e) if from <= e.0 => e.0,
        _ => b,
    }
}

// The bounds of a reading of a node's elements, which stand from a on and begin before b.
pub fn bounds_between(
    tree: &Tree,
    start: Option<Element>,
    end: Option<Element>,
    a: u32,
    b: u32,
) -> Bounds
    requires { Ends tree.now.image tree.now.index a b (found start) (found end) }
    ensures { Bounded tree.now.image tree.now.index a b (found start) (found end) result }
{
    let from = from_of(tree, start, a);
    let to = to_of(end, from, b);
    let unbound = start.is_none();
    let endless = end.is_none();
    Bounds {
        from,
        to,
        loose: unbound & endless,
    }
}
