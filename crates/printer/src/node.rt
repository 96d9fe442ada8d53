// An element of a tree, whose index is that of its image.
ghost use Rattle.printer.specs.Under.{At};

use numbers::Element;
use tree::Tree;

#[derive(Clone, Copy)]
pub struct Node<'a> {
    pub tree: &'a Tree<'a>,
    pub element: Element,
    ghost at: { At tree.now.image tree.now.index element.0 },
}
