//! The trees of a whole text.

ghost use Rattle.std.specs.Prelude.{IsTrue};
ghost use Rattle.cil_specs.specs.Trees.{are_lists, in_order};
ghost use Rattle.cil_reader.specs.Image.{trees_in};

use crate::node::Node;
use crate::tree::TreeSlice;
use std::alloc::{Allocator, Global};

/// The trees that a text spells, in its order: one flat list of nodes. `read` makes it.
#[derive(Drop)]
pub struct Forest<'a, A: Allocator = Global> {
    pub(crate) text: &'a [u8],
    pub(crate) nodes: Vec<Node, A>,
    /// A text is a sequence of lists.
    pub ghost lists: { IsTrue (are_lists (trees_in text.now nodes.items)) },
    /// Each tree stands behind the one before it, and all within the greatest text.
    pub ghost ordered: { IsTrue (in_order 0 (trees_in text.now nodes.items) 16777216) },
}

impl<'a, A: Allocator> Forest<'a, A> {
    ghost use Rattle.std.specs.Prelude.{◌≡◌};
    ghost use Rattle.cil_reader.specs.Image.{trees_of};
    ghost use Rattle.cil_reader.specs.Forest.{forest_of};

    pub fn trees(&self) -> TreeSlice<'_, 'a>
        ensures { trees_of result ≡ forest_of self.now }
    {
        TreeSlice {
            text: self.text,
            nodes: &self.nodes,
        }
    }
}
