//! Trees of words, strings and lists.

ghost use Rattle.std.specs.Prelude.{◌≡◌, take, drop, MatchOption};
ghost use Rattle.cil_reader.specs.Common.{none, place_of, word_of, tree_then, trees_of, tree_count, is_nothing};

use crate::node::Node;
use crate::place::Place;
use crate::word::Word;

/// A tree of a text (CIL Reference Guide, "Declarations": s-expressions).
#[derive(Clone, Copy, Debug)]
pub enum Tree<'t, 'a> {
    Word(Word<'a>),
    String(Word<'a>),
    /// The trees between the `(` at `at` and the `)` before the offset `end`.
    List {
        at: Place,
        end: u32,
        items: TreeSlice<'t, 'a>,
    },
}

/// Trees one behind the other, a part of those of a text: where they stand in its flat list.
#[derive(Clone, Copy, Debug)]
pub struct TreeSlice<'t, 'a> {
    pub(crate) text: &'a [u8],
    pub(crate) nodes: &'t [Node],
}

impl<'t, 'a> TreeSlice<'t, 'a> {
    /// The bytes of the text, so many from an offset on.
    fn part(self, from: u32, len: u32) -> &'a [u8]
        ensures { result.now ≡ take len (drop from self.entry.text.now) }
    {
        let from = (from as usize).min(self.text.len());
        let rest = &self.text[from..];
        let len = (len as usize).min(rest.len());
        &rest[..len]
    }

    /// The first tree, and those behind it.
    pub fn split_first(self) -> Option<(Tree<'t, 'a>, TreeSlice<'t, 'a>)>
        ensures { MatchOption result (trees_of self.entry ≡ none)
            (λ found. trees_of self.entry ≡ tree_then found.0 (trees_of found.1)) }
    {
        let [first, behind @ ..] = self.nodes else {
            return None;
        };
        match *first {
            Node::Word { at, len } => {
                let text = self.part(at.offset, len);
                Some((Tree::Word(Word { at, text }), self.of(behind)))
            }
            Node::String { at, len } => {
                let text = self.part(at.offset, len);
                Some((Tree::String(Word { at, text }), self.of(behind)))
            }
            Node::List { at, end, inner } => {
                let inner = (inner as usize).min(behind.len());
                let items = self.of(&behind[..inner]);
                Some((Tree::List { at, end, items }, self.of(&behind[inner..])))
            }
        }
    }

    /// The trees of the same text that these nodes are.
    fn of(self, nodes: &'t [Node]) -> TreeSlice<'t, 'a>
        ensures text { result.text ≡ self.entry.text }
        ensures nodes { result.nodes ≡ nodes.entry }
    {
        TreeSlice {
            text: self.text,
            nodes,
        }
    }

    /// No trees.
    pub fn end(self) -> TreeSlice<'t, 'a>
        ensures { trees_of result ≡ none }
    {
        self.of(&self.nodes[self.nodes.len()..])
    }

    pub fn is_empty(self) -> bool
        ensures { result ≡ is_nothing (trees_of self.entry) }
    {
        self.nodes.is_empty()
    }

    /// How many trees stand here, those inside them not counted.
    pub fn len(self) -> usize
        ensures { result ≡ tree_count (trees_of self.entry) }
    {
        let mut rest = self;
        for count in 0..self.nodes.len() {
            let Some((_, behind)) = rest.split_first() else {
                return count;
            };
            rest = behind;
        }
        self.nodes.len()
    }
}
