//! The nodes that trees are kept as.

use crate::place::Place;

/// A word, a string or a list in the flat list of a text's trees, which stand in the order of the text. The trees of a
/// list are the `inner` nodes behind it.
#[derive(Clone, Copy, Debug)]
pub enum Node {
    Word { at: Place, len: u32 },
    String { at: Place, len: u32 },
    List { at: Place, end: u32, inner: u32 },
}
