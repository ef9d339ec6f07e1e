//! Words of a text.

use crate::place::Place;

/// A word, or a string with its quotes: a slice of the text that it was read from, and the place of its first byte.
#[derive(Clone, Copy, Debug)]
pub struct Word<'a> {
    pub at: Place,
    pub text: &'a [u8],
}
