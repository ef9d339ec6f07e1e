//! The statements of a whole text.

ghost use Rattle.std.specs.Prelude.{IsTrue, false};
ghost use Rattle.cil_specs.specs.Statements.{statement_offsets, are_apart, rise_from};
ghost use Rattle.cil_text.specs.Image.{statements_of};

use crate::statement::Statement;
use std::alloc::{Allocator, Global};

/// The statements that a text spells, in its order. `shape` makes it. It borrows the text and copies no word.
#[derive(Drop)]
pub struct Module<'a, A: Allocator = Global> {
    pub statements: Vec<Statement<'a, A>, A>,
    /// The statements and their words stand one behind the other.
    pub ghost ordered: { IsTrue (rise_from 0 (statement_offsets (statements_of statements.items))) },
    /// Blocks, classes, commons and what is said of them stand in no optional.
    pub ghost apart: { IsTrue (are_apart false (statements_of statements.items)) },
}
