//! The operands of expressions.

use crate::table::Table;

/// What the words of an expression are that are no operators: names of a table, or permissions.
#[derive(Clone, Copy, Debug)]
pub enum Operand {
    Name(Table),
    Permission,
}
