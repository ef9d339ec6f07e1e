//! Statements by numbers.

ghost use Rattle.std.specs.Prelude.{◌≡◌, false, slice_index_or};

use cil_parse::{StatementKind, Table};

/// A statement of a joined policy: the number of its module and its index there, its kind, the numbers of its namespace and, for a block,
/// of the namespace inside, and what it declares, by the table and the number of the word. The innermost optional around it is told by
/// its place and 1 more; 0 stands for none.
#[derive(Clone, Copy)]
pub struct Row {
    pub module: u32,
    pub index: u32,
    pub namespace: u32,
    pub inside: u32,
    pub optional: u32,
    pub declares: Option<(Table, u32)>,
    pub kind: StatementKind,
    pub is_optional: bool,
}

/// Whether the innermost optional of a row is marked, by its number.
pub fn is_kept(row: &Row, kept: &[bool]) -> bool
    ensures { result ≡ slice_index_or kept.now row.now.optional false }
{
    kept.get(row.optional as usize).copied().unwrap_or(false)
}
