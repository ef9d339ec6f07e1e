//! Places in a text.

/// Where a byte of a text stands, counted in bytes: the offset from 0, the line and the column from 1. A line feed alone
/// ends a line (this project's own choice).
#[derive(Clone, Copy, Debug, PartialEq, Eq)]
pub struct Place {
    pub offset: u32,
    pub line: u32,
    pub column: u32,
}
