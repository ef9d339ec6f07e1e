//! Violations by numbers.

/// A violation by the places of its rules and the numbers of the names of its source, its target and its class. Its permissions are those of
/// the class that both rules give.
#[derive(Clone, Copy, PartialEq, Eq)]
pub struct RowNumbers {
    pub never: usize,
    pub allowed: usize,
    pub source: usize,
    pub target: usize,
    pub class: usize,
}

/// Two rules by their places, and the classes in which both give a permission.
#[derive(Clone, Copy)]
pub struct Pair<'p> {
    pub never: usize,
    pub allowed: usize,
    pub classes: &'p [usize],
}
