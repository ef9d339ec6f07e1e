//! What moves in a word of a line.

/// The targets of a word whose counters go down by 1, and those whose counters go up by 1.
#[derive(Clone, Copy)]
pub struct Moved {
    pub word: usize,
    pub gone: u64,
    pub come: u64,
}
