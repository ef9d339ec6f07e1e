//! Which accesses stand in lines of counters that change in steps, which appeared and which went, by numbers that the caller gives the
//! symbols.
#![tactic(auto)]

mod access_changes;
mod appeared;
mod counted_accesses;
mod counted_changes;
mod kept_words;
mod present_accesses;
mod present_chunks;
mod source_order;
mod targets;

pub use access_changes::{AccessChanges, changes};
pub use counted_accesses::count_accesses;
pub use counted_changes::{ChangeCounts, count_changes};
pub use present_accesses::accesses;
