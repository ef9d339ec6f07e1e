//! Accesses by numbers, 64 targets a machine word.
#![tactic(auto)]

mod access;
mod accesses;
mod chunk;
mod chunk_places;
mod merge;
mod moving;
mod ordering;
mod place;
mod renumber;
mod rows;
mod run;

pub use access::AccessNumbers;
pub use accesses::Accesses;
pub use chunk::Chunk;
pub use chunk_places::ChunkPlaces;
pub use ordering::sort_from;
pub use renumber::push_renumbered;
pub use rows::{AccessRow, Rows};
