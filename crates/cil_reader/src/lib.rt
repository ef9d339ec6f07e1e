//! Reads CIL texts into trees, or finds the fault why they spell none.
#![tactic(auto)]

mod byte_table;
mod fault;
mod forest;
mod laws;
mod node;
mod place;
mod reader;
mod tree;
mod word;

pub use byte_table::has_one;
pub use fault::{ShownWord, TextFault, TextFaultKind};
pub use forest::Forest;
pub use laws::{faults_are_stuck, no_fault_beside_a_reading, one_reading, one_reading_fault};
pub use place::Place;
pub use reader::read;
pub use tree::{Tree, TreeSlice};
pub use word::Word;
