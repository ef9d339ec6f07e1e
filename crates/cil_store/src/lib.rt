//! The store: edits, refusals, and the engines that keep a store compiled.
#![tactic(auto)]

mod admitted;
mod batch;
mod call;
mod compiled;
mod counted_policy;
mod delta;
mod disabled;
mod dropped;
mod edit;
mod entries;
mod entry;
mod join;
pub mod laws;
mod modules;
mod plain;
mod policy;
mod refusal;
mod refusing;
mod resolving;
mod runs;

pub use call::{Call, Reply};
pub use cil_counters::ChangeCounts;
pub use cil_names::Seed;
pub use compiled::{Compiled, WriteFault};
pub use delta::Delta;
pub use dropped::Dropped;
pub use edit::Edit;
pub use entry::{Entry, OwnedEntry};
pub use modules::{State, Store};
pub use plain::Plain;
pub use policy::Policy;
pub use refusal::{FaultKind, Refusal, StoreFault};
pub use runs::run;
