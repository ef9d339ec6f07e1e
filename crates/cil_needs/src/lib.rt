//! The greatest set of optionals and names that has what its members need.
#![tactic(auto)]

mod dependents;
mod greatest;

pub use greatest::{Need, greatest_set};
