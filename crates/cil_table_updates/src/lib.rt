//! Counters of accesses, brought from one policy to another in place.
#![tactic(auto)]

mod changed_rows;
mod loading;
mod moves;
mod passes;
mod policy;
mod same_permits;
mod staying;
mod staying_sets;
mod updating;

pub use loading::load;
pub use policy::{Named, Policies, Shared};
pub use updating::update;
