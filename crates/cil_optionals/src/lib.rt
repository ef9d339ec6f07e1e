//! The optionals that a policy keeps, whose references are bound.
#![tactic(auto)]

mod kept;
mod listed;
mod modules;
mod others;
mod permissions;
mod providers;
mod references;
mod told;

pub use kept::kept_optionals;
