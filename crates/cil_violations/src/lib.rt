//! Violations: what neverallow rules forbid and allow rules give.
#![tactic(auto)]

mod index;
mod known;
mod line;
mod members;
mod permissions;
mod row;
mod search;
mod shared;
mod violation;
mod violations;

pub use violation::{Permissions, Violation};
pub use violations::Violations;
