//! The faults of a policy whose references are bound, but for names that are declared twice.
#![tactic(auto)]

mod attribute_graph;
mod bound;
mod checker;
mod circular;
mod clean;
mod fault;
mod few;
mod firsts;
mod groups;
mod held;
mod inherited;
mod kinds;
mod known;
mod missing;
mod named_permissions;
mod permissions;
mod sound_references;
mod too_many;
mod witnesses;

pub use attribute_graph::AttributeNumbers;
pub use bound::{BoundPolicy, Seen};
pub use checker::Checker;
pub use fault::{PolicyFault, PolicyFaultKind};
pub use firsts::{Association, Firsts};
pub use groups::Groups;
pub use kinds::Kind;
pub use permissions::{Listed, Permissions};
pub use witnesses::Witnesses;
