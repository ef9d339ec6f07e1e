//! What the rules of a policy reach and permit, by numbers of names that stay.
#![tactic(auto)]

mod lines;
mod permits;
mod reaching;
mod symbol_members;

pub use permits::{reached_permits, rule_permits, symbol_of};
pub use reaching::rule_reach;
pub use symbol_members::{SymbolMembers, When};
