//! The members and the accesses of a policy, counted, and brought to another policy in place.
#![tactic(auto)]

mod at_once;
mod changed_members;
mod counters;
mod laws;
mod more_rows;
mod policy_symbols;
mod symbol_ranks;

pub use at_once::violations_at_once;
pub use changed_members::ChangedMember;
pub use cil_symbol_changes::ChangeCounts;
pub use counters::Counters;
pub use laws::{
    counters_are_bounded, counters_tell_accesses, counters_tell_changes, counters_tell_members,
};
