//! The counters of an access table, moved from what a rule gave to what it gives.
#![tactic(auto)]

mod grant;
mod group;
mod head;
mod keys;
mod moved;
mod part;
mod permit;
mod put;
mod reach;
mod shift;
mod targets;
mod types;
mod words;

pub use grant::Grant;
pub use permit::{Permit, put_in_order};
pub use put::put_rule;
pub use reach::Reach;
pub use shift::shift_rule;
pub use targets::Targets;
pub use types::Types;
