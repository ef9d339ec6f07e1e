//! Namespaces by numbers, and where a name leads from one: the declaration that it stands for.
#![tactic(auto)]

mod lookup;
mod namespaces;

pub use lookup::{Key, Lookup};
pub use namespaces::{Block, Namespaces};
