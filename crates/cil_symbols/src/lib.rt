//! Names with numbers that stay from one policy to the next.
#![tactic(auto)]

mod in_use;
mod numbering;
mod symbols;

pub use numbering::Numbering;
pub use symbols::Symbols;
