//! The members of attributes, brought from an old policy to a new one in place.
#![tactic(auto)]

mod held;
mod kept;
mod loading;
mod masks;
mod passes;
mod plain_list;
mod sets;
mod side;
mod visits;
mod when;
mod words;

pub use kept::KeptTypes;
pub use loading::load;
pub use passes::update;
pub use side::{Side, Sides};
