//! Parts of vectors that several own together.
#![tactic(auto)]

mod shared_part;

pub use shared_part::SharedPart;
