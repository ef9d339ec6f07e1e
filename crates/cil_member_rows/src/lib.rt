//! The members of attributes: rows of counters by type, changed in steps that can be taken back, and who was a member
//! before the steps.
#![tactic(auto)]

mod bit_row;
mod held;
mod marks;
mod member_rows;
mod words;

pub use cil_recorded::Change;
pub use member_rows::MemberRows;
pub use words::Words;
