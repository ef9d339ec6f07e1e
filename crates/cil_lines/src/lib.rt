//! The counters of one line of an access table, 64 a machine word.
#![tactic(auto)]

mod digit;
mod higher;
mod line;

pub use line::Line;
