//! Lines of counters that are changed in steps, with a log by which the steps are taken back.
#![tactic(auto)]

mod recorded_lines;
mod step;
mod turn;
mod word_steps;

pub use recorded_lines::{Change, Place, RecordedLines};
pub use step::Step;
