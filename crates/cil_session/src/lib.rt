//! Scripts: their lines, the commands on them, and the session that answers them.
#![tactic(auto)]

pub mod batch;
pub mod command;
pub mod edit_list;
mod edits;
pub mod held_edit;
pub mod input;
pub mod laws;
pub mod line;
pub mod memory;
pub mod outcome;
mod questions;
pub mod reply;
pub mod session;
