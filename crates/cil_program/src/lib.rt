//! The command line, and the session that it asks for.
#![tactic(auto)]

pub mod command_line;

pub use cil_session as script;
pub use cil_session::outcome::{SessionFault, Status};
pub use cil_session::session::session;
pub use command_line::command;
