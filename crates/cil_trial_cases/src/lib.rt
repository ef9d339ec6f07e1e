//! The cases of trials, and what is tried of them, with any engine: its devices fail, or memory runs out.
#![tactic(auto)]

mod attempt;
mod case;
mod dialogue;
mod engine;
mod fault;
mod growths;
mod job;
mod limits;
mod refusals;
mod report;
mod state;
mod stretch;
mod trial;

pub use case::{Case, Kind, Refusal, first_line, text_of};
pub use engine::{Access, End, Engine, Engines, Rule};
pub use fault::Fault;
pub use job::Job;
pub use report::{write_text, write_work};
pub use trial::answer;
