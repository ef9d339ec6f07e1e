//! Texts with statements outside the language, taken by their names alone.
#![tactic(auto)]

mod body;
mod booleans;
mod branches;
mod by_names;
mod class;
mod collect;
mod component;
mod condition;
mod constraint;
mod declaration;
mod fit;
mod kept;
mod kinds;
mod laws;
mod marked;
mod names;
mod needs;
mod operand;
mod part;
mod piece;
mod projecting;
mod readings;
mod render;
mod split;
mod statement;
mod statements;
mod table;
mod tally;
mod words;

pub use booleans::Booleans;
pub use kinds::{KINDS, Kind};
pub use laws::{
    kinds_are_those_of_forms, language_stays, lines_stay, statements_stay, taken_branch,
};
pub use projecting::{DECLARATIONS, project};
pub use readings::{copies_have_sources, no_new_faults, projections_are_read};
pub use tally::Tally;
