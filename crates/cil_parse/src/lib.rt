//! Modules kept parsed: each word numbered once, each statement a row.
#![tactic(auto)]

mod builder;
mod citations;
mod copied;
mod from_text;
mod laws;
mod lexicon;
mod lists;
mod parsed;
mod permission_lists;
mod recalled;
mod row;
mod table;
mod view;

pub use citations::Citation;
pub use from_text::parse;
pub use laws::statements_are_placed;
pub use lists::Lists;
pub use parsed::ParsedModule;
pub use row::{NumberedWord, SetNode, StatementKind};
pub use table::Table;
pub use view::StatementView;
