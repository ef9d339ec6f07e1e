//! Rules: the access table, the changes between two tables, and the listing.
#![tactic(auto)]

mod atom;
mod changes;
mod listing;
mod name_list;
mod numbers;
mod row;
mod rows;
mod table;

pub use atom::Atom;
pub use changes::Changes;
pub use listing::write_row_line;
pub use numbers::number;
pub use row::{Names, Row};
pub use rows::Rows;
pub use table::Table;
