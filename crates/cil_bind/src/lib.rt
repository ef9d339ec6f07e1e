//! What the names of a joined policy are bound to, once an edit.
#![tactic(auto)]

mod about_names;
mod declarations;
mod joined;
mod known_lists;
mod laws;
mod lead;
mod leads;
mod moves;
mod policy;
mod redeclaration;
mod references;
mod rows;
mod scope;
mod spaces;
mod words;

pub use cil_lookup::{Key, Lookup};
pub use declarations::declares_name;
pub use joined::{Joined, NamedModule, join};
pub use known_lists::{KnownLists, PermissionList};
pub use laws::{
    first_again_is_first_fault, first_again_is_least, kept_is_once, kept_is_ordered,
    kept_permissions_are_names, names_are_in_order, permissions_are_names, policies_are_apart,
    policies_are_ordered, rows_are_nested, texts_are_written,
};
pub use lead::Lead;
pub use policy::{Joining, Policy};
pub use redeclaration::Redeclaration;
pub use references::References;
pub use rows::Row;
pub use scope::is_optional;
