//! Recognises the statements that the trees of CIL texts spell. The reader of texts is passed on from `cil_reader`.
#![tactic(auto)]

mod check;
mod expr;
mod form;
mod keyword;
mod laws;
mod module;
mod name;
mod split;
mod statement;
mod walk;
mod words;

pub use cil_reader::{
    Forest, Place, ShownWord, TextFault, TextFaultKind, Tree, TreeSlice, Word, faults_are_stuck,
    no_fault_beside_a_reading, one_reading, one_reading_fault, read,
};
pub use laws::{first_fault_is_one, statements_are_one, statements_have_no_fault};
pub use module::Module;
pub use statement::{ClassPermissions, Expr, RuleKind, Statement, Target};
pub use walk::{next_statement, shape};
