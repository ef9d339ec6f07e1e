//! Expressions by what their names lead to, kept flat, and what they hold.
#![tactic(auto)]

mod evaluation;
mod expression;
mod laws;
mod name_list;
mod same;
mod set_expression;

pub use expression::{Element, Expression};
pub use laws::{names_bound, names_decide, same_hold_the_same};
pub use same::are_same_names;
pub use set_expression::SetExpression;
