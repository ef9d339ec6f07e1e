//! What a joined policy of parsed modules resolves to.
#![tactic(auto)]

mod class_permissions;
mod dropped;
mod elements;
mod evaluate;
mod full_names;
mod gathering;
mod given_sets;
mod judged;
mod known_permissions;
mod laws;
mod lowered;
mod lowering;
mod meter;
mod names;
mod naming;
mod numbered;
mod numbering;
mod one_name;
mod permission_lists;
mod permission_numbers;
mod permission_sets;
mod permits;
mod resolved;
mod resolver;
mod rules;
mod set_order;
mod set_permissions;
mod set_statements;
mod statement_permissions;
mod text;
mod views;
mod words;

pub use cil_bind::{Joined, NamedModule, join};
pub use cil_check::{PolicyFault, PolicyFaultKind};
pub use cil_expression::{Element, Expression, SetExpression};
pub use laws::{
    expressions_agree, found_grows, fuel_is_enough, kept_exists, kept_is_good, kept_is_one,
    meanings_are_consistent, reach_is_a_bound, resolved_is_consistent, resolved_is_sound,
    resolved_names_are_kept, resolved_rules_are_in_order, resolved_rules_permit,
    resolved_sets_are_apart, resolved_sets_are_in_order, sets_are_sound,
};
pub use meter::Meter;
pub use numbered::{
    DroppedOptional, NumberedClass, NumberedName, NumberedPermissionSet, NumberedPermissions,
    NumberedRule, NumberedSet, ResolvedPermissions, ResolvedTarget,
};
pub use permission_numbers::PermissionNumbers;
pub use resolved::Resolved;
pub use resolver::resolve;
pub use set_permissions::{ClassPermission, SetPermissions};
pub use text::Text;
pub use views::{
    ClassView, ElementView, NameView, PermissionSetView, PermissionsView, RuleView, SetView,
    TargetView,
};
