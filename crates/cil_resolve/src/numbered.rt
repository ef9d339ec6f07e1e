//! Types, classes, set statements and rules by the numbers of their names.

use crate::permission_numbers::PermissionNumbers;
use crate::set_permissions::SetPermissions;
use crate::text::Text;
use cil_expression::{Element, Expression, SetExpression};
use cil_text::{Place, RuleKind};
use std::alloc::{Allocator, Global};

/// A rule's target: each source itself, or what a name leads to.
#[derive(Clone, Copy, PartialEq, Eq)]
pub enum ResolvedTarget {
    Itself,
    Element(Element),
}

/// A type or an attribute, by the place of its full name, and where it is declared: the place of its module's name, and the place
/// of its statement.
#[derive(Clone, Copy)]
pub struct NumberedName {
    pub module: u32,
    pub at: Place,
    pub name: usize,
}

/// A class with its permissions, its common's included, each once.
#[derive(Drop)]
pub struct NumberedClass<A: Allocator = Global> {
    pub module: u32,
    pub at: Place,
    pub name: usize,
    pub permissions: Vec<usize, A>,
}

/// A set statement: its attribute by the place of its full name, and its expression.
#[derive(Drop)]
pub struct NumberedSet<A: Allocator = Global> {
    pub module: u32,
    pub at: Place,
    pub attribute: usize,
    pub expression: SetExpression<A>,
}

/// Permissions of a class: those that are given; and, where they are written as an expression that is no plain list, that expression,
/// with the permissions that it names.
#[derive(Drop)]
pub struct NumberedPermissions<A: Allocator = Global> {
    pub class: usize,
    pub given: PermissionNumbers<A>,
    pub written: Option<Box<Expression<usize, A>, A>>,
}

/// A statement that gives a permission set permissions of a class.
#[derive(Drop)]
pub struct NumberedPermissionSet<A: Allocator = Global> {
    pub module: u32,
    pub at: Place,
    pub set: usize,
    pub permissions: NumberedPermissions<A>,
}

/// A rule's permissions: those of a class, or those of a permission set.
#[derive(Drop)]
pub enum ResolvedPermissions<A: Allocator = Global> {
    OfClass(NumberedPermissions<A>),
    OfSet(SetPermissions<A>),
}

/// A rule whose names are numbers: places in a list of names.
#[derive(Drop)]
pub struct NumberedRule<A: Allocator = Global> {
    pub module: u32,
    pub at: Place,
    pub kind: RuleKind,
    pub source: Element,
    pub target: ResolvedTarget,
    pub permissions: ResolvedPermissions<A>,
}

/// An optional that drops, also one inside another: the place of its module's name, the place of its statement, and its full name.
#[derive(Drop)]
pub struct DroppedOptional<A: Allocator = Global> {
    pub module: u32,
    pub at: Place,
    pub name: Text<A>,
}
