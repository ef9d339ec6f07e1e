//! The statements of CIL that cilsem knows.

use cil_reader::{Place, Word};
use std::alloc::{Allocator, Global};

/// The kinds of access vector rules (CIL Reference Guide, "Access Vector Rules").
#[derive(Clone, Copy, Debug, PartialEq, Eq, PartialOrd, Ord)]
pub enum RuleKind {
    Allow,
    AuditAllow,
    DontAudit,
    NeverAllow,
}

/// The target of a rule: each source itself, or what a name leads to.
#[derive(Clone, Copy, Debug)]
pub enum Target<'a> {
    Itself,
    Named(Word<'a>),
}

/// An expression of types (CIL Reference Guide, "typeattributeset") or of permissions ("Access
/// Vector Rules", "Expressions").
#[derive(Drop)]
pub enum Expr<'a, A: Allocator = Global> {
    /// Every type, or every permission of the class.
    All,
    Name(Word<'a>),
    Not(Box<Expr<'a, A>, A>),
    And(Box<Expr<'a, A>, A>, Box<Expr<'a, A>, A>),
    Or(Box<Expr<'a, A>, A>, Box<Expr<'a, A>, A>),
    Xor(Box<Expr<'a, A>, A>, Box<Expr<'a, A>, A>),
    /// The union of the elements.
    Union(Vec<Expr<'a, A>, A>),
}

/// The permissions of a rule: an expression of those of a class, or a permission set by its name (CIL
/// Reference Guide, "classpermission").
#[derive(Drop)]
pub enum ClassPermissions<'a, A: Allocator = Global> {
    Anonymous {
        class: Word<'a>,
        permissions: Expr<'a, A>,
    },
    Named(Word<'a>),
}

/// A statement, with the place of its `(`. Blocks and optionals hold the statements inside them.
#[derive(Drop)]
pub enum Statement<'a, A: Allocator = Global> {
    Block {
        at: Place,
        id: Word<'a>,
        body: Vec<Statement<'a, A>, A>,
    },
    Optional {
        at: Place,
        id: Word<'a>,
        body: Vec<Statement<'a, A>, A>,
    },
    TypeName {
        at: Place,
        id: Word<'a>,
    },
    TypeAlias {
        at: Place,
        id: Word<'a>,
    },
    TypeAliasActual {
        at: Place,
        alias: Word<'a>,
        actual: Word<'a>,
    },
    TypeAttribute {
        at: Place,
        id: Word<'a>,
    },
    TypeAttributeSet {
        at: Place,
        attribute: Word<'a>,
        expr: Expr<'a, A>,
    },
    Common {
        at: Place,
        id: Word<'a>,
        permissions: Vec<Word<'a>, A>,
    },
    Class {
        at: Place,
        id: Word<'a>,
        permissions: Vec<Word<'a>, A>,
    },
    ClassCommon {
        at: Place,
        class: Word<'a>,
        common: Word<'a>,
    },
    ClassOrder {
        at: Place,
        classes: Vec<Word<'a>, A>,
    },
    ClassPermission {
        at: Place,
        id: Word<'a>,
    },
    /// It gives a permission set permissions of a class.
    ClassPermissionSet {
        at: Place,
        set: Word<'a>,
        class: Word<'a>,
        permissions: Expr<'a, A>,
    },
    /// `allow`, `auditallow`, `dontaudit` and `neverallow`.
    Rule {
        at: Place,
        kind: RuleKind,
        source: Word<'a>,
        target: Target<'a>,
        permissions: ClassPermissions<'a, A>,
    },
}
