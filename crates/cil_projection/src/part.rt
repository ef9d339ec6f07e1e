//! The arguments of statements outside the language.

use crate::table::Table;

/// What an argument of a statement is.
#[derive(Clone, Copy, Debug, PartialEq, Eq)]
pub enum Part {
    /// A name that the statement declares.
    Declared(Table),
    Name(Table),
    /// A type, or `self`.
    Target,
    /// A name, or an expression: a list of names and operators, lists of them inside it too.
    Expression(Table),
    /// A name, or a list of names.
    Names(Table),
    /// `true` or `false`.
    Truth,
    /// Anything. It isn't looked at.
    Ignored,
    Class,
    /// A class, or a list of classes.
    Classes,
    /// A class and a list that is an expression of its permissions (CIL Reference Guide, "Expressions"), or the name of a permission set
    /// ("classpermission").
    ClassPermissions,
    /// A name of a context, or its user, role, type and range (CIL Reference Guide, "context").
    Context,
    /// A context, or the empty list.
    PerhapsContext,
    /// A name of a range, or its two levels (CIL Reference Guide, "levelrange").
    Range,
    /// A name of a level, or its sensitivity and categories (CIL Reference Guide, "level").
    Level,
    /// A name of an address, or an address in parentheses (CIL Reference Guide, "ipaddr").
    Address,
    /// A name of extended permissions, or their kind, class and numbers (CIL Reference Guide, "permissionx").
    ExtendedPermission,
    /// A constraint's expression (CIL Reference Guide, "constrain").
    Constraint,
}
