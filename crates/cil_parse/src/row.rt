//! What is kept of a statement.

use cil_text::{Place, RuleKind};

/// A word: its place, and the number of its text.
#[derive(Clone, Copy, PartialEq, Eq)]
pub struct NumberedWord {
    pub at: Place,
    pub text: u32,
}

/// What a statement is. Together with its words and the nodes of its expression this is all that it says.
#[derive(Clone, Copy, Debug, PartialEq, Eq)]
pub enum StatementKind {
    Block,
    Optional,
    TypeName,
    TypeAlias,
    TypeAliasActual,
    TypeAttribute,
    TypeAttributeSet,
    Common,
    Class,
    ClassCommon,
    ClassOrder,
    ClassPermission,
    ClassPermissionSet,
    /// A rule whose target is a word.
    Rule(RuleKind),
    /// A rule whose target is `self`.
    RuleToSelf(RuleKind),
    /// A rule whose target is a word, and whose permissions are those of a permission set.
    RuleOfSet(RuleKind),
    /// A rule whose target is `self`, and whose permissions are those of a permission set.
    RuleToSelfOfSet(RuleKind),
}

/// A node of an expression of types or of permissions, in front of those of its operands. A list of elements is its first element and the others, or nothing.
#[derive(Clone, Copy, Debug, PartialEq, Eq)]
pub enum SetNode {
    All,
    /// The next of the statement's words.
    Name,
    Not,
    And,
    Or,
    Xor,
    /// No element.
    Nothing,
    /// An element, and then the others.
    Element,
}

/// The numbers of the innermost block and of the innermost optional around statements. That of a statement is its index and 1 more;
/// 0 stands for none.
#[derive(Clone, Copy)]
pub struct Around {
    pub block: u32,
    pub optional: u32,
}

/// A statement but for its words and its expression.
#[derive(Clone, Copy)]
pub struct Row {
    pub at: Place,
    pub kind: StatementKind,
    pub around: Around,
}
