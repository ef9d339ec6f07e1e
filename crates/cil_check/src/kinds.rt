//! Kinds of what statements declare in the table of types.

ghost use Rattle.std.specs.Prelude.{◌≡◌};
ghost use Rattle.cil_check.specs.Common.{is_kind};

use cil_parse::StatementKind;

/// What a statement declares in the table of types.
#[derive(Clone, Copy, PartialEq, Eq)]
pub enum Kind {
    Type,
    Alias,
    Attribute,
}

impl Kind {
    /// Whether a statement of a kind declares this.
    pub fn is(self, statement: StatementKind) -> bool
        ensures { result ≡ is_kind self statement }
    {
        match (self, statement) {
            (Kind::Type, StatementKind::TypeName) => true,
            (Kind::Alias, StatementKind::TypeAlias) => true,
            (Kind::Attribute, StatementKind::TypeAttribute) => true,
            _ => false,
        }
    }
}
