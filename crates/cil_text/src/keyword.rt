//! The first words of statements.

use crate::statement::RuleKind;
use crate::words::look_up;

/// The first word of a statement (CIL Reference Guide, "Container Statements", "Type Statements",
/// "Class and Permission Statements" and "Access Vector Rules").
#[derive(Clone, Copy, Debug, PartialEq, Eq)]
pub enum Keyword {
    Block,
    Optional,
    TypeName,
    TypeAlias,
    TypeAliasActual,
    TypeAttribute,
    TypeAttributeSet,
    Common,
    Class,
    ClassCommon,
    ClassOrder,
    ClassPermission,
    ClassPermissionSet,
    Rule(RuleKind),
}

// The first words of statements, by how many bytes they have.
const OF_4: [(&[u8], Keyword); 1] = [(b"type", Keyword::TypeName)];

const OF_5: [(&[u8], Keyword); 3] = [
    (b"allow", Keyword::Rule(RuleKind::Allow)),
    (b"block", Keyword::Block),
    (b"class", Keyword::Class),
];

const OF_6: [(&[u8], Keyword); 1] = [(b"common", Keyword::Common)];

const OF_8: [(&[u8], Keyword); 1] = [(b"optional", Keyword::Optional)];

const OF_9: [(&[u8], Keyword); 2] = [
    (b"typealias", Keyword::TypeAlias),
    (b"dontaudit", Keyword::Rule(RuleKind::DontAudit)),
];

const OF_10: [(&[u8], Keyword); 3] = [
    (b"classorder", Keyword::ClassOrder),
    (b"auditallow", Keyword::Rule(RuleKind::AuditAllow)),
    (b"neverallow", Keyword::Rule(RuleKind::NeverAllow)),
];

const OF_11: [(&[u8], Keyword); 1] = [(b"classcommon", Keyword::ClassCommon)];

const OF_13: [(&[u8], Keyword); 1] = [(b"typeattribute", Keyword::TypeAttribute)];

const OF_15: [(&[u8], Keyword); 2] = [
    (b"typealiasactual", Keyword::TypeAliasActual),
    (b"classpermission", Keyword::ClassPermission),
];

const OF_16: [(&[u8], Keyword); 1] = [(b"typeattributeset", Keyword::TypeAttributeSet)];

const OF_18: [(&[u8], Keyword); 1] = [(b"classpermissionset", Keyword::ClassPermissionSet)];

impl Keyword {
    ghost use Rattle.std.specs.Prelude.{◌≡◌, MatchOption, false};
    ghost use Rattle.cil_specs.specs.Shape.{is_among, keywords, outside_optionals};
    ghost use Rattle.cil_text.specs.Keyword.{spelling};

    /// The keyword that a word is.
    pub fn find(text: &[u8]) -> Option<Keyword>
        ensures { MatchOption result (is_among keywords text.now ≡ false)
            (λ keyword. text.now ≡ spelling keyword) }
    {
        match text.len() {
            4 => look_up(&OF_4, text),
            5 => look_up(&OF_5, text),
            6 => look_up(&OF_6, text),
            8 => look_up(&OF_8, text),
            9 => look_up(&OF_9, text),
            10 => look_up(&OF_10, text),
            11 => look_up(&OF_11, text),
            13 => look_up(&OF_13, text),
            15 => look_up(&OF_15, text),
            16 => look_up(&OF_16, text),
            18 => look_up(&OF_18, text),
            _ => None,
        }
    }

    /// Whether no optional may hold the statement.
    pub fn stands_outside_optionals(self) -> bool
        ensures { result ≡ is_among outside_optionals (spelling self) }
    {
        matches!(
            self,
            Keyword::Block
                | Keyword::Class
                | Keyword::Common
                | Keyword::ClassCommon
                | Keyword::ClassOrder
        )
    }
}
