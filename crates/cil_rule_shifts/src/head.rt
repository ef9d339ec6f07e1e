//! The kind of a rule with its permits.

use crate::permit::Permit;
use cil_text::RuleKind;

/// The kind of a rule, and what it permits.
#[derive(Clone, Copy)]
pub struct RuleHead<'r> {
    pub kind: RuleKind,
    pub permits: &'r [Permit],
}
