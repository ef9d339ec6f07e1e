//! What a line of counters is of.

ghost use Rattle.std.specs.Prelude.{◌++◌};
ghost use Rattle.std.specs.Cmp.Rules.{hashing};
ghost use Rattle.std.specs.Hash as fed;
ghost use Rattle.std.proofs.Common.{rules};

use cil_text::RuleKind;
use std::hash::{Hash, Hasher};

/// What a line is of: a kind of rule, the type that is the source, a class, and a permission of it; the last three by numbers of their
/// names that stay. Keys are ordered in this order.
#[derive(Clone, Copy, PartialEq, Eq, PartialOrd, Ord)]
pub struct SymbolKey {
    pub kind: RuleKind,
    pub source: usize,
    pub class: usize,
    pub permission: usize,
}

/// The kind isn't hashed: few keys differ in it alone.
impl Hash for SymbolKey {
    ghost hash_input = { λ key. fed.usize key.source ++ fed.usize key.class ++ fed.usize key.permission };

    ghost respects_eq = { Prim.search (hashing, rules) };

    fn hash<H: Hasher>(&self, state: &mut H) {
        self.source.hash(state);
        self.class.hash(state);
        self.permission.hash(state);
    }
}
