//! Accesses by numbers.

ghost use Rattle.std.specs.Prelude.{◌≡◌, ◌≤◌, ◌^◌, length, IfOk, OnErr};
ghost use Rattle.cil_rules.specs.Common.{is_listed, rule_kind_of, IsWithin, atom_of, atom_at};

use crate::atom::Atom;
use cil_accesses::AccessNumbers;
use cil_resolve::Text;
use cil_text::RuleKind;
use std::alloc::{AllocError, Allocator};

/// A place in a list of names in 32 bits. More names than these can number don't fit in memory; no other place is refused.
pub fn number(n: usize) -> Result<u32, AllocError>
    ensures same { IfOk result (λ k. k ≡ n) }
    ensures beyond { OnErr result (2 ^ 32 ≤ n) }
{
    match u32::try_from(n) {
        Ok(k) => Ok(k),
        Err(_) => Err(AllocError),
    }
}

/// An access by the names at its numbers.
pub fn named<'t, A: Allocator>(access: &AccessNumbers, names: &'t [Text<A>]) -> Atom<'t>
    requires { IsWithin (length names.now) access.now }
    ensures { atom_of result ≡ atom_at names.now access.now }
{
    Atom {
        kind: access.kind,
        source: names[access.source as usize].as_slice(),
        target: names[access.target as usize].as_slice(),
        class: names[access.class as usize].as_slice(),
        permission: names[access.permission as usize].as_slice(),
    }
}

/// Whether rows of a kind are listed.
pub fn is_listed(kind: RuleKind) -> bool
    ensures { result ≡ is_listed (rule_kind_of kind) }
{
    kind != RuleKind::NeverAllow
}
