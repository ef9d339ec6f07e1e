//! The rules of one policy that stand in another one.

ghost use Rattle.std.specs.Prelude.{◌≡◌, ◌↔◌, ℕ, slice_get, Some, IfOk};
ghost use Rattle.cil_matching.specs.Common.{IsSameRule, meaning_in, AreMatched};

use crate::inverse::inverse;
use crate::places::place_at;
use crate::rule_places::rule_places;
use cil_bind::Lead;
use cil_resolve::{Resolved, resolved_rules_are_in_order};
use std::alloc::{AllocError, Allocator, Global};
use std::marker::Model;

/// For each rule of one policy the place of the same one in another policy, if that has it, and back. Contracts see the
/// two lists of places.
#[derive(Drop)]
pub struct RuleMatching<A: Allocator = Global> {
    ahead: Vec<Lead, A>,
    back: Vec<Lead, A>,
}

impl<A: Allocator> Model for RuleMatching<A> {
    ghost use Rattle.cil_matching.specs.Matching.{Matched};

    ghost Value = { Matched };

    ghost view = { λ m. record { ahead = m.ahead.items; back = m.back.items } };
}

impl<A: Allocator + Copy> RuleMatching<A> {
    /// The rules of an old policy that stand in a new one: those of the same module, offset and content. Its time goes
    /// with the size of the two.
    pub fn of(alloc: A, old: &Resolved<A>, new: &Resolved<A>) -> Result<Self, AllocError>
        ensures { IfOk result (AreMatched IsSameRule (meaning_in old.now).rules (meaning_in new.now).rules) }
    {
        resolved_rules_are_in_order(old);
        let ahead = rule_places(alloc, old, new)?;
        let back = inverse(alloc, &ahead, new.rules_len())?;
        Ok(RuleMatching { ahead, back })
    }
}

impl<A: Allocator> RuleMatching<A> {
    /// The place in the new policy of the old one's rule at a place, if the new policy has the same.
    pub fn new_place(&self, i: usize) -> Option<usize>
        ensures { (j : ℕ) → (result ≡ Some j) ↔ (slice_get self.now.ahead i ≡ Some (Some j)) }
    {
        place_at(&self.ahead, i)
    }

    /// The place in the old policy of the new one's rule at a place, if the old policy has the same.
    pub fn old_place(&self, j: usize) -> Option<usize>
        ensures { (i : ℕ) → (result ≡ Some i) ↔ (slice_get self.now.back j ≡ Some (Some i)) }
    {
        place_at(&self.back, j)
    }
}
