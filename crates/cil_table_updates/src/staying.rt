//! Rules that give what they did.

ghost use Rattle.std.specs.Prelude.{◌≡◌, true, length, IfOk, IsTrue};
ghost use Rattle.cil_resolve.specs.Below.{is_rule_below};
ghost use Rattle.cil_table_updates.specs.Changed.{StaysReach};
ghost use Rattle.cil_table_updates.specs.Common.{is_plain_list, AreAlike, AreStaying, IsRuleOf, PermitTheSame};

use crate::changed_rows::ChangedRows;
use crate::moves::PolicyRule;
use crate::same_permits::same_permits;
use crate::staying_sets::StayingSets;
use cil_resolve::{NumberedRule, ResolvedPermissions};
use cil_symbols::Numbering;
use std::alloc::{AllocError, Allocator};

/// Whether a rule has its permissions by a plain list.
fn is_plain<A: Allocator>(rule: &NumberedRule<A>) -> bool
    ensures { result ≡ is_plain_list rule.now }
{
    match &rule.permissions {
        ResolvedPermissions::OfClass(of) => of.written.is_none(),
        ResolvedPermissions::OfSet(_) => false,
    }
}

/// Whether a rule of a policy has its permissions by a plain list, and reaches what it did. This is so of most rules, and is told without
/// a look at the old policy.
pub fn plainly_stays<A: Allocator>(
    changed: &ChangedRows<'_, A>,
    numbering: &Numbering<A>,
    rule: &NumberedRule<A>,
) -> bool
    requires { IsTrue (is_rule_below (length numbering.now.symbols) rule.now) }
    ensures plain { result ≡ true → is_plain_list rule.now ≡ true }
    ensures reach { result ≡ true → StaysReach changed.now numbering.now.symbols rule.now }
{
    is_plain(rule) && changed.reach_stays(numbering, rule)
}

/// Whether a rule of the new policy permits what the same one of the old policy did. A plain list
/// names what it permits; of a permission set the answer is known; of another expression the
/// permits of both are compared.
fn permits_stay<A: Allocator + Copy>(
    alloc: A,
    sets: &StayingSets<A>,
    old: &PolicyRule<'_, A>,
    new: &PolicyRule<'_, A>,
) -> Result<bool, AllocError>
    requires old_below { IsRuleOf old.now.policy.now old.now.rule.now }
    requires new_below { IsRuleOf new.now.policy.now new.now.rule.now }
    requires alike { AreAlike old.now new.now }
    requires plain { is_plain_list new.now.rule.now ≡ true → PermitTheSame
        old.now.policy.now old.now.rule.now new.now.policy.now new.now.rule.now }
    requires staying { AreStaying old.now.policy.now new.now.policy.now sets.now }
    ensures { IfOk result (λ same. same ≡ true → PermitTheSame
        old.now.policy.now old.now.rule.now new.now.policy.now new.now.rule.now) }
{
    match &new.rule.permissions {
        ResolvedPermissions::OfSet(of) => Ok(sets.stays(of.set)),
        ResolvedPermissions::OfClass(of) => {
            if of.written.is_none() {
                return Ok(true);
            }
            same_permits(alloc, old, new)
        }
    }
}

/// Whether a rule of the new policy gives what the same one of the old policy did. No is the answer
/// where it may give something else.
pub fn rule_stays<A: Allocator + Copy>(
    alloc: A,
    changed: &ChangedRows<'_, A>,
    sets: &StayingSets<A>,
    old: &PolicyRule<'_, A>,
    new: &PolicyRule<'_, A>,
) -> Result<bool, AllocError>
    requires old_below { IsRuleOf old.now.policy.now old.now.rule.now }
    requires new_below { IsRuleOf new.now.policy.now new.now.rule.now }
    requires alike { AreAlike old.now new.now }
    requires plain { is_plain_list new.now.rule.now ≡ true → PermitTheSame
        old.now.policy.now old.now.rule.now new.now.policy.now new.now.rule.now }
    requires staying { AreStaying old.now.policy.now new.now.policy.now sets.now }
    ensures reach { IfOk result (λ stays. stays ≡ true
        → StaysReach changed.now new.now.policy.now.numbering.now.symbols new.now.rule.now) }
    ensures permits { IfOk result (λ stays. stays ≡ true → PermitTheSame
        old.now.policy.now old.now.rule.now new.now.policy.now new.now.rule.now) }
{
    if changed.reach_stays(new.policy.numbering, new.rule) {
        permits_stay(alloc, sets, old, new)
    } else {
        Ok(false)
    }
}
