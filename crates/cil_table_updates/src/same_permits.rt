//! What two rules permit, compared.

ghost use Rattle.std.specs.Prelude.{◌≡◌, true, IfOk};
ghost use Rattle.cil_table_updates.specs.Common.{IsRuleOf, PermitTheSame};

use crate::moves::PolicyRule;
use cil_rule_reach::rule_permits;
use std::alloc::{AllocError, Allocator};

/// Whether rules of two policies permit the same. Their permits stand in order, and are compared.
pub fn same_permits<A: Allocator + Copy>(
    alloc: A,
    old: &PolicyRule<'_, A>,
    new: &PolicyRule<'_, A>,
) -> Result<bool, AllocError>
    requires old_below { IsRuleOf old.now.policy.now old.now.rule.now }
    requires new_below { IsRuleOf new.now.policy.now new.now.rule.now }
    ensures { IfOk result (λ same. same ≡ true → PermitTheSame
        old.now.policy.now old.now.rule.now new.now.policy.now new.now.rule.now) }
{
    let had = rule_permits(alloc, old.policy.numbering, old.rule)?;
    let has = rule_permits(alloc, new.policy.numbering, new.rule)?;
    Ok(had.as_slice() == has.as_slice())
}
