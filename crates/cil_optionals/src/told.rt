//! What the statements of a policy tell of names and permissions, in one pass over those about names.

ghost use Rattle.std.specs.Prelude.{List, length, OnOk};
ghost use Rattle.cil_optionals.specs.Common.{Placed, HavePermissions, IsReady};
ghost use Rattle.cil_optionals.specs.Providers.{AreProviders};
ghost use Rattle.cil_optionals.specs.Given.{permissions_in, IsInverse, IsUpTo};

use crate::listed::Listed;
use crate::providers::provide;
use cil_bind::{Joined, Policy};
use cil_needs::Need;
use std::alloc::{AllocError, Allocator};

/// Puts what the names that statements in optionals declare need behind others, where there are none, and takes up what the statements of
/// a policy list and give.
#[inline(never)]
pub fn tell_all<'m, A: Allocator + Copy>(
    alloc: A,
    joined: &Joined<'m, A>,
    policy: &Policy<'m, A>,
    listed: &mut Listed<'m, A>,
    needs: &mut Vec<Need, A>,
) -> Result<(), AllocError>
    requires ready { (all : List Placed) × IsReady policy.now joined.now.modules.items all }
    requires first { (all : List Placed) → IsReady policy.now joined.now.modules.items all
        → AreProviders all policy.now.rows.items 0 needs.old.items }
    requires none { (all : List Placed) → IsReady policy.now joined.now.modules.items all
        → IsUpTo all 0 listed.old }
    requires inverse { IsInverse listed.old }
    ensures providers { OnOk result ((all : List Placed) → IsReady policy.now joined.now.modules.items all
        → AreProviders all policy.now.rows.items (length all) needs.new.items) }
    ensures have { OnOk result ((all : List Placed) → IsReady policy.now joined.now.modules.items all
        → HavePermissions all (permissions_in listed.new)) }
    ensures inverse { OnOk result (IsInverse listed.new) }
{
    for k in 0..policy.name_places.len() {
        let i = policy.name_places[k] as usize;
        provide(policy, i, needs)?;
        listed.add(alloc, joined, policy, i)?;
    }
    Ok(())
}
