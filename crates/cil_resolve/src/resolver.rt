//! Resolves a joined policy.

ghost use Rattle.std.specs.Prelude.{◌≡◌, List, IfOk, IfErr};
ghost use Rattle.cil_resolve.specs.Common.{Optionals, IsFirstFault, Means, IsNoted, PolicyFaultIs, IsFaultIn, IsFaultless, IsInOrder, AreParsedFrom, meaning_in};
ghost use Rattle.cil_specs.specs.Joined.{Module, Placed, joined as joined_policy};
ghost use Rattle.cil_bind.specs.Ordered.{IsLeast};

use crate::judged::Judged;
use crate::lowered::lowered;
use crate::resolved::Resolved;
use cil_bind::{Joined, Policy};
use cil_check::{BoundPolicy, Checker, PolicyFault};
use std::alloc::Allocator;

/// What a policy's faults are found by, if it has none but names that are declared twice.
fn checked<'p, 'm, A: Allocator + Copy>(
    alloc: A,
    joined: &'p Joined<'m, A>,
    policy: &'p Policy<'m, A>,
) -> Result<Checker<'p, 'm, A>, PolicyFault<'m>>
    requires { (others : List Placed) × IsInOrder policy.now joined.now.modules.items others }
    ensures noted { IfOk result (λ checker. (others : List Placed) → IsInOrder policy.now joined.now.modules.items others → IsNoted checker others) }
    ensures faultless { IfOk result (λ checker. (others : List Placed) → IsInOrder policy.now joined.now.modules.items others → IsFaultless others) }
    ensures joined { IfOk result (λ checker. checker.bound.joined.now ≡ joined.now) }
    ensures err { IfErr result (λ fault. (others : List Placed) → IsInOrder policy.now joined.now.modules.items others → PolicyFaultIs fault (IsLeast (IsFaultIn others))) }
{
    let checker = Checker::of(alloc, BoundPolicy { joined, policy })?;
    checker.check(alloc)?;
    Ok(checker)
}

/// The types, attributes, classes, statements of permission sets, set statements and rules of a policy by full names, with the optionals
/// that drop, or its first fault: that of the least code, then of the least module name by bytes, then of the least offset. What stands
/// in optionals that drop is left out, but for names that are declared twice.
pub fn resolve<'m, A: Allocator + Copy>(
    alloc: A,
    joined: &Joined<'m, A>,
) -> Result<Resolved<A>, PolicyFault<'m>>
    requires { (modules : List Module) × AreParsedFrom joined.now.modules.items modules }
    ensures meaning { IfOk result (λ r. (modules : List Module) → AreParsedFrom joined.now.modules.items modules → (kept : Optionals) × Means (joined_policy modules) kept (meaning_in r)) }
    ensures err { IfErr result (λ fault. (modules : List Module) → AreParsedFrom joined.now.modules.items modules → PolicyFaultIs fault (IsFirstFault (joined_policy modules))) }
{
    let Judged { policy, dropped } = Judged::of(alloc, joined)?;
    let checker = checked(alloc, joined, &policy)?;
    Ok(lowered(alloc, &checker, dropped)?)
}
