//! What a policy keeps.

ghost use Rattle.std.specs.Prelude.{◌≡◌, List, IfOk, IfErr};
ghost use Rattle.cil_resolve.specs.Common.{IsFirstFault, PolicyFaultIs, IsFoundFault, fault_of, AreJudged, IsJudged, IsWhole, AreParsedFrom};
ghost use Rattle.cil_specs.specs.Joined.{Module, Placed, joined as joined_policy};

use crate::dropped::dropped_optionals;
use crate::numbered::DroppedOptional;
use cil_bind::{Joined, Joining, Policy, Redeclaration};
use cil_check::{PolicyFault, PolicyFaultKind};
use cil_optionals::kept_optionals;
use std::alloc::{AllocError, Allocator, Global};

/// The statements of a policy that stand in kept optionals alone, or in none, and the optionals that drop.
#[derive(Drop)]
pub struct Judged<'m, A: Allocator = Global> {
    pub policy: Policy<'m, A>,
    pub dropped: Vec<DroppedOptional<A>, A>,
}

/// The fault of a name that is declared again.
fn again_fault(again: Redeclaration<'_>) -> PolicyFault<'_>
    ensures { IsFoundFault result (λ f. f ≡ fault_of again.entry) }
{
    PolicyFault::Found {
        kind: PolicyFaultKind::Twice,
        module: again.module,
        at: again.at,
        word: again.word,
    }
}

impl<'m, A: Allocator + Copy> Judged<'m, A> {
    /// What the joined policy of modules keeps. A fault is out of memory, or a name that is declared twice, also one in an optional that
    /// drops.
    pub fn of(alloc: A, joined: &Joined<'m, A>) -> Result<Self, PolicyFault<'m>>
        requires { (modules : List Module) × AreParsedFrom joined.now.modules.items modules }
        ensures judged { IfOk result (AreJudged joined.now.modules.items) }
        ensures err { IfErr result (λ fault. (modules : List Module) → AreParsedFrom joined.now.modules.items modules → PolicyFaultIs fault (IsFirstFault (joined_policy modules))) }
    {
        let policy = match Policy::of(alloc, joined)? {
            Joining::Once(policy) => policy,
            Joining::Twice(again) => return Err(again_fault(again)),
        };
        let judged = Judged::of_policy(alloc, joined, policy)?;
        Ok(judged)
    }

    /// What a bound policy keeps.
    fn of_policy(
        alloc: A,
        joined: &Joined<'m, A>,
        policy: Policy<'m, A>,
    ) -> Result<Self, AllocError>
        requires { (all : List Placed) × IsWhole policy joined.now.modules.items all }
        ensures { IfOk result (λ judged. (all : List Placed) → IsWhole policy.entry joined.now.modules.items all → IsJudged all joined.now.modules.items judged) }
    {
        let kept = kept_optionals(alloc, joined, &policy)?;
        let dropped = dropped_optionals(alloc, joined, &policy, &kept)?;
        let policy = policy.restrict(alloc, joined, &kept)?;
        Ok(Judged { policy, dropped })
    }
}
