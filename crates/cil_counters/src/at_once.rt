//! The violations of a policy that is compiled once, and whose counters are not kept.

ghost use Rattle.std.specs.Prelude.{◌≡◌, length, IfOk};
ghost use Rattle.cil_counters.specs.Common.{rc_value, meaning_in, sets_in, AreViolations};

use crate::counters::Counters;
use cil_names::Seed;
use cil_resolve::Resolved;
use cil_violations::Violations;
use std::alloc::{AllocError, Allocator};
use std::rc::Rc;

/// The violations of a policy, whose members are counted from those of a policy without set statements and rules, as that of an empty
/// store is. No access is counted. The tables of names are hashed by a seed.
pub fn violations_at_once<A: Allocator + Copy>(
    alloc: A,
    seed: Seed,
    nothing: &Resolved<A>,
    policy: &Rc<Resolved<A>, A>,
) -> Result<Violations<A>, AllocError>
    requires sets { length (sets_in nothing.now) ≡ 0 }
    requires rules { length (meaning_in nothing.now).rules ≡ 0 }
    ensures { IfOk result (AreViolations (meaning_in (rc_value policy.now))) }
{
    let mut counters = Counters::none(alloc, seed, nothing)?;
    counters.violations_after(alloc, nothing, policy)
}
