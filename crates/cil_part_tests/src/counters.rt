//! Counters of small policies, kept.

ghost use Rattle.std.specs.Prelude.{◌≡◌, length};
ghost use Rattle.cil_resolve.specs.Resolved.{meaning_in};
ghost use Rattle.cil_resolve.specs.Sets.{sets_in};
ghost use Rattle.cil_counters.specs.Counted.{steps_in, IsNow, WasBefore};

use crate::policies::policy;
use cil_counters::Counters;
use cil_names::Seed;
use cil_resolve::{Meter, Resolved};
use std::alloc::Global;
use std::process::Abort;

// Keeps the counters of a policy.
fn keep(counters: &mut Counters, policy: &Resolved)
    requires { IsNow policy.now counters.old }
    ensures now { IsNow policy.now counters.new }
    ensures before { WasBefore policy.now counters.new }
{
    counters.settle();
}

/// Goes back to the counters of a policy.
pub fn take_back(counters: &mut Counters, policy: &Resolved)
    requires { WasBefore policy.now counters.old }
    ensures now { IsNow policy.now counters.new }
    ensures before { WasBefore policy.now counters.new }
{
    counters.undo();
}

// The counters of a policy without set statements and rules.
fn none(rt: &impl Abort, alloc: Global, empty: &Resolved) -> Counters
    ensures sets { length (sets_in empty.now) ≡ 0 }
    ensures rules { length (meaning_in empty.now).rules ≡ 0 }
    ensures now { IsNow empty.now result }
    ensures before { WasBefore empty.now result }
    ensures settled { steps_in result ≡ 0 }
{
    assert!(rt; empty.sets_len() == 0);
    assert!(rt; empty.rules_len() == 0);
    Counters::none(alloc, Seed::fixed(), empty).expect(rt, "memory")
}

/// The counters of a policy.
pub fn counted(rt: &impl Abort, alloc: Global, resolved: &Resolved) -> Counters
    ensures now { IsNow resolved.now result }
    ensures before { WasBefore resolved.now result }
{
    let empty = policy(rt, alloc, b"");
    let mut counters = none(rt, alloc, &empty);
    counters
        .load_counted(alloc, &empty, resolved, &mut Meter::new())
        .expect(rt, "memory");
    keep(&mut counters, resolved);
    counters
}
