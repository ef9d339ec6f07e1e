//! What counters say by full names. The functions have no code.

ghost use Rattle.std.specs.Prelude.{◌≡◌, ◌↔◌, ◌+◌, ◌≤◌, ℕ, List, IsTrue};
ghost use Rattle.cil_counters.specs.Common.{count_of, is_member, differ, meaning_in, atom_with, count_with, had_named, has_named, AreBounded, IsNow, WasBefore};
ghost use Rattle.cil_delta_specs.specs.Dirty.{IsChanged};

use crate::counters::Counters;
use cil_resolve::{
    Resolved, resolved_is_sound, resolved_names_are_kept, resolved_sets_are_in_order,
};
use cil_text::RuleKind;
use std::alloc::Allocator;

/// The counters of a policy tell, for every two names, whether the one type is a member of the other attribute.
pub fn counters_tell_members<A: Allocator>(resolved: &Resolved<A>, counters: &Counters<A>)
    requires { IsNow resolved.now counters.now }
    ensures { (attribute ty : List ℕ) → has_named counters.now attribute ty ≡ is_member (meaning_in resolved.now) attribute ty }
{
    resolved_names_are_kept(resolved);
    resolved_is_sound(resolved);
    resolved_sets_are_in_order(resolved);
}

/// Counters that stand at one policy before the steps, and at another now, tell the members that changed between the two.
pub fn counters_tell_changes<A: Allocator>(
    old: &Resolved<A>,
    new: &Resolved<A>,
    counters: &Counters<A>,
)
    requires before { WasBefore old.now counters.now }
    requires now { IsNow new.now counters.now }
    ensures { (attribute ty : List ℕ) → IsTrue (differ (had_named counters.now attribute ty) (has_named counters.now attribute ty))
        ↔ IsChanged (meaning_in old.now) (meaning_in new.now) attribute ty }
{
    resolved_names_are_kept(old);
    resolved_names_are_kept(new);
    resolved_is_sound(old);
    resolved_is_sound(new);
    resolved_sets_are_in_order(old);
    resolved_sets_are_in_order(new);
}

/// They tell of every access how many rules give it.
pub fn counters_tell_accesses<A: Allocator>(resolved: &Resolved<A>, counters: &Counters<A>)
    requires { IsNow resolved.now counters.now }
    ensures { (kind : RuleKind) (source target class permission : List ℕ) → count_with counters.now kind source target class permission ≡ count_of (meaning_in resolved.now) (atom_with kind source target class permission) }
{
    resolved_names_are_kept(resolved);
    resolved.rules();
}

/// Counters that are no more than the rules of two policies tell of no access more rules than give it in the one and in the other.
pub fn counters_are_bounded<A: Allocator>(
    one: &Resolved<A>,
    other: &Resolved<A>,
    counters: &Counters<A>,
)
    requires { AreBounded one.now other.now counters.now }
    ensures { (kind : RuleKind) (source target class permission : List ℕ) → count_with counters.now kind source target class permission
        ≤ count_of (meaning_in one.now) (atom_with kind source target class permission)
        + count_of (meaning_in other.now) (atom_with kind source target class permission) }
{}
