//! The members of a policy made those of another one.

ghost use Rattle.std.specs.Prelude.{◌≡◌, ◌≤◌, ℕ, length, OnOk};
ghost use Rattle.cil_delta_specs.specs.Work.{EvaluatesFew};
ghost use Rattle.cil_member_updates.specs.Common.{adjustments_in, evaluations_in, meaning_in, count_before, count_now, rows_in, AreCounts, IsSide, ArePolicies, AreSetsMatched, IsRead, Stays, AreLowered, AreNew, AreOld, AreStayed, EvaluatesGone, EvaluatesGoneAt, EvaluatesNew, EvaluatesNewAt, IsLowered, IsRenewed, new_sets, old_sets};
ghost use Rattle.cil_member_updates.specs.Passes.{gone_in, stayed_in};

use crate::kept::unlike_words;
use crate::sets::{give_set, move_set};
use crate::side::{Policies, Reading, Sides, Stayed};
use crate::when::When;
use cil_matching::SetMatching;
use cil_member_rows::MemberRows;
use cil_resolve::{
    Meter, resolved_is_sound, resolved_names_are_kept, resolved_sets_are_apart,
    resolved_sets_are_in_order,
};
use cil_symbols::Symbols;
use std::alloc::{AllocError, Allocator};

/// Lowers the counters by what the old set statement at a place gave, unless the new policy has it.
fn lower_gone_set<A: Allocator + Copy>(
    rows: &mut MemberRows<A>,
    alloc: A,
    policies: &Policies<'_, A>,
    i: usize,
    meter: &mut Meter,
) -> Result<(), AllocError>
    requires read { IsRead policies.now.symbols.now policies.now.old.now i (count_before rows.old) }
    requires room { length policies.now.symbols.now ≤ rows_in rows.old }
    requires above { (a t : ℕ) → gone_in policies.now a t i ≤ count_now rows.old a t }
    ensures now { OnOk result (IsLowered policies.now i rows.old rows.new) }
    ensures stays { Stays rows.old rows.new meter.old meter.new }
    ensures evaluations { OnOk result (EvaluatesGoneAt policies.now i meter.old meter.new) }
{
    match policies.matching.new_place(i) {
        Some(_) => Ok(()),
        None => {
            let was = Reading {
                symbols: policies.symbols,
                side: policies.old,
                when: When::Before,
                place: i,
                held: None,
            };
            give_set(rows, alloc, &was, meter)
        }
    }
}

/// Lowers the counters by what the old set statements gave that the new policy hasn't.
fn lower_gone<A: Allocator + Copy>(
    rows: &mut MemberRows<A>,
    alloc: A,
    policies: &Policies<'_, A>,
    meter: &mut Meter,
) -> Result<(), AllocError>
    requires policies { ArePolicies policies.now }
    requires room { length policies.now.symbols.now ≤ rows_in rows.old }
    requires before { AreOld policies.now (count_before rows.old) }
    requires now { AreOld policies.now (count_now rows.old) }
    ensures now { OnOk result (AreLowered policies.now (old_sets policies.now) rows.new) }
    ensures stays { Stays rows.old rows.new meter.old meter.new }
    ensures evaluations { OnOk result
        (EvaluatesGone policies.now (old_sets policies.now) meter.old meter.new) }
{
    resolved_is_sound(policies.old.resolved);
    resolved_sets_are_in_order(policies.old.resolved);
    for i in 0..policies.old.resolved.sets_len() {
        lower_gone_set(rows, alloc, policies, i, meter)?;
    }
    Ok(())
}

/// Moves the counters to what the new set statement at a place gives, from what it gave if the old
/// policy has it.
fn renew_set<A: Allocator + Copy>(
    rows: &mut MemberRows<A>,
    alloc: A,
    policies: &Policies<'_, A>,
    j: usize,
    meter: &mut Meter,
) -> Result<(), AllocError>
    requires policies { ArePolicies policies.now }
    requires read { IsRead policies.now.symbols.now policies.now.new.now j (count_now rows.old) }
    requires room { length policies.now.symbols.now ≤ rows_in rows.old }
    requires before { AreOld policies.now (count_before rows.old) }
    requires above { (a t : ℕ) → stayed_in policies.now a t j ≤ count_now rows.old a t }
    ensures now { OnOk result (IsRenewed policies.now j rows.old rows.new) }
    ensures stays { Stays rows.old rows.new meter.old meter.new }
    ensures evaluations { OnOk result (EvaluatesNewAt policies.now j meter.old meter.new) }
{
    resolved_is_sound(policies.old.resolved);
    resolved_sets_are_in_order(policies.old.resolved);
    match policies.matching.old_place(j) {
        Some(i) => move_set(rows, alloc, &Stayed { policies, i, j }, meter),
        None => {
            let is = Reading {
                symbols: policies.symbols,
                side: policies.new,
                when: When::Now,
                place: j,
                held: None,
            };
            give_set(rows, alloc, &is, meter)
        }
    }
}

/// Moves the counters to what the new set statements give, in the order of their dependence.
fn renew<A: Allocator + Copy>(
    rows: &mut MemberRows<A>,
    alloc: A,
    policies: &Policies<'_, A>,
    meter: &mut Meter,
) -> Result<(), AllocError>
    requires policies { ArePolicies policies.now }
    requires room { length policies.now.symbols.now ≤ rows_in rows.old }
    requires before { AreOld policies.now (count_before rows.old) }
    requires now { AreStayed policies.now rows.old }
    ensures now { OnOk result (AreNew policies.now (count_now rows.new)) }
    ensures stays { Stays rows.old rows.new meter.old meter.new }
    ensures evaluations { OnOk result
        (EvaluatesNew policies.now (new_sets policies.now) meter.old meter.new) }
{
    resolved_is_sound(policies.new.resolved);
    resolved_sets_are_in_order(policies.new.resolved);
    for j in 0..policies.new.resolved.sets_len() {
        renew_set(rows, alloc, policies, j, meter)?;
    }
    Ok(())
}

/// Makes the rows, which hold how many set statements of an old policy make each type a member of
/// each attribute, hold it of a new policy. Who was a member before the steps stays, also where
/// memory runs out, so that `undo` leads back to the old policy.
pub fn update<A: Allocator + Copy>(
    rows: &mut MemberRows<A>,
    alloc: A,
    symbols: &Symbols<A>,
    sides: &Sides<'_, A>,
    meter: &mut Meter,
) -> Result<(), AllocError>
    requires old { IsSide symbols.now sides.now.old }
    requires new { IsSide symbols.now sides.now.new }
    requires matched { AreSetsMatched sides.now.old sides.now.new sides.now.matching.now }
    requires room { length symbols.now ≤ rows_in rows.old }
    requires before { AreCounts symbols.now sides.now.old.resolved.now (count_before rows.old) }
    requires now { AreCounts symbols.now sides.now.old.resolved.now (count_now rows.old) }
    ensures now { OnOk result
        (AreCounts symbols.now sides.now.new.resolved.now (count_now rows.new)) }
    ensures before { (a t : ℕ) → count_before rows.new a t ≡ count_before rows.old a t }
    ensures rows { rows_in rows.new ≡ rows_in rows.old }
    ensures evaluations { OnOk result (EvaluatesFew
        (meaning_in sides.now.old.resolved.now) (meaning_in sides.now.new.resolved.now)
        (evaluations_in meter.old) (evaluations_in meter.new)) }
    ensures adjustments { adjustments_in meter.new ≡ adjustments_in meter.old }
{
    resolved_is_sound(sides.old.resolved);
    resolved_is_sound(sides.new.resolved);
    resolved_names_are_kept(sides.new.resolved);
    resolved_sets_are_in_order(sides.old.resolved);
    resolved_sets_are_in_order(sides.new.resolved);
    resolved_sets_are_apart(sides.old.resolved);
    resolved_sets_are_apart(sides.new.resolved);
    let policies = Policies {
        symbols,
        old: &sides.old,
        new: &sides.new,
        matching: sides.matching,
        unlike: unlike_words(sides.old.kept, sides.new.kept),
    };
    lower_gone(rows, alloc, &policies, meter)?;
    renew(rows, alloc, &policies, meter)
}
