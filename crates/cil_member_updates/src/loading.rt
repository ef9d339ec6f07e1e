//! The members of a policy, counted from nothing.

ghost use Rattle.std.specs.Prelude.{◌≡◌, ◌≤◌, ℕ, length, OnOk};
ghost use Rattle.cil_delta_specs.specs.Work.{EvaluatesFew};
ghost use Rattle.cil_member_updates.specs.Common.{adjustments_in, evaluations_in, meaning_in, count_now, rows_in, sets_in, AreCounts, AreSetsMatched, EvaluatesFirst, IsSettled, IsSide};

use crate::sets::give_set;
use crate::side::{Reading, Side, Sides};
use crate::when::When;
use cil_member_rows::MemberRows;
use cil_resolve::{
    Meter, resolved_is_sound, resolved_names_are_kept, resolved_sets_are_apart,
    resolved_sets_are_in_order,
};
use cil_symbols::Symbols;
use std::alloc::{AllocError, Allocator};

/// Raises counters, which are all 0, to what the set statements of a policy give, in the order of
/// their dependence. Of the steps none but the last are still logged.
fn load_sets<'p, A: Allocator + Copy>(
    rows: &mut MemberRows<A>,
    alloc: A,
    symbols: &'p Symbols<A>,
    side: &'p Side<'p, A>,
    meter: &mut Meter,
) -> Result<(), AllocError>
    requires side { IsSide symbols.now side.now }
    requires room { length symbols.now ≤ rows_in rows.old }
    requires none { (a t : ℕ) → count_now rows.old a t ≡ 0 }
    ensures now { OnOk result (AreCounts symbols.now side.now.resolved.now (count_now rows.new)) }
    ensures rows { rows_in rows.new ≡ rows_in rows.old }
    ensures evaluations { OnOk result (EvaluatesFirst symbols.now side.now.resolved.now
        (length (sets_in side.now.resolved.now)) meter.old meter.new) }
    ensures adjustments { adjustments_in meter.new ≡ adjustments_in meter.old }
{
    resolved_is_sound(side.resolved);
    resolved_sets_are_in_order(side.resolved);
    for place in 0..side.resolved.sets_len() {
        let is = Reading {
            symbols,
            side,
            when: When::Now,
            place,
            held: None,
        };
        give_set(rows, alloc, &is, meter)?;
        rows.settle_many();
    }
    Ok(())
}

/// `update` from an old policy without set statements, with no way back: the steps are kept as they
/// are taken, so that their log never grows long.
pub fn load<A: Allocator + Copy>(
    rows: &mut MemberRows<A>,
    alloc: A,
    symbols: &Symbols<A>,
    sides: &Sides<'_, A>,
    meter: &mut Meter,
) -> Result<(), AllocError>
    requires old { IsSide symbols.now sides.now.old }
    requires new { IsSide symbols.now sides.now.new }
    requires matched { AreSetsMatched sides.now.old sides.now.new sides.now.matching.now }
    requires room { length symbols.now ≤ rows_in rows.old }
    requires sets { length (sets_in sides.now.old.resolved.now) ≡ 0 }
    requires now { AreCounts symbols.now sides.now.old.resolved.now (count_now rows.old) }
    ensures now { OnOk result
        (AreCounts symbols.now sides.now.new.resolved.now (count_now rows.new)) }
    ensures settled { OnOk result (IsSettled rows.new) }
    ensures rows { rows_in rows.new ≡ rows_in rows.old }
    ensures evaluations { OnOk result (EvaluatesFew
        (meaning_in sides.now.old.resolved.now) (meaning_in sides.now.new.resolved.now)
        (evaluations_in meter.old) (evaluations_in meter.new)) }
    ensures adjustments { adjustments_in meter.new ≡ adjustments_in meter.old }
{
    resolved_is_sound(sides.old.resolved);
    resolved_is_sound(sides.new.resolved);
    resolved_names_are_kept(sides.new.resolved);
    resolved_sets_are_in_order(sides.old.resolved);
    resolved_sets_are_in_order(sides.new.resolved);
    resolved_sets_are_apart(sides.old.resolved);
    resolved_sets_are_apart(sides.new.resolved);
    load_sets(rows, alloc, symbols, &sides.new, meter)?;
    rows.settle();
    Ok(())
}
