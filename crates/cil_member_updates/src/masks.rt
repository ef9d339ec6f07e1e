//! The types of a word that a set statement holds.

ghost use Rattle.std.specs.Prelude.{◌≡◌, ◌*◌, ◌%◌, ◌<◌, ◌≤◌, ◌^◌, ℕ, slice_index};
ghost use Rattle.std.specs.Int.{bit_at};
ghost use Rattle.cil_member_updates.specs.Common.{adjustments_in, evaluations_in, held_by, EvaluatesOnce, KnowsTypes, MayHold, Reads, TellsMember, AreHeld, is_asked};
ghost use Rattle.cil_member_updates.specs.Counts.{one_if};
ghost use Rattle.cil_sums.specs.Rises.{RisesBy};

use crate::held::has_bit;
use crate::side::Reading;
use crate::when::is_member;
use cil_member_rows::MemberRows;
use cil_resolve::{Meter, resolved_names_are_kept};
use std::alloc::Allocator;

// How many symbols a word has.
const WORD: usize = 64;

/// Whether a type is a member of an attribute that has a number in the policy.
fn is_known<A: Allocator>(
    reading: &Reading<'_, A>,
    rows: &MemberRows<A>,
    attribute: usize,
    t: usize,
) -> bool
    ensures { TellsMember reading.now rows.now attribute t result }
{
    match reading.side.numbering.symbol(attribute) {
        Some(row) => is_member(rows, &reading.when, row, t),
        None => false,
    }
}

/// Whether a set statement holds a kept type, by its expression.
fn evaluated<A: Allocator>(
    reading: &Reading<'_, A>,
    rows: &MemberRows<A>,
    t: usize,
    meter: &mut Meter,
) -> bool
    requires reads { Reads reading.now rows.now }
    requires kept { MayHold reading.now t }
    ensures held { result ≡ held_by reading.now t }
    ensures evaluations { EvaluatesOnce meter.old meter.new }
    ensures adjustments { adjustments_in meter.new ≡ adjustments_in meter.old }
{
    resolved_names_are_kept(reading.side.resolved);
    let ty = reading.side.numbering.local(t).unwrap();
    reading.side.resolved.evaluate(
        reading.place,
        ty,
        |attribute|
            ensures { TellsMember reading.entry.now rows.entry.now attribute t result }
        { is_known(reading, rows, attribute, t) },
        meter,
    )
}

/// Whether a set statement holds a kept type.
fn is_held<A: Allocator>(
    reading: &Reading<'_, A>,
    rows: &MemberRows<A>,
    t: usize,
    meter: &mut Meter,
) -> bool
    requires reads { Reads reading.now rows.now }
    requires known { KnowsTypes reading.now }
    requires kept { MayHold reading.now t }
    ensures held { result ≡ held_by reading.now t }
    ensures evaluations { EvaluatesOnce meter.old meter.new }
    ensures adjustments { adjustments_in meter.new ≡ adjustments_in meter.old }
{
    match reading.held {
        Some(types) => {
            meter.evaluated();
            has_bit(types, t)
        }
        None => evaluated(reading, rows, t, meter),
    }
}

/// The bit of a symbol of a word, if a set statement holds its type.
fn held_bit<A: Allocator>(
    reading: &Reading<'_, A>,
    rows: &MemberRows<A>,
    t: usize,
    meter: &mut Meter,
) -> u64
    requires reads { Reads reading.now rows.now }
    requires known { KnowsTypes reading.now }
    requires kept { MayHold reading.now t }
    ensures bit { result ≡ one_if (held_by reading.now t) * 2 ^ (t % 64) }
    ensures evaluations { EvaluatesOnce meter.old meter.new }
    ensures adjustments { adjustments_in meter.new ≡ adjustments_in meter.old }
{
    if is_held(reading, rows, t, meter) {
        1 << (t % WORD)
    } else {
        0
    }
}

/// The place of the first bit from one on that is 1, or how many bits a word has where there is none.
fn next_bit(bits: u64, from: usize) -> usize
    requires { from ≤ 64 }
    ensures from_on { from ≤ result }
    ensures within { result ≤ 64 }
    ensures clear { (k : ℕ) → from ≤ k → k < result → bit_at bits k ≡ 0 }
    ensures set { result < 64 → bit_at bits result ≡ 1 }
{
    if from >= WORD {
        return WORD;
    }
    let behind = bits >> from;
    if behind == 0 {
        return WORD;
    }
    from + behind.trailing_zeros() as usize
}

/// The types of a word that a set statement holds, among those of some bits.
pub fn masked<A: Allocator>(
    reading: &Reading<'_, A>,
    rows: &MemberRows<A>,
    word: usize,
    visits: u64,
    meter: &mut Meter,
) -> u64
    requires reads { Reads reading.now rows.now }
    requires known { KnowsTypes reading.now }
    requires word { word < 2 ^ 58 }
    ensures held { AreHeld visits (held_by reading.now) word result }
    ensures evaluations { RisesBy (is_asked visits (slice_index reading.now.side.now.kept.now word))
        (evaluations_in meter.old) (evaluations_in meter.new) }
    ensures adjustments { adjustments_in meter.new ≡ adjustments_in meter.old }
{
    let kept = visits & reading.side.kept.word(word);
    let mut mask = 0;
    let mut b = next_bit(kept, 0);
    while b < WORD {
        mask |= held_bit(reading, rows, WORD * word + b, meter);
        b = next_bit(kept, b + 1);
    }
    mask
}
