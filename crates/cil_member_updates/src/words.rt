//! One set statement at the types of a word.

ghost use Rattle.std.specs.Prelude.{◌<◌, ◌≤◌, ◌^◌, length, OnOk};
ghost use Rattle.cil_member_updates.specs.Common.{count_now, rows_in, IsAtLeast, IsMoved, EvaluatesWord, HasStayed, KnowsTypes, is_given, lowered_by, MovesWord, raised_by, Reads, Stays, was_given};

use crate::masks::masked;
use crate::side::{Reading, Stayed, row_of};
use crate::visits::{reached, unsettled};
use crate::when::When;
use cil_member_rows::MemberRows;
use cil_resolve::Meter;
use std::alloc::{AllocError, Allocator};

/// Lowers the counters of a word by what a set statement gave, if it is read as it was, or raises
/// them by what it gives now.
pub fn give_word<A: Allocator + Copy>(
    rows: &mut MemberRows<A>,
    alloc: A,
    reading: &Reading<'_, A>,
    word: usize,
    meter: &mut Meter,
) -> Result<(), AllocError>
    requires reads { Reads reading.now rows.old }
    requires known { KnowsTypes reading.now }
    requires word { word < 2 ^ 58 }
    requires room { length reading.now.symbols.now ≤ rows_in rows.old }
    requires above { IsAtLeast word (lowered_by reading.now) (count_now rows.old) }
    ensures now { OnOk result (IsMoved word (lowered_by reading.now) (raised_by reading.now)
        (count_now rows.old) (count_now rows.new)) }
    ensures stays { Stays rows.old rows.new meter.old meter.new }
    ensures evaluations { EvaluatesWord reading.now word meter.old meter.new }
{
    let visits = reached(reading, rows, word);
    if visits == 0 {
        return Ok(());
    }
    let row = row_of(reading);
    let mask = masked(reading, rows, word, visits, meter);
    match reading.when {
        When::Before => rows.shift(alloc, row, word, mask, 0),
        When::Now => rows.shift(alloc, row, word, 0, mask),
    }
}

/// Moves the counters of a word from what a set statement gave in the old policy to what it gives
/// in the new one.
pub fn move_word<A: Allocator + Copy>(
    rows: &mut MemberRows<A>,
    alloc: A,
    stayed: &Stayed<'_, A>,
    word: usize,
    meter: &mut Meter,
) -> Result<(), AllocError>
    requires stayed { HasStayed stayed.now rows.old }
    requires word { word < 2 ^ 58 }
    requires room { length stayed.now.policies.now.symbols.now ≤ rows_in rows.old }
    requires above { IsAtLeast word (was_given stayed.now) (count_now rows.old) }
    ensures now { OnOk result (IsMoved word (was_given stayed.now) (is_given stayed.now)
        (count_now rows.old) (count_now rows.new)) }
    ensures stays { Stays rows.old rows.new meter.old meter.new }
    ensures evaluations { MovesWord stayed.now word meter.old meter.new }
{
    let visits = unsettled(stayed, rows, word);
    if visits == 0 {
        return Ok(());
    }
    let was = Reading {
        symbols: stayed.policies.symbols,
        side: stayed.policies.old,
        when: When::Before,
        place: stayed.i,
        held: None,
    };
    let is = Reading {
        symbols: stayed.policies.symbols,
        side: stayed.policies.new,
        when: When::Now,
        place: stayed.j,
        held: None,
    };
    let row = row_of(&is);
    let was_mask = masked(&was, rows, word, visits, meter);
    let is_mask = masked(&is, rows, word, visits, meter);
    rows.shift(alloc, row, word, was_mask, is_mask)
}
