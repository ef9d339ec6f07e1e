//! One set statement at all types.

ghost use Rattle.std.specs.Prelude.{◌≤◌, length, OnOk};
ghost use Rattle.cil_member_updates.specs.Common.{count_now, rows_in, AreAtLeast, AreMoved, ArePolicies, EvaluatesSet, HasStayed, HoldsTypes, KnowsTypes, is_given, lowered_by, MovesSet, raised_by, Reads, Stays, was_given};

use crate::plain_list::plain_list;
use crate::side::{Reading, Stayed};
use crate::visits::{reached_words, turned_words};
use crate::words::{give_word, move_word};
use cil_member_rows::MemberRows;
use cil_resolve::{Meter, resolved_sets_are_in_order};
use std::alloc::{AllocError, Allocator};

// How many symbols a word has.
const WORD: usize = 64;

/// Lowers the counters by what a set statement gave, if it is read as it was, or raises them by
/// what it gives now, word by word. Only the words are gone over in which it may hold a type.
fn give_words<A: Allocator + Copy>(
    rows: &mut MemberRows<A>,
    alloc: A,
    reading: &Reading<'_, A>,
    meter: &mut Meter,
) -> Result<(), AllocError>
    requires reads { Reads reading.now rows.old }
    requires known { KnowsTypes reading.now }
    requires room { length reading.now.symbols.now ≤ rows_in rows.old }
    requires above { AreAtLeast (lowered_by reading.now) (count_now rows.old) }
    ensures now { OnOk result (AreMoved (lowered_by reading.now) (raised_by reading.now)
        (count_now rows.old) (count_now rows.new)) }
    ensures stays { Stays rows.old rows.new meter.old meter.new }
    ensures evaluations { OnOk result (EvaluatesSet reading.now meter.old meter.new) }
{
    resolved_sets_are_in_order(reading.side.resolved);
    let reached = reached_words(reading);
    let end = reached.end.min(reading.symbols.len() / WORD + 1);
    for word in reached.first..end {
        give_word(rows, alloc, reading, word, meter)?;
    }
    Ok(())
}

/// The same, where the types that it holds are known.
fn give_known<A: Allocator + Copy>(
    rows: &mut MemberRows<A>,
    alloc: A,
    reading: &Reading<'_, A>,
    types: &[u64],
    meter: &mut Meter,
) -> Result<(), AllocError>
    requires reads { Reads reading.now rows.old }
    requires types { HoldsTypes reading.now types.now }
    requires room { length reading.now.symbols.now ≤ rows_in rows.old }
    requires above { AreAtLeast (lowered_by reading.now) (count_now rows.old) }
    ensures now { OnOk result (AreMoved (lowered_by reading.now) (raised_by reading.now)
        (count_now rows.old) (count_now rows.new)) }
    ensures stays { Stays rows.old rows.new meter.old meter.new }
    ensures evaluations { OnOk result (EvaluatesSet reading.now meter.old meter.new) }
{
    let known = Reading {
        symbols: reading.symbols,
        side: reading.side,
        when: reading.when,
        place: reading.place,
        held: Some(types),
    };
    give_words(rows, alloc, &known, meter)
}

/// Lowers the counters by what a set statement gave, if it is read as it was, or raises them by
/// what it gives now.
pub fn give_set<A: Allocator + Copy>(
    rows: &mut MemberRows<A>,
    alloc: A,
    reading: &Reading<'_, A>,
    meter: &mut Meter,
) -> Result<(), AllocError>
    requires reads { Reads reading.now rows.old }
    requires known { KnowsTypes reading.now }
    requires room { length reading.now.symbols.now ≤ rows_in rows.old }
    requires above { AreAtLeast (lowered_by reading.now) (count_now rows.old) }
    ensures now { OnOk result (AreMoved (lowered_by reading.now) (raised_by reading.now)
        (count_now rows.old) (count_now rows.new)) }
    ensures stays { Stays rows.old rows.new meter.old meter.new }
    ensures evaluations { OnOk result (EvaluatesSet reading.now meter.old meter.new) }
{
    match plain_list(alloc, reading, rows)? {
        Some(types) => give_known(rows, alloc, reading, &types, meter),
        None => give_words(rows, alloc, reading, meter),
    }
}

/// Moves the counters from what a set statement gave in the old policy to what it gives in the new
/// one. Only the words are gone over in which an attribute that the statement mentions had a step,
/// or, where it may hold types that none of its names holds, the two policies keep different types,
/// and those between them.
pub fn move_set<A: Allocator + Copy>(
    rows: &mut MemberRows<A>,
    alloc: A,
    stayed: &Stayed<'_, A>,
    meter: &mut Meter,
) -> Result<(), AllocError>
    requires policies { ArePolicies stayed.now.policies.now }
    requires stayed { HasStayed stayed.now rows.old }
    requires room { length stayed.now.policies.now.symbols.now ≤ rows_in rows.old }
    requires above { AreAtLeast (was_given stayed.now) (count_now rows.old) }
    ensures now { OnOk result (AreMoved (was_given stayed.now) (is_given stayed.now)
        (count_now rows.old) (count_now rows.new)) }
    ensures stays { Stays rows.old rows.new meter.old meter.new }
    ensures evaluations { OnOk result (MovesSet stayed.now meter.old meter.new) }
{
    resolved_sets_are_in_order(stayed.policies.new.resolved);
    let turned = turned_words(stayed, rows);
    let end = turned.end.min(stayed.policies.symbols.len() / WORD + 1);
    for word in turned.first..end {
        move_word(rows, alloc, stayed, word, meter)?;
    }
    Ok(())
}
