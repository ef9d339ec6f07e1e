//! Counters of accesses brought from an old policy to a new one.

ghost use Rattle.std.specs.Prelude.{◌≡◌, ◌+◌, ◌≤◌, ℕ, OnOk};
ghost use Rattle.cil_table_updates.specs.Common.{adjustments_in, evaluations_in, meaning_in, AreMembersOf, count_now, StaysBefore, AdjustsAtLeast, AdjustsAtMost, AreCountsOf, HasSymbols, count_named};
ghost use Rattle.cil_member_rows.specs.Rows as members;

use crate::changed_rows::ChangedRows;
use crate::passes::{Update, put_new, take_gone};
use crate::policy::{Policies, Policy, Shared};
use crate::staying_sets::StayingSets;
use cil_keyed_lines::{KeyedLines, SymbolKey};
use cil_matching::RuleMatching;
use cil_resolve::{Meter, resolved_rules_are_in_order};
use cil_rule_reach::When;
use std::alloc::{AllocError, Allocator};

/// Brings the counters of an old policy's accesses to a new one in steps, which `undo` takes back,
/// also after an out of memory. The rows hold the members of the old policy before their steps, and
/// those of the new one now. Rules that both policies have, of the same module, offset and content,
/// are passed over where the members of their source and target stayed and they permit the same.
/// The meter counts each counter that moves. No counter is ever above the number of rules of both
/// policies that give its access.
pub fn update<A: Allocator + Copy>(
    lines: &mut KeyedLines<A>,
    alloc: A,
    shared: Shared<'_, A>,
    policies: Policies<'_, A>,
    meter: &mut Meter,
) -> Result<(), AllocError>
    requires old_symbols { HasSymbols shared.names.now policies.old }
    requires new_symbols { HasSymbols shared.names.now policies.new }
    requires old_members { AreMembersOf shared.names.now
        (meaning_in policies.old.resolved.now) (members.count_before shared.rows.now) }
    requires new_members { AreMembersOf shared.names.now
        (meaning_in policies.new.resolved.now) (members.count_now shared.rows.now) }
    requires stands { AreCountsOf
        shared.names.now (meaning_in policies.old.resolved.now) lines.old }
    ensures now { OnOk result (AreCountsOf shared.entry.names.now
        (meaning_in policies.entry.new.resolved.now) lines.new) }
    ensures before { StaysBefore lines.old lines.new }
    ensures bounded { (key : SymbolKey) (t : ℕ) → count_now lines.new key t
        ≤ count_named shared.entry.names.now (meaning_in policies.entry.old.resolved.now) key t
        + count_named shared.entry.names.now (meaning_in policies.entry.new.resolved.now) key t }
    ensures at_most { OnOk result (AdjustsAtMost (meaning_in policies.entry.old.resolved.now)
        (meaning_in policies.entry.new.resolved.now)
        (adjustments_in meter.old) (adjustments_in meter.new)) }
    ensures at_least { OnOk result (AdjustsAtLeast (count_now lines.old) (count_now lines.new)
        (adjustments_in meter.old) (adjustments_in meter.new)) }
    ensures evaluations { evaluations_in meter.new ≡ evaluations_in meter.old }
{
    let old = Policy::of(policies.old, shared, When::Before);
    let new = Policy::of(policies.new, shared, When::Now);
    resolved_rules_are_in_order(old.resolved);
    resolved_rules_are_in_order(new.resolved);
    let matching = RuleMatching::of(alloc, old.resolved, new.resolved)?;
    let changed = ChangedRows::of(alloc, shared.rows, shared.names.len())?;
    let sets = StayingSets::of(alloc, &old, &new, &matching)?;
    let update = Update {
        old: &old,
        new: &new,
        matching: &matching,
        changed: &changed,
        sets: &sets,
    };
    take_gone(lines, alloc, &update, meter)?;
    put_new(lines, alloc, &update, meter)
}
