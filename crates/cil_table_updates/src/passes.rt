//! Rules taken out, put in and replaced, one by one.

ghost use Rattle.std.specs.Prelude.{◌≡◌, ◌<◌, OnOk};
ghost use Rattle.cil_table_updates.specs.Common.{evaluations_in, below, AreLowered, AreMoved, CountAtLeast, NoneRises, RiseAtMost, StaysBefore, Adjusts, goes, swaps, turns, all_given, all_gone, all_stayed, given_there, gone_there, rules_in, stayed_there, AreReplaced, AreStaying, IsReady, IsReplaced};

use crate::changed_rows::ChangedRows;
use crate::moves::{PolicyRule, put_rule, replace_rule, take_rule};
use crate::policy::Policy;
use crate::staying::{plainly_stays, rule_stays};
use crate::staying_sets::StayingSets;
use cil_keyed_lines::KeyedLines;
use cil_matching::RuleMatching;
use cil_resolve::Meter;
use std::alloc::{AllocError, Allocator, Global};

/// Two policies with their rules matched, the rows whose members changed, and what is known of the
/// permission sets.
#[derive(Clone, Copy)]
pub struct Update<'p, A: Allocator = Global> {
    pub old: &'p Policy<'p, A>,
    pub new: &'p Policy<'p, A>,
    pub matching: &'p RuleMatching<A>,
    pub changed: &'p ChangedRows<'p, A>,
    pub sets: &'p StayingSets<A>,
}

/// A rule that both policies have, by its places.
#[derive(Clone, Copy)]
struct Stayed<'p, A: Allocator = Global> {
    update: &'p Update<'p, A>,
    i: usize,
    j: usize,
}

/// Takes the rule of a place out, unless the new policy has it too.
fn take_if_gone<A: Allocator + Copy>(
    lines: &mut KeyedLines<A>,
    alloc: A,
    update: &Update<'_, A>,
    i: usize,
    meter: &mut Meter,
) -> Result<(), AllocError>
    requires ready { IsReady update.now.old.now }
    requires within { i < rules_in update.now.old.now }
    requires counted { CountAtLeast lines.old
        (gone_there update.now.old.now update.now.matching.now i) }
    ensures now { OnOk result (AreLowered lines.old lines.new
        (gone_there update.now.old.now update.now.matching.now i)) }
    ensures before { StaysBefore lines.old lines.new }
    ensures bounded { NoneRises lines.old lines.new }
    ensures adjustments { OnOk result
        (Adjusts (goes update.now.old.now update.now.matching.now i) meter.old meter.new) }
    ensures evaluations { evaluations_in meter.new ≡ evaluations_in meter.old }
{
    match update.matching.new_place(i) {
        Some(_) => Ok(()),
        None => take_rule(
            lines,
            alloc,
            update.old,
            &update.old.resolved.rules()[i],
            meter,
        ),
    }
}

/// Takes the rules out that the new policy doesn't have.
pub fn take_gone<A: Allocator + Copy>(
    lines: &mut KeyedLines<A>,
    alloc: A,
    update: &Update<'_, A>,
    meter: &mut Meter,
) -> Result<(), AllocError>
    requires ready { IsReady update.now.old.now }
    requires counted { CountAtLeast lines.old
        (all_gone update.now.old.now update.now.matching.now) }
    ensures now { OnOk result (AreLowered lines.old lines.new
        (all_gone update.now.old.now update.now.matching.now)) }
    ensures before { StaysBefore lines.old lines.new }
    ensures bounded { NoneRises lines.old lines.new }
    ensures adjustments { OnOk result (Adjusts
        (below (goes update.now.old.now update.now.matching.now) (rules_in update.now.old.now))
        meter.old meter.new) }
    ensures evaluations { evaluations_in meter.new ≡ evaluations_in meter.old }
{
    for i in 0..update.old.resolved.rules().len() {
        take_if_gone(lines, alloc, update, i, meter)?;
    }
    Ok(())
}

/// Puts the rule of a place of the new policy in place of the same one of the old policy, unless it
/// gives what that did.
fn replace_changed<A: Allocator + Copy>(
    lines: &mut KeyedLines<A>,
    alloc: A,
    stayed: &Stayed<'_, A>,
    meter: &mut Meter,
) -> Result<(), AllocError>
    requires old_ready { IsReady stayed.now.update.now.old.now }
    requires new_ready { IsReady stayed.now.update.now.new.now }
    requires replaced { IsReplaced stayed.now.update.now.changed.now
        stayed.now.update.now.old.now stayed.now.i stayed.now.update.now.new.now stayed.now.j }
    requires staying { AreStaying stayed.now.update.now.old.now stayed.now.update.now.new.now
        stayed.now.update.now.sets.now }
    requires counted { CountAtLeast lines.old
        (given_there stayed.now.update.now.old.now stayed.now.i) }
    ensures now { OnOk result (AreMoved lines.old lines.new
        (given_there stayed.now.update.now.old.now stayed.now.i)
        (given_there stayed.now.update.now.new.now stayed.now.j)) }
    ensures before { StaysBefore lines.old lines.new }
    ensures bounded { RiseAtMost lines.old lines.new
        (given_there stayed.now.update.now.new.now stayed.now.j) }
    ensures adjustments { OnOk result (Adjusts (swaps stayed.now.update.now.old.now stayed.now.i
        stayed.now.update.now.new.now stayed.now.j) meter.old meter.new) }
    ensures evaluations { evaluations_in meter.new ≡ evaluations_in meter.old }
{
    let old = stayed.update.old;
    let new = stayed.update.new;
    let i = stayed.i;
    let j = stayed.j;
    let was = PolicyRule {
        policy: old,
        rule: &old.resolved.rules()[i],
    };
    let is = PolicyRule {
        policy: new,
        rule: &new.resolved.rules()[j],
    };
    let stays = rule_stays(alloc, stayed.update.changed, stayed.update.sets, &was, &is)?;
    if stays {
        return Ok(());
    }
    replace_rule(lines, alloc, &was, &is, meter)
}

/// Puts the rule of a place of the new policy in, or in place of the same one of the old policy.
fn put_or_replace<A: Allocator + Copy>(
    lines: &mut KeyedLines<A>,
    alloc: A,
    update: &Update<'_, A>,
    j: usize,
    meter: &mut Meter,
) -> Result<(), AllocError>
    requires old_ready { IsReady update.now.old.now }
    requires new_ready { IsReady update.now.new.now }
    requires within { j < rules_in update.now.new.now }
    requires matched { AreReplaced update.now.changed.now
        update.now.old.now update.now.new.now update.now.matching.now }
    requires staying { AreStaying update.now.old.now update.now.new.now update.now.sets.now }
    requires counted { CountAtLeast lines.old
        (stayed_there update.now.old.now update.now.matching.now j) }
    ensures now { OnOk result (AreMoved lines.old lines.new
        (stayed_there update.now.old.now update.now.matching.now j)
        (given_there update.now.new.now j)) }
    ensures before { StaysBefore lines.old lines.new }
    ensures bounded { RiseAtMost lines.old lines.new (given_there update.now.new.now j) }
    ensures adjustments { OnOk result (Adjusts
        (turns update.now.old.now update.now.new.now update.now.matching.now j)
        meter.old meter.new) }
    ensures evaluations { evaluations_in meter.new ≡ evaluations_in meter.old }
{
    let rule = &update.new.resolved.rules()[j];
    match update.matching.old_place(j) {
        Some(i) => {
            if plainly_stays(update.changed, update.new.numbering, rule) {
                return Ok(());
            }
            replace_changed(lines, alloc, &Stayed { update, i, j }, meter)
        }
        None => put_rule(lines, alloc, update.new, rule, meter),
    }
}

/// Adds what each rule of the new policy gives. A rule that both have replaces what it gave in the
/// old one.
pub fn put_new<A: Allocator + Copy>(
    lines: &mut KeyedLines<A>,
    alloc: A,
    update: &Update<'_, A>,
    meter: &mut Meter,
) -> Result<(), AllocError>
    requires old_ready { IsReady update.now.old.now }
    requires new_ready { IsReady update.now.new.now }
    requires matched { AreReplaced update.now.changed.now
        update.now.old.now update.now.new.now update.now.matching.now }
    requires staying { AreStaying update.now.old.now update.now.new.now update.now.sets.now }
    requires counted { CountAtLeast lines.old
        (all_stayed update.now.old.now update.now.new.now update.now.matching.now) }
    ensures now { OnOk result (AreMoved lines.old lines.new
        (all_stayed update.now.old.now update.now.new.now update.now.matching.now)
        (all_given update.now.new.now)) }
    ensures before { StaysBefore lines.old lines.new }
    ensures bounded { RiseAtMost lines.old lines.new (all_given update.now.new.now) }
    ensures adjustments { OnOk result (Adjusts
        (below (turns update.now.old.now update.now.new.now update.now.matching.now)
        (rules_in update.now.new.now)) meter.old meter.new) }
    ensures evaluations { evaluations_in meter.new ≡ evaluations_in meter.old }
{
    for j in 0..update.new.resolved.rules().len() {
        put_or_replace(lines, alloc, update, j, meter)?;
    }
    Ok(())
}
