//! Counters of the accesses of a first policy, counted from nothing.

ghost use Rattle.std.specs.Prelude.{◌≡◌, ◌≤◌, ℕ, length, OnOk};
ghost use Rattle.cil_table_updates.specs.Common.{adjustments_in, evaluations_in, meaning_in, AreMembersOf, below, AreRaised, count_now, steps_in, RiseAtMost, comes, gives_it, Adjusts, AdjustsAtLeast, AdjustsAtMost, all_given, given_by, rules_in, IsKnown, IsReady, IsRuleOf, AreCountsOf, HasSymbols, count_named};
ghost use Rattle.cil_member_rows.specs.Rows as members;
ghost use Rattle.cil_specs.specs.Meaning.{Meaning};

use crate::policy::{Named, Policy, Shared};
use cil_keyed_lines::{KeyedLines, SymbolKey};
use cil_resolve::{Meter, NumberedRule, resolved_rules_are_in_order};
use cil_rule_reach::{When, reached_permits, rule_reach};
use cil_rule_shifts::{Grant, put_rule};
use std::alloc::{AllocError, Allocator};

/// Adds what a rule of a policy gives, for good. The meter counts each counter that rises.
fn add_rule<A: Allocator + Copy>(
    lines: &mut KeyedLines<A>,
    alloc: A,
    policy: &Policy<'_, A>,
    rule: &NumberedRule<A>,
    meter: &mut Meter,
) -> Result<(), AllocError>
    requires known { IsKnown policy.now }
    requires below { IsRuleOf policy.now rule.now }
    requires settled { steps_in lines.old ≡ 0 }
    ensures settled { steps_in lines.new ≡ 0 }
    ensures now { OnOk result (AreRaised lines.old lines.new (given_by policy.now rule.now)) }
    ensures bounded { RiseAtMost lines.old lines.new (given_by policy.now rule.now) }
    ensures adjustments { OnOk result (Adjusts (gives_it policy.now rule.now) meter.old meter.new) }
    ensures evaluations { evaluations_in meter.new ≡ evaluations_in meter.old }
{
    let reach = rule_reach(alloc, &policy.members, policy.numbering, rule)?;
    let permits = reached_permits(alloc, policy.numbering, rule, &reach)?;
    let is = Grant {
        reach: &reach,
        permits: &permits,
    };
    let given = put_rule(lines, alloc, rule.kind, is)?;
    meter.adjusted(given);
    Ok(())
}

/// Adds what each rule of a policy gives, for good.
fn add_rules<A: Allocator + Copy>(
    lines: &mut KeyedLines<A>,
    alloc: A,
    policy: &Policy<'_, A>,
    meter: &mut Meter,
) -> Result<(), AllocError>
    requires ready { IsReady policy.now }
    requires settled { steps_in lines.old ≡ 0 }
    ensures settled { steps_in lines.new ≡ 0 }
    ensures now { OnOk result (AreRaised lines.old lines.new (all_given policy.now)) }
    ensures bounded { RiseAtMost lines.old lines.new (all_given policy.now) }
    ensures adjustments { OnOk result
        (Adjusts (below (comes policy.now) (rules_in policy.now)) meter.old meter.new) }
    ensures evaluations { evaluations_in meter.new ≡ evaluations_in meter.old }
{
    for j in 0..policy.resolved.rules().len() {
        add_rule(lines, alloc, policy, &policy.resolved.rules()[j], meter)?;
    }
    Ok(())
}

/// Counts what the rules of a policy give, in lines where nothing is counted. The rows hold the
/// members of the policy now. There is no step to take back, and none is logged: after an out of
/// memory the lines are of no use, but no counter is ever above the number of rules that give its
/// access. The meter counts each counter each time that it rises.
pub fn load<A: Allocator + Copy>(
    lines: &mut KeyedLines<A>,
    alloc: A,
    shared: Shared<'_, A>,
    new: Named<'_, A>,
    meter: &mut Meter,
) -> Result<(), AllocError>
    requires new_symbols { HasSymbols shared.names.now new }
    requires new_members { AreMembersOf
        shared.names.now (meaning_in new.resolved.now) (members.count_now shared.rows.now) }
    requires settled { steps_in lines.old ≡ 0 }
    requires none { (key : SymbolKey) (t : ℕ) → count_now lines.old key t ≡ 0 }
    ensures settled { steps_in lines.new ≡ 0 }
    ensures now { OnOk result
        (AreCountsOf shared.entry.names.now (meaning_in new.entry.resolved.now) lines.new) }
    ensures bounded { (key : SymbolKey) (t : ℕ) → count_now lines.new key t
        ≤ count_named shared.entry.names.now (meaning_in new.entry.resolved.now) key t }
    ensures at_most { OnOk result ((old : Meaning) → length old.rules ≡ 0
        → AdjustsAtMost old (meaning_in new.entry.resolved.now)
        (adjustments_in meter.old) (adjustments_in meter.new)) }
    ensures at_least { OnOk result (AdjustsAtLeast (count_now lines.old) (count_now lines.new)
        (adjustments_in meter.old) (adjustments_in meter.new)) }
    ensures evaluations { evaluations_in meter.new ≡ evaluations_in meter.old }
{
    let new = Policy::of(new, shared, When::Now);
    resolved_rules_are_in_order(new.resolved);
    add_rules(lines, alloc, &new, meter)
}
