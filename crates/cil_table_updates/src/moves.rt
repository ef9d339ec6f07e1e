//! Counters moved from what a rule gave to what it gives.

ghost use Rattle.std.specs.Prelude.{◌≡◌, OnOk};
ghost use Rattle.cil_table_updates.specs.Common.{evaluations_in, IsGrant, grants, ones, AreLowered, AreMoved, AreRaised, CountAtLeast, NoneRises, RiseAtMost, StaysBefore, Adjusts, gives_it, replaces, shifts, given_by, IsKnown, IsRuleOf};

use crate::policy::Policy;
use cil_keyed_lines::KeyedLines;
use cil_resolve::{Meter, NumberedRule};
use cil_rule_reach::{reached_permits, rule_reach};
use cil_rule_shifts::{Grant, Reach, shift_rule};
use cil_text::RuleKind;
use std::alloc::{AllocError, Allocator, Global};

/// A rule of a policy.
#[derive(Clone, Copy)]
pub struct PolicyRule<'p, A: Allocator = Global> {
    pub policy: &'p Policy<'p, A>,
    pub rule: &'p NumberedRule<A>,
}

/// What a rule gave, and gives.
#[derive(Clone, Copy)]
struct Turn<'r, A: Allocator = Global> {
    was: Grant<'r, A>,
    is: Grant<'r, A>,
}

/// Moves the counters of what a rule of a kind gave to those of what it gives. The meter counts
/// each counter that moves. But for `loading::add_rule` no other function moves counters of
/// accesses, so that none moves uncounted.
fn shift_as<A: Allocator + Copy>(
    lines: &mut KeyedLines<A>,
    alloc: A,
    kind: RuleKind,
    turn: &Turn<'_, A>,
    meter: &mut Meter,
) -> Result<(), AllocError>
    requires was { IsGrant turn.now.was }
    requires is { IsGrant turn.now.is }
    requires counted { CountAtLeast lines.old (ones (grants kind turn.now.was)) }
    ensures now { OnOk result (AreMoved lines.old lines.new
        (ones (grants kind turn.now.was)) (ones (grants kind turn.now.is))) }
    ensures before { StaysBefore lines.old lines.new }
    ensures bounded { RiseAtMost lines.old lines.new (ones (grants kind turn.now.is)) }
    ensures adjustments { OnOk result
        (Adjusts (shifts kind turn.now.was turn.now.is) meter.old meter.new) }
    ensures evaluations { evaluations_in meter.new ≡ evaluations_in meter.old }
{
    let moved = shift_rule(lines, alloc, kind, turn.was, turn.is)?;
    meter.adjusted(moved);
    Ok(())
}

/// Takes a rule of a policy out.
pub fn take_rule<A: Allocator + Copy>(
    lines: &mut KeyedLines<A>,
    alloc: A,
    policy: &Policy<'_, A>,
    rule: &NumberedRule<A>,
    meter: &mut Meter,
) -> Result<(), AllocError>
    requires known { IsKnown policy.now }
    requires below { IsRuleOf policy.now rule.now }
    requires counted { CountAtLeast lines.old (given_by policy.now rule.now) }
    ensures now { OnOk result (AreLowered lines.old lines.new (given_by policy.now rule.now)) }
    ensures before { StaysBefore lines.old lines.new }
    ensures bounded { NoneRises lines.old lines.new }
    ensures adjustments { OnOk result (Adjusts (gives_it policy.now rule.now) meter.old meter.new) }
    ensures evaluations { evaluations_in meter.new ≡ evaluations_in meter.old }
{
    let reach = rule_reach(alloc, &policy.members, policy.numbering, rule)?;
    let permits = reached_permits(alloc, policy.numbering, rule, &reach)?;
    let none = Reach::none(alloc);
    let was = Grant {
        reach: &reach,
        permits: &permits,
    };
    let is = Grant {
        reach: &none,
        permits: &permits,
    };
    shift_as(lines, alloc, rule.kind, &Turn { was, is }, meter)
}

/// Puts a rule of a policy in.
pub fn put_rule<A: Allocator + Copy>(
    lines: &mut KeyedLines<A>,
    alloc: A,
    policy: &Policy<'_, A>,
    rule: &NumberedRule<A>,
    meter: &mut Meter,
) -> Result<(), AllocError>
    requires known { IsKnown policy.now }
    requires below { IsRuleOf policy.now rule.now }
    ensures now { OnOk result (AreRaised lines.old lines.new (given_by policy.now rule.now)) }
    ensures before { StaysBefore lines.old lines.new }
    ensures bounded { RiseAtMost lines.old lines.new (given_by policy.now rule.now) }
    ensures adjustments { OnOk result (Adjusts (gives_it policy.now rule.now) meter.old meter.new) }
    ensures evaluations { evaluations_in meter.new ≡ evaluations_in meter.old }
{
    let reach = rule_reach(alloc, &policy.members, policy.numbering, rule)?;
    let permits = reached_permits(alloc, policy.numbering, rule, &reach)?;
    let none = Reach::none(alloc);
    let was = Grant {
        reach: &none,
        permits: &permits,
    };
    let is = Grant {
        reach: &reach,
        permits: &permits,
    };
    shift_as(lines, alloc, rule.kind, &Turn { was, is }, meter)
}

/// Puts a rule of the new policy in place of the old one's, of the same kind.
pub fn replace_rule<A: Allocator + Copy>(
    lines: &mut KeyedLines<A>,
    alloc: A,
    old: &PolicyRule<'_, A>,
    new: &PolicyRule<'_, A>,
    meter: &mut Meter,
) -> Result<(), AllocError>
    requires old_known { IsKnown old.now.policy.now }
    requires new_known { IsKnown new.now.policy.now }
    requires old_below { IsRuleOf old.now.policy.now old.now.rule.now }
    requires new_below { IsRuleOf new.now.policy.now new.now.rule.now }
    requires kind { old.now.rule.now.kind ≡ new.now.rule.now.kind }
    requires counted { CountAtLeast lines.old (given_by old.now.policy.now old.now.rule.now) }
    ensures now { OnOk result (AreMoved lines.old lines.new
        (given_by old.now.policy.now old.now.rule.now)
        (given_by new.now.policy.now new.now.rule.now)) }
    ensures before { StaysBefore lines.old lines.new }
    ensures bounded { RiseAtMost lines.old lines.new
        (given_by new.now.policy.now new.now.rule.now) }
    ensures adjustments { OnOk result (Adjusts (replaces old.now.policy.now old.now.rule.now
        new.now.policy.now new.now.rule.now) meter.old meter.new) }
    ensures evaluations { evaluations_in meter.new ≡ evaluations_in meter.old }
{
    let reached = rule_reach(alloc, &old.policy.members, old.policy.numbering, old.rule)?;
    let reaches = rule_reach(alloc, &new.policy.members, new.policy.numbering, new.rule)?;
    let had = reached_permits(alloc, old.policy.numbering, old.rule, &reached)?;
    let has = reached_permits(alloc, new.policy.numbering, new.rule, &reaches)?;
    let was = Grant {
        reach: &reached,
        permits: &had,
    };
    let is = Grant {
        reach: &reaches,
        permits: &has,
    };
    shift_as(lines, alloc, new.rule.kind, &Turn { was, is }, meter)
}
