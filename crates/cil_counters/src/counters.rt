//! The counters of a policy.

ghost use Rattle.std.specs.Prelude.{◌≡◌, ◌↔◌, ◌-◌, ◌<◌, ◌^◌, ℕ, bytes_eq, false, length, min, IfOk, IsTrue, None, OnOk};
ghost use Rattle.cil_counters.specs.Common.{rc_value, is_in_table, is_member, differ, AreViolations, AreNumbersOf, meaning_in, name_in, sets_in, pairs_of, AreChangedMembers, count_with, had_named, has_named, steps_in, symbols_now, AreBounded, AreSettled, AreSymbolsOf, AreTakenBack, HasFewNames, HasNames, IsNow, WasBefore};
ghost use Rattle.std.specs.List.{IsDistinct};
ghost use Rattle.cil_delta_specs.specs.Work.{AdjustsFew, EvaluatesFew};
ghost use Rattle.cil_member_rows.specs.Rows as member_rows;
ghost use Rattle.cil_specs.specs.Report as report;
ghost use Rattle.cil_specs.specs.Report.{AreAtoms, AreChanges};
ghost use Rattle.cil_member_updates.specs.Policy.{AreCounts};
ghost use Rattle.cil_resolve.specs.Meter.{adjustments_in, evaluations_in};
ghost use Rattle.cil_rules.specs.Rows.{listed};
ghost use Rattle.cil_violations.specs.Rows.{hits};
ghost use Rattle.cil_counters.specs.ChangeCounts.{CountsSome};
ghost use Rattle.cil_keyed_lines.specs.Keyed as access_tables;
ghost use Rattle.cil_table_updates.specs.Policies.{count_named};

use crate::changed_members::{ChangedMember, changed_members_of};
use crate::laws::counters_tell_members;
use crate::more_rows::add_rows;
use crate::policy_symbols::PolicySymbols;
use crate::symbol_ranks::ranks_of;
use cil_keyed_lines::{KeyedLines, SymbolKey};
use cil_matching::SetMatching;
use cil_member_rows::MemberRows;
use cil_member_updates::{Side, Sides};
use cil_names::Seed;
use cil_resolve::{
    Meter, Resolved, resolved_is_consistent, resolved_is_sound, resolved_names_are_kept,
    resolved_rules_permit, resolved_sets_are_in_order,
};
use cil_rules::{Changes, Table};
use cil_symbol_changes::{ChangeCounts, count_accesses};
use cil_symbols::{Numbering, Symbols};
use cil_table_updates::{Named, Policies, Shared};
use cil_text::RuleKind;
use cil_violations::Violations;
use std::alloc::{AllocError, Allocator, Global};
use std::rc::Rc;

/// For each attribute and type of a policy how many set statements make the one a member of the other, and for each access how many
/// rules give it. They are kept by symbols: numbers of names that stay from one policy to the next. The symbol of a name that went is
/// given to one that comes, so that there are never more than the names of two policies. They are brought from one policy to another
/// in steps, which `undo` takes back and `settle` keeps.
#[derive(Drop)]
pub struct Counters<A: Allocator = Global> {
    names: Symbols<A>,
    /// The symbols of the policy before the steps.
    policy: PolicySymbols<A>,
    /// The symbols of the policy that the steps lead to.
    next: Option<PolicySymbols<A>>,
    rows: MemberRows<A>,
    tables: KeyedLines<A>,
}

impl<A: Allocator + Copy> Counters<A> {
    /// The counters of a policy without set statements and rules, as that of an empty store is. The tables of names are hashed by a seed.
    pub fn none(alloc: A, seed: Seed, policy: &Resolved<A>) -> Result<Self, AllocError>
        requires sets { length (sets_in policy.now) ≡ 0 }
        requires rules { length (meaning_in policy.now).rules ≡ 0 }
        ensures now { IfOk result (IsNow policy.now) }
        ensures before { IfOk result (WasBefore policy.now) }
        ensures settled { IfOk result (λ c. steps_in c ≡ 0) }
    {
        let mut names = Symbols::new(alloc, seed);
        let numbering = Numbering::of(alloc, &mut names, policy)?;
        let symbols = PolicySymbols::of(alloc, &names, policy, numbering)?;
        Ok(Counters {
            names,
            policy: symbols,
            next: None,
            rows: MemberRows::new(alloc),
            tables: KeyedLines::new(alloc),
        })
    }

    /// The symbols of a new policy's names. Names that neither policy has give theirs to names that come. What is counted of the old
    /// policy stays.
    fn number(
        &mut self,
        alloc: A,
        old: &Resolved<A>,
        new: &Resolved<A>,
    ) -> Result<Numbering<A>, AllocError>
        requires now { IsNow old.now self.old }
        requires before { WasBefore old.now self.old }
        ensures now { IsNow old.now self.new }
        ensures before { WasBefore old.now self.new }
        ensures tables { self.new.tables ≡ self.old.tables }
        ensures next { self.new.next ≡ None }
        ensures numbers { IfOk result (λ n. AreNumbersOf self.new.names n.symbols new.now.names.items) }
        ensures count { IfOk result (λ n. n.count ≡ length self.new.names) }
        ensures distinct { IsDistinct bytes_eq self.new.names }
        ensures few { HasFewNames old.now new.now self.old self.new }
    {
        resolved_names_are_kept(old);
        resolved_is_sound(old);
        resolved_sets_are_in_order(old);
        resolved_is_consistent(old);
        resolved_rules_permit(old);
        old.rules();
        self.next = None;
        self.names.len();
        let numbering = Numbering::beside(alloc, &mut self.names, &self.policy.numbering, new);
        self.names.len();
        numbering
    }

    /// The symbols of a new policy, whose names and kept types have them. What is counted of the old policy stays.
    fn next_symbols(
        &mut self,
        alloc: A,
        old: &Resolved<A>,
        new: &Resolved<A>,
    ) -> Result<PolicySymbols<A>, AllocError>
        requires now { IsNow old.now self.old }
        requires before { WasBefore old.now self.old }
        ensures now { IsNow old.now self.new }
        ensures before { WasBefore old.now self.new }
        ensures tables { self.new.tables ≡ self.old.tables }
        ensures symbols { IfOk result (AreSymbolsOf self.new.names new.now) }
        ensures distinct { IsDistinct bytes_eq self.new.names }
        ensures few { HasFewNames old.now new.now self.old self.new }
    {
        let numbering = self.number(alloc, old, new)?;
        PolicySymbols::of(alloc, &self.names, new, numbering)
    }

    /// Brings the members from an old policy to a new one with these symbols.
    fn update_members(
        &mut self,
        alloc: A,
        old: &Resolved<A>,
        new: &Resolved<A>,
        next: &PolicySymbols<A>,
        meter: &mut Meter,
    ) -> Result<(), AllocError>
        requires distinct { IsDistinct bytes_eq self.old.names }
        requires old_symbols { AreSymbolsOf self.old.names old.now self.old.policy }
        requires new_symbols { AreSymbolsOf self.old.names new.now next.now }
        requires now { AreCounts self.old.names old.now (member_rows.count_now self.old.rows) }
        requires before { AreCounts self.old.names old.now (member_rows.count_before self.old.rows) }
        ensures now { OnOk result (AreCounts self.old.names new.now (member_rows.count_now self.new.rows)) }
        ensures before { (a t : ℕ) → member_rows.count_before self.new.rows a t ≡ member_rows.count_before self.old.rows a t }
        ensures names { self.new.names ≡ self.old.names }
        ensures policy { self.new.policy ≡ self.old.policy }
        ensures next { self.new.next ≡ self.old.next }
        ensures tables { self.new.tables ≡ self.old.tables }
        ensures evaluations { OnOk result (EvaluatesFew (meaning_in old.now) (meaning_in new.now)
            (evaluations_in meter.old) (evaluations_in meter.new)) }
        ensures adjustments { adjustments_in meter.new ≡ adjustments_in meter.old }
    {
        let matching = SetMatching::of(alloc, self.names.seed(), old, new)?;
        add_rows(&mut self.rows, alloc, self.names.len())?;
        let sides = Sides {
            old: Side {
                resolved: old,
                numbering: &self.policy.numbering,
                kept: &self.policy.kept,
            },
            new: Side {
                resolved: new,
                numbering: &next.numbering,
                kept: &next.kept,
            },
            matching: &matching,
        };
        cil_member_updates::update(&mut self.rows, alloc, &self.names, &sides, meter)
    }

    /// `update_members` from an old policy without set statements, with no way back.
    fn count_members(
        &mut self,
        alloc: A,
        old: &Resolved<A>,
        new: &Resolved<A>,
        next: &PolicySymbols<A>,
        meter: &mut Meter,
    ) -> Result<(), AllocError>
        requires distinct { IsDistinct bytes_eq self.old.names }
        requires old_symbols { AreSymbolsOf self.old.names old.now self.old.policy }
        requires new_symbols { AreSymbolsOf self.old.names new.now next.now }
        requires sets { length (sets_in old.now) ≡ 0 }
        requires now { AreCounts self.old.names old.now (member_rows.count_now self.old.rows) }
        ensures now { OnOk result (AreCounts self.old.names new.now (member_rows.count_now self.new.rows)) }
        ensures names { self.new.names ≡ self.old.names }
        ensures tables { self.new.tables ≡ self.old.tables }
        ensures evaluations { OnOk result (EvaluatesFew (meaning_in old.now) (meaning_in new.now)
            (evaluations_in meter.old) (evaluations_in meter.new)) }
        ensures adjustments { adjustments_in meter.new ≡ adjustments_in meter.old }
    {
        let matching = SetMatching::of(alloc, self.names.seed(), old, new)?;
        add_rows(&mut self.rows, alloc, self.names.len())?;
        let sides = Sides {
            old: Side {
                resolved: old,
                numbering: &self.policy.numbering,
                kept: &self.policy.kept,
            },
            new: Side {
                resolved: new,
                numbering: &next.numbering,
                kept: &next.kept,
            },
            matching: &matching,
        };
        cil_member_updates::load(&mut self.rows, alloc, &self.names, &sides, meter)
    }

    /// Brings the members from an old policy to a new one, in steps, and answers the symbols of the new one. What is counted of accesses
    /// stays.
    fn bring_members(
        &mut self,
        alloc: A,
        old: &Resolved<A>,
        new: &Resolved<A>,
        meter: &mut Meter,
    ) -> Result<PolicySymbols<A>, AllocError>
        requires now { IsNow old.now self.old }
        requires before { WasBefore old.now self.old }
        ensures before { WasBefore old.now self.new }
        ensures members { OnOk result (AreCounts self.new.names new.now (member_rows.count_now self.new.rows)) }
        ensures accesses { (key : SymbolKey) (t : ℕ)
            → access_tables.count_now self.new.tables key t ≡ count_named self.new.names (meaning_in old.now) key t }
        ensures steps { access_tables.steps_in self.new.tables ≡ access_tables.steps_in self.old.tables }
        ensures symbols { IfOk result (AreSymbolsOf self.new.names new.now) }
        ensures evaluations { OnOk result (EvaluatesFew (meaning_in old.now) (meaning_in new.now) (evaluations_in meter.old) (evaluations_in meter.new)) }
        ensures adjustments { adjustments_in meter.new ≡ adjustments_in meter.old }
        ensures names { HasFewNames old.now new.now self.old self.new }
    {
        let next = self.next_symbols(alloc, old, new)?;
        self.update_members(alloc, old, new, &next, meter)?;
        Ok(next)
    }

    /// `bring_members` with no way back, so that no log is made of all steps. There is one only where the old policy has set statements.
    fn load_members(
        &mut self,
        alloc: A,
        old: &Resolved<A>,
        new: &Resolved<A>,
        meter: &mut Meter,
    ) -> Result<PolicySymbols<A>, AllocError>
        requires now { IsNow old.now self.old }
        requires before { WasBefore old.now self.old }
        ensures named { HasNames old.now self.new }
        ensures members { OnOk result (AreCounts self.new.names new.now (member_rows.count_now self.new.rows)) }
        ensures accesses { (key : SymbolKey) (t : ℕ)
            → access_tables.count_now self.new.tables key t ≡ count_named self.new.names (meaning_in old.now) key t }
        ensures steps { access_tables.steps_in self.new.tables ≡ access_tables.steps_in self.old.tables }
        ensures symbols { IfOk result (AreSymbolsOf self.new.names new.now) }
        ensures evaluations { OnOk result (EvaluatesFew (meaning_in old.now) (meaning_in new.now) (evaluations_in meter.old) (evaluations_in meter.new)) }
        ensures adjustments { adjustments_in meter.new ≡ adjustments_in meter.old }
        ensures names { HasFewNames old.now new.now self.old self.new }
    {
        if old.sets_len() > 0 {
            return self.bring_members(alloc, old, new, meter);
        }
        let next = self.next_symbols(alloc, old, new)?;
        self.count_members(alloc, old, new, &next, meter)?;
        Ok(next)
    }

    /// Brings the counters from an old policy to a new one, in steps.
    fn take_steps(
        &mut self,
        alloc: A,
        old: &Resolved<A>,
        new: &Resolved<A>,
        meter: &mut Meter,
    ) -> Result<(), AllocError>
        requires now { IsNow old.now self.old }
        requires before { WasBefore old.now self.old }
        ensures now { OnOk result (IsNow new.now self.new) }
        ensures before { WasBefore old.now self.new }
        ensures evaluations { OnOk result (EvaluatesFew (meaning_in old.now) (meaning_in new.now) (evaluations_in meter.old) (evaluations_in meter.new)) }
        ensures adjustments { OnOk result ((changes : report.Changes) → AreChanges (is_in_table (meaning_in old.now)) (is_in_table (meaning_in new.now)) changes
            → AdjustsFew (meaning_in old.now) (meaning_in new.now) changes (adjustments_in meter.old) (adjustments_in meter.new)) }
        ensures names { HasFewNames old.now new.now self.old self.new }
        ensures bounded { AreBounded old.now new.now self.new }
    {
        resolved_names_are_kept(old);
        resolved_names_are_kept(new);
        old.rules();
        new.rules();
        resolved_is_sound(old);
        resolved_is_sound(new);
        resolved_sets_are_in_order(old);
        resolved_sets_are_in_order(new);
        let next = self.bring_members(alloc, old, new, meter)?;
        let shared = Shared {
            names: &self.names,
            rows: &self.rows,
        };
        let policies = Policies {
            old: Named {
                resolved: old,
                numbering: &self.policy.numbering,
            },
            new: Named {
                resolved: new,
                numbering: &next.numbering,
            },
        };
        cil_table_updates::update(&mut self.tables, alloc, shared, policies, meter)?;
        self.next = Some(next);
        Ok(())
    }

    /// Brings the counters from those of a policy without set statements and rules, as that of an empty store is, to those of another one.
    /// There is no way back: no log is made of all steps. After an out of memory the counters are of no use, since `undo` doesn't lead back
    /// to the old policy.
    pub fn load(
        &mut self,
        alloc: A,
        old: &Resolved<A>,
        new: &Resolved<A>,
        meter: &mut Meter,
    ) -> Result<(), AllocError>
        requires now { IsNow old.now self.old }
        requires before { WasBefore old.now self.old }
        requires rules { length (meaning_in old.now).rules ≡ 0 }
        requires settled { steps_in self.old ≡ 0 }
        ensures now { OnOk result (IsNow new.now self.new) }
        ensures named { OnOk result (HasNames old.now self.new) }
        ensures evaluations { OnOk result (EvaluatesFew (meaning_in old.now) (meaning_in new.now) (evaluations_in meter.old) (evaluations_in meter.new)) }
        ensures adjustments { OnOk result ((changes : report.Changes) → AreChanges (is_in_table (meaning_in old.now)) (is_in_table (meaning_in new.now)) changes
            → AdjustsFew (meaning_in old.now) (meaning_in new.now) changes (adjustments_in meter.old) (adjustments_in meter.new)) }
        ensures names { HasFewNames old.now new.now self.old self.new }
        ensures bounded { AreBounded old.now new.now self.new }
    {
        resolved_names_are_kept(old);
        resolved_names_are_kept(new);
        old.rules();
        new.rules();
        resolved_is_sound(new);
        resolved_sets_are_in_order(new);
        let next = self.load_members(alloc, old, new, meter)?;
        let new = Named {
            resolved: new,
            numbering: &next.numbering,
        };
        let shared = Shared {
            names: &self.names,
            rows: &self.rows,
        };
        cil_table_updates::load(&mut self.tables, alloc, shared, new, meter)?;
        self.next = Some(next);
        Ok(())
    }

    /// Brings the members from an old policy to a new one, and finds the violations of that. What is counted of accesses stays that of the
    /// old policy, so the counters are of no use from then on.
    pub(crate) fn violations_after(
        &mut self,
        alloc: A,
        old: &Resolved<A>,
        new: &Rc<Resolved<A>, A>,
    ) -> Result<Violations<A>, AllocError>
        requires now { IsNow old.now self.old }
        requires before { WasBefore old.now self.old }
        ensures { IfOk result (AreViolations (meaning_in (rc_value new.now))) }
    {
        resolved_is_sound(new);
        resolved_sets_are_in_order(new);
        let next = self.load_members(alloc, old, new, &mut Meter::new())?;
        self.names.len();
        Violations::of(alloc, new, &next.numbering, &self.rows)
    }

    /// The changes from an old policy, whose counters stand before the steps, to a new one, whose
    /// counters stand now. What appeared has the names of the new policy, which it shares, and what
    /// went those of the old one.
    fn changes(
        &self,
        alloc: A,
        old: &Rc<Resolved<A>, A>,
        new: &Rc<Resolved<A>, A>,
    ) -> Result<Changes<A>, AllocError>
        requires now { IsNow (rc_value new.now) self.now }
        requires before { WasBefore (rc_value old.now) self.now }
        ensures { IfOk result (AreChanges (is_in_table (meaning_in (rc_value old.now)))
            (is_in_table (meaning_in (rc_value new.now)))) }
    {
        let old_numbers = ranks_of(alloc, &self.names, &self.policy.numbering, old)?;
        let new_numbers = ranks_of(alloc, &self.names, self.numbering_now(), new)?;
        let found = cil_symbol_changes::changes(alloc, &self.tables, &new_numbers, &old_numbers)?;
        let added = Table::numbered(new, found.added)?;
        let removed = Table::numbered(old, found.removed)?;
        Ok(Changes::of(added, removed))
    }

    /// How many changes there are from an old policy, whose counters stand before the steps, to a new one, whose counters stand now. No
    /// access is put together.
    fn count_changes(
        &self,
        alloc: A,
        old: &Resolved<A>,
        new: &Resolved<A>,
    ) -> Result<ChangeCounts, AllocError>
        requires now { IsNow new.now self.now }
        requires before { WasBefore old.now self.now }
        requires distinct { IsDistinct bytes_eq self.now.names }
        ensures { IfOk result (CountsSome (AreChanges (is_in_table (meaning_in old.now)) (is_in_table (meaning_in new.now)))) }
    {
        cil_symbol_changes::count_changes(alloc, &self.tables)
    }

    /// How many changes there are from a policy without set statements and rules to one whose counters stand now: each of its accesses is
    /// new.
    fn count_all(&self, old: &Resolved<A>, new: &Resolved<A>) -> Result<ChangeCounts, AllocError>
        requires sets { length (sets_in old.now) ≡ 0 }
        requires rules { length (meaning_in old.now).rules ≡ 0 }
        requires named { HasNames old.now self.now }
        requires now { IsNow new.now self.now }
        requires distinct { IsDistinct bytes_eq self.now.names }
        ensures { IfOk result (CountsSome (AreChanges (is_in_table (meaning_in old.now)) (is_in_table (meaning_in new.now)))) }
    {
        let added = count_accesses(&self.tables)?;
        Ok(ChangeCounts { added, removed: 0 })
    }

    /// The accesses that a listing has, of the policy whose counters stand now: all but those of neverallow. The table shares the
    /// policy, whose names it has, and no rule is gone over. Out of memory stands also where no more owners can be counted.
    pub fn table(&self, alloc: A, policy: &Rc<Resolved<A>, A>) -> Result<Table<A>, AllocError>
        requires { IsNow (rc_value policy.now) self.now }
        ensures { IfOk result (λ table. AreAtoms (listed (is_in_table (meaning_in (rc_value policy.now)))) table) }
    {
        let numbers = ranks_of(alloc, &self.names, self.numbering_now(), policy)?;
        let accesses = cil_symbol_changes::accesses(alloc, &self.tables, &numbers)?;
        Table::numbered(policy, accesses)
    }

    /// The violations of the policy whose counters stand now. No set statement is evaluated. Out of memory stands also where no more
    /// owners of the policy can be counted.
    pub fn violations(
        &self,
        alloc: A,
        policy: &Rc<Resolved<A>, A>,
    ) -> Result<Violations<A>, AllocError>
        requires { IsNow (rc_value policy.now) self.now }
        ensures { IfOk result (AreViolations (meaning_in (rc_value policy.now))) }
    {
        resolved_is_sound(policy);
        resolved_sets_are_in_order(policy);
        self.names.len();
        Violations::of(alloc, policy, self.numbering_now(), &self.rows)
    }

    /// The members of an attribute of the policy whose counters stand now, by the numbers of their names, which rise: in the byte order of
    /// the names. There is none where the policy doesn't keep the attribute.
    pub fn members(
        &self,
        alloc: A,
        policy: &Resolved<A>,
        attribute: &[u8],
    ) -> Result<Vec<usize, A>, AllocError>
        requires { IsNow policy.now self.now }
        ensures { IfOk result (λ list. list.items ≡ hits
            (λ n. is_member (meaning_in policy.now) attribute.now (name_in policy.now n))
            0 (length policy.now.names.items)) }
    {
        counters_tell_members(policy, self);
        let mut list = Vec::new(alloc);
        for number in 0..policy.names_len() {
            if self.has(attribute, policy.name(number)) {
                list.push(number)?;
            }
        }
        Ok(list)
    }

    /// Who became a member since the last settling, and who is none any more: each attribute with such a type, once. It takes time by
    /// the steps.
    pub fn changed_members(&self, alloc: A) -> Result<Vec<ChangedMember<'_>, A>, AllocError>
        ensures { IfOk result (λ members. AreChangedMembers (λ attribute ty. differ (had_named self.now attribute ty) (has_named self.now attribute ty)) (pairs_of members.items)) }
    {
        self.names.len();
        changed_members_of(alloc, &self.names, &self.rows)
    }

    /// Brings the counters from those of an old policy, which they hold, to those of a new one, in steps, and answers the changes from
    /// the access table of the old policy to that of the new one. The meter counts as an adjustment each counter of an access that it
    /// moves, and as an evaluation each look whether a set statement holds a type. Also after an out of memory `undo` leads back to
    /// the old policy, and no counter of an access is above the number of rules of both policies that give it.
    /// The changes share the policies, whose names they have. Out of memory stands also where no more
    /// owners of these can be counted.
    pub fn update(
        &mut self,
        alloc: A,
        old: &Rc<Resolved<A>, A>,
        new: &Rc<Resolved<A>, A>,
        meter: &mut Meter,
    ) -> Result<Changes<A>, AllocError>
        requires now { IsNow (rc_value old.now) self.old }
        requires before { WasBefore (rc_value old.now) self.old }
        ensures now { OnOk result (IsNow (rc_value new.now) self.new) }
        ensures before { WasBefore (rc_value old.now) self.new }
        ensures changes { IfOk result (AreChanges (is_in_table (meaning_in (rc_value old.now)))
            (is_in_table (meaning_in (rc_value new.now)))) }
        ensures evaluations { OnOk result (EvaluatesFew (meaning_in (rc_value old.now))
            (meaning_in (rc_value new.now)) (evaluations_in meter.old) (evaluations_in meter.new)) }
        ensures adjustments { IfOk result (λ changes. AdjustsFew (meaning_in (rc_value old.now))
            (meaning_in (rc_value new.now)) changes (adjustments_in meter.old)
            (adjustments_in meter.new)) }
        ensures names { HasFewNames (rc_value old.now) (rc_value new.now) self.old self.new }
        ensures bounded { AreBounded (rc_value old.now) (rc_value new.now) self.new }
    {
        self.take_steps(alloc, old, new, meter)?;
        self.changes(alloc, old, new)
    }

    /// `update`, which answers how many changes there are and none of them: no access is put together or put in order.
    pub fn update_counted(
        &mut self,
        alloc: A,
        old: &Resolved<A>,
        new: &Resolved<A>,
        meter: &mut Meter,
    ) -> Result<ChangeCounts, AllocError>
        requires now { IsNow old.now self.old }
        requires before { WasBefore old.now self.old }
        ensures now { OnOk result (IsNow new.now self.new) }
        ensures before { WasBefore old.now self.new }
        ensures changes { IfOk result (CountsSome (AreChanges (is_in_table (meaning_in old.now)) (is_in_table (meaning_in new.now)))) }
        ensures evaluations { OnOk result (EvaluatesFew (meaning_in old.now) (meaning_in new.now) (evaluations_in meter.old) (evaluations_in meter.new)) }
        ensures adjustments { OnOk result ((changes : report.Changes) → AreChanges (is_in_table (meaning_in old.now)) (is_in_table (meaning_in new.now)) changes
            → AdjustsFew (meaning_in old.now) (meaning_in new.now) changes (adjustments_in meter.old) (adjustments_in meter.new)) }
        ensures names { HasFewNames old.now new.now self.old self.new }
        ensures bounded { AreBounded old.now new.now self.new }
    {
        self.take_steps(alloc, old, new, meter)?;
        self.names.len();
        self.count_changes(alloc, old, new)
    }

    /// `load`, which answers how many changes there are.
    pub fn load_counted(
        &mut self,
        alloc: A,
        old: &Resolved<A>,
        new: &Resolved<A>,
        meter: &mut Meter,
    ) -> Result<ChangeCounts, AllocError>
        requires now { IsNow old.now self.old }
        requires before { WasBefore old.now self.old }
        requires sets { length (sets_in old.now) ≡ 0 }
        requires rules { length (meaning_in old.now).rules ≡ 0 }
        requires settled { steps_in self.old ≡ 0 }
        ensures now { OnOk result (IsNow new.now self.new) }
        ensures changes { IfOk result (CountsSome (AreChanges (is_in_table (meaning_in old.now)) (is_in_table (meaning_in new.now)))) }
        ensures evaluations { OnOk result (EvaluatesFew (meaning_in old.now) (meaning_in new.now) (evaluations_in meter.old) (evaluations_in meter.new)) }
        ensures adjustments { OnOk result ((changes : report.Changes) → AreChanges (is_in_table (meaning_in old.now)) (is_in_table (meaning_in new.now)) changes
            → AdjustsFew (meaning_in old.now) (meaning_in new.now) changes (adjustments_in meter.old) (adjustments_in meter.new)) }
        ensures names { HasFewNames old.now new.now self.old self.new }
        ensures bounded { AreBounded old.now new.now self.new }
    {
        self.load(alloc, old, new, meter)?;
        self.names.len();
        self.count_all(old, new)
    }
}

impl<A: Allocator> Counters<A> {
    /// The numbering of the policy that the steps lead to, or of the one before where there is none.
    fn numbering_now(&self) -> &Numbering<A>
        ensures { result.now ≡ (symbols_now self.now).numbering }
    {
        match &self.next {
            Some(next) => &next.numbering,
            None => &self.policy.numbering,
        }
    }

    /// Whether a type is a member of an attribute, by full names. It takes no memory.
    pub fn has(&self, attribute: &[u8], ty: &[u8]) -> bool
        ensures { result ≡ has_named self.now attribute.now ty.now }
    {
        match (self.names.find(attribute), self.names.find(ty)) {
            (Some(row), Some(ty)) => self.rows.has(row, ty),
            _ => false,
        }
    }

    /// Whether a type became a member of an attribute in the steps, or is none any more, by full names. It takes no memory.
    pub fn has_changed(&self, attribute: &[u8], ty: &[u8]) -> bool
        ensures { result ≡ differ (had_named self.now attribute.now ty.now) (has_named self.now attribute.now ty.now) }
    {
        match (self.names.find(attribute), self.names.find(ty)) {
            (Some(row), Some(ty)) => self.rows.had(row, ty) != self.rows.has(row, ty),
            _ => false,
        }
    }

    /// How many rules of a kind give an access, by full names; the greatest `u64` where they are more. It takes no memory.
    pub fn count(
        &self,
        kind: RuleKind,
        source: &[u8],
        target: &[u8],
        class: &[u8],
        permission: &[u8],
    ) -> u64
        ensures { result ≡ min (count_with self.now kind source.now target.now class.now permission.now) (2 ^ 64 - 1) }
    {
        let Some(source) = self.names.find(source) else {
            return 0;
        };
        let Some(target) = self.names.find(target) else {
            return 0;
        };
        let Some(class) = self.names.find(class) else {
            return 0;
        };
        let Some(permission) = self.names.find(permission) else {
            return 0;
        };
        let key = SymbolKey {
            kind,
            source,
            class,
            permission,
        };
        self.tables.count(key, target)
    }

    /// Whether there are steps that `undo` would take back. No means that `undo` and `settle` would change no counter; which policy's
    /// symbols are kept they may change still.
    pub fn is_pending(&self) -> bool
        ensures steps { IsTrue result ↔ (0 < steps_in self.now) }
        ensures members { result ≡ false → (a t : ℕ) → member_rows.count_before self.now.rows a t ≡ member_rows.count_now self.now.rows a t }
        ensures accesses { result ≡ false → (key : SymbolKey) (t : ℕ) → access_tables.count_before self.now.tables key t ≡ access_tables.count_now self.now.tables key t }
    {
        let rows = self.rows.is_pending();
        let tables = self.tables.is_pending();
        rows | tables
    }

    /// Takes the steps back: the counters are those of the old policy again. Names that came keep their symbols. It takes no memory.
    pub fn undo(&mut self)
        ensures { AreTakenBack self.old self.new }
    {
        self.rows.undo();
        self.tables.undo();
        self.next = None;
    }

    /// Keeps the steps, so that they can't be taken back any more. It takes no memory.
    pub fn settle(&mut self)
        ensures { AreSettled self.old self.new }
    {
        self.rows.settle();
        self.tables.settle();
        if let Some(next) = self.next.take() {
            self.policy = next;
        }
    }
}
