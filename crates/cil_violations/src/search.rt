//! Looks for violations: pairs of rules that share a permission first, then the types that they have in common.

ghost use Rattle.std.specs.Prelude.{◌≡◌, ◌++◌, ◌∷◌, [], ◌<◌, ℕ, IsTrue, length, slice_get, All, Some, IfOk, OnOk};
ghost use Rattle.cil_violations.specs.Common.{flat_map, is_set_rule, set_at, share, stood_for, AreClasses, IsPair, StandAt, names_in, permissions_at, rules_in, tests_of, AreHeadsOf, AreMetBySet, IsIndexOf, IsSearch, all_rows, classes_of, met_in, pair_rows, row_with, rows_at, rows_of, sources_of, targets_of};
ghost use Rattle.cil_violations.specs.Aims.{aim_of};

use crate::index::ClassIndex;
use crate::known::{Known, SetRule, SharedClasses};
use crate::members::Members;
use crate::permissions::{given_at, put_in_order, share, shared_classes};
use crate::row::{Pair, RowNumbers};
use crate::shared::shared;
use cil_names::in_32_bits;
use cil_parse::Lists;
use cil_resolve::{
    ClassPermission, Element, NumberedRule, Resolved, ResolvedPermissions, ResolvedTarget,
};
use cil_text::RuleKind;
use std::alloc::{AllocError, Allocator, Global};

/// What violations are looked for in: a policy, the members of its attributes, lists of what its rules
/// give, and its allow rules by classes. Lists of the types that two rules have in common are made by the
/// allocator.
#[derive(Clone, Copy)]
pub struct Search<'r, A: Allocator = Global> {
    pub alloc: A,
    pub resolved: &'r Resolved<A>,
    pub members: Members<'r, A>,
    pub permissions: &'r Lists<ClassPermission, A>,
    pub index: &'r ClassIndex<A>,
}

/// The allow rules that a neverallow rule meets, and the number of its permission set, if it is a rule of one: the next rule of that set
/// meets the same. What the rules are found by is kept for its memory.
#[derive(Drop)]
struct Met<A: Allocator> {
    heads: Vec<usize, A>,
    rules: Vec<usize, A>,
    set: Option<usize>,
}

/// The element that a target takes in for a source.
fn aim(target: ResolvedTarget, source: u32) -> Element
    ensures { result ≡ aim_of target source }
{
    match target {
        ResolvedTarget::Itself => Element::Type(source),
        ResolvedTarget::Element(element) => element,
    }
}

/// Appends the violations of two rules with a source and a target.
fn push_classes<A: Allocator>(
    rows: &mut Vec<RowNumbers, A>,
    pair: Pair<'_>,
    source: usize,
    target: usize,
) -> Result<(), AllocError>
    ensures { OnOk result (rows.new.items ≡ rows.old.items
        ++ rows_at pair.entry.never pair.entry.allowed pair.entry.classes.now source target) }
{
    for class in pair.classes {
        rows.push(RowNumbers {
            never: pair.never,
            allowed: pair.allowed,
            source,
            target,
            class: *class,
        })?;
    }
    Ok(())
}

/// Appends the violations of two rules with a source and some targets.
fn push_rows<A: Allocator>(
    rows: &mut Vec<RowNumbers, A>,
    pair: Pair<'_>,
    source: usize,
    targets: &[usize],
) -> Result<(), AllocError>
    ensures { OnOk result (rows.new.items ≡ rows.old.items
        ++ flat_map (rows_at pair.entry.never pair.entry.allowed pair.entry.classes.now source) targets.now) }
{
    for target in targets {
        push_classes(rows, pair, source, *target)?;
    }
    Ok(())
}

impl<A: Allocator + Copy> Search<'_, A> {
    /// The rule at a place.
    fn rule(&self, place: usize) -> &NumberedRule<A>
        requires { place < length (rules_in self.now) }
        ensures { slice_get (rules_in self.now) place ≡ Some result.now }
    {
        &self.resolved.rules()[place]
    }

    /// Whether the rule at a place is a neverallow rule.
    fn is_never(&self, never: usize) -> bool
        requires { never < length (rules_in self.now) }
        ensures { result ≡ (tests_of self.now).never never }
    {
        self.resolved.rules()[never].kind == RuleKind::NeverAllow
    }

    /// What the rule at a place gives, in order.
    fn given(&self, place: usize) -> &[ClassPermission]
        requires search { IsSearch self.now }
        requires place { place < length (rules_in self.now) }
        ensures { result.now ≡ permissions_at self.now place }
    {
        given_at(self.resolved.rules(), self.permissions, place)
    }

    /// Whether two rules share a permission.
    fn share_permission(&self, never: usize, allowed: usize) -> bool
        requires search { IsSearch self.now }
        requires never { never < length (rules_in self.now) }
        requires allowed { allowed < length (rules_in self.now) }
        ensures { result ≡ share (permissions_at self.now never) (permissions_at self.now allowed) }
    {
        share(self.given(never), self.given(allowed))
    }

    /// Puts in a list, in place of what is in it, the allow rules of the classes of a rule, in order: of a permission set one alone.
    fn heads(&self, list: &mut Vec<usize, A>, never: usize) -> Result<(), AllocError>
        requires search { IsSearch self.now }
        requires never { never < length (rules_in self.now) }
        ensures { OnOk result ((is : IsIndexOf self.now.resolved.now self.now.permissions.now.0 self.now.index.now)
            → AreHeadsOf is.holds.heads (permissions_at self.now never) list.new.items) }
    {
        list.clear();
        let mut last = None;
        let mut are_several = false;
        let given = self.given(never);
        for permission in given {
            if last != Some(permission.class) {
                are_several = last.is_some();
                let first = self.index.first[permission.class];
                self.index.push_chain(list, first)?;
                last = Some(permission.class);
            }
        }
        if are_several {
            put_in_order(list);
        }
        Ok(())
    }

    /// Appends the allow rules for which one stands, and tells whether it is one of a permission set.
    fn push_stood_for(&self, list: &mut Vec<usize, A>, head: usize) -> Result<bool, AllocError>
        requires search { IsSearch self.now }
        requires head { head < length (rules_in self.now) }
        ensures rules { OnOk result (list.new.items ≡ list.old.items ++ stood_for (rules_in self.now) head) }
        ensures sets { IfOk result (λ is_of_set. is_of_set ≡ is_set_rule (rules_in self.now) head) }
    {
        match &self.rule(head).permissions {
            ResolvedPermissions::OfClass(_) => {
                list.push(head)?;
                Ok(false)
            }
            ResolvedPermissions::OfSet(set) => {
                let first = self.index.of_set[set.set];
                self.index.push_chain(list, first)?;
                Ok(true)
            }
        }
    }

    /// Puts in a list, in place of what is in it, the allow rules that share a permission with a rule, in order. Those of its classes are
    /// put in another one first. All rules of a permission set share what one of them shares.
    fn meet(
        &self,
        heads: &mut Vec<usize, A>,
        list: &mut Vec<usize, A>,
        never: usize,
    ) -> Result<(), AllocError>
        requires search { IsSearch self.now }
        requires never { never < length (rules_in self.now) }
        ensures { OnOk result (list.new.items ≡ met_in self.now never) }
    {
        self.heads(heads, never)?;
        list.clear();
        let mut are_of_sets = false;
        for head in heads.as_slice() {
            if self.share_permission(never, *head) {
                let is_of_set = self.push_stood_for(list, *head)?;
                are_of_sets = are_of_sets || is_of_set;
            }
        }
        if are_of_sets {
            put_in_order(list);
        }
        Ok(())
    }

    /// The number of the permission set of a rule, if it is a rule of one.
    fn set_of(&self, place: usize) -> Option<usize>
        requires { place < length (rules_in self.now) }
        ensures { result ≡ set_at (rules_in self.now) place }
    {
        match &self.rule(place).permissions {
            ResolvedPermissions::OfClass(_) => None,
            ResolvedPermissions::OfSet(set) => Some(set.set),
        }
    }

    /// Brings what was met to what a rule meets.
    fn bring(&self, met: &mut Met<A>, never: usize) -> Result<(), AllocError>
        requires search { IsSearch self.now }
        requires never { never < length (rules_in self.now) }
        requires known { AreMetBySet self.now met.old.set met.old.rules.items }
        ensures met { OnOk result (met.new.rules.items ≡ met_in self.now never) }
        ensures known { OnOk result (AreMetBySet self.now met.new.set met.new.rules.items) }
    {
        let set = self.set_of(never);
        if set.is_none() || set != met.set {
            self.meet(&mut met.heads, &mut met.rules, never)?;
            met.set = set;
        }
        Ok(())
    }

    /// The classes in which two rules share a permission, in order. It looks up the permissions of the one that gives fewer.
    fn classes(&self, never: usize, allowed: usize) -> Result<Vec<usize, A>, AllocError>
        requires search { IsSearch self.now }
        requires never { never < length (rules_in self.now) }
        requires allowed { allowed < length (rules_in self.now) }
        ensures { IfOk result (λ list. list.items ≡ classes_of self.now never allowed) }
    {
        let first = self.given(never);
        let second = self.given(allowed);
        if second.len() < first.len() {
            shared_classes(self.alloc, second, first)
        } else {
            shared_classes(self.alloc, first, second)
        }
    }

    /// The types that are in the sources of both rules, in order.
    fn sources(&self, never: usize, allowed: usize) -> Result<Vec<usize, A>, AllocError>
        requires search { IsSearch self.now }
        requires never { never < length (rules_in self.now) }
        requires allowed { allowed < length (rules_in self.now) }
        ensures { IfOk result (λ list. list.items ≡ sources_of self.now never allowed) }
    {
        let first = self.rule(never).source;
        let second = self.rule(allowed).source;
        shared(self.alloc, &self.members, first, second)
    }

    /// The types that both rules take in as targets of a source, in order.
    fn targets(
        &self,
        never: usize,
        allowed: usize,
        source: usize,
    ) -> Result<Vec<usize, A>, AllocError>
        requires search { IsSearch self.now }
        requires never { never < length (rules_in self.now) }
        requires allowed { allowed < length (rules_in self.now) }
        requires source { source < names_in self.now }
        ensures { IfOk result (λ list. list.items ≡ targets_of self.now never allowed source) }
    {
        let itself = in_32_bits(source)?;
        let first = aim(self.rule(never).target, itself);
        let second = aim(self.rule(allowed).target, itself);
        shared(self.alloc, &self.members, first, second)
    }

    /// Learns the classes in which two rules of permission sets share a permission, if they aren't known,
    /// and gives the place where they stand.
    fn learn(
        &self,
        known: &mut Known<A>,
        never: SetRule,
        allowed: SetRule,
    ) -> Result<usize, AllocError>
        requires search { IsSearch self.now }
        requires never { never.place < length (rules_in self.now) }
        requires allowed { allowed.place < length (rules_in self.now) }
        requires never_set { set_at (rules_in self.now) never.place ≡ Some never.set }
        requires allowed_set { set_at (rules_in self.now) allowed.place ≡ Some allowed.set }
        requires known { All (AreClasses self.now) known.old.lists.items }
        ensures known { OnOk result (All (AreClasses self.now) known.new.lists.items) }
        ensures classes { IfOk result (StandAt known.new.lists.items
            (classes_of self.now never.place allowed.place)) }
    {
        if let Some(place) = known.find(never.set, allowed.set) {
            return Ok(place);
        }
        let classes = self.classes(never.place, allowed.place)?;
        known.keep(SharedClasses {
            never: never.set,
            allowed: allowed.set,
            classes,
        })
    }

    /// Appends the violations of two rules that take in the same targets for each source.
    fn push_with_targets(
        &self,
        rows: &mut Vec<RowNumbers, A>,
        pair: Pair<'_>,
        targets: &[usize],
    ) -> Result<(), AllocError>
        requires search { IsSearch self.now }
        requires pair { IsPair self.now pair }
        requires targets { (source : ℕ) → targets.now ≡ targets_of self.now pair.never pair.allowed source }
        ensures { OnOk result (rows.new.items ≡ rows.old.items
            ++ rows_of self.now pair.entry.never pair.entry.allowed) }
    {
        if targets.is_empty() {
            return Ok(());
        }
        for source in &self.sources(pair.never, pair.allowed)? {
            push_rows(rows, pair, *source, targets)?;
        }
        Ok(())
    }

    /// Appends the violations of two rules of which one takes in each source itself.
    fn push_by_source(
        &self,
        rows: &mut Vec<RowNumbers, A>,
        pair: Pair<'_>,
    ) -> Result<(), AllocError>
        requires search { IsSearch self.now }
        requires pair { IsPair self.now pair }
        ensures { OnOk result (rows.new.items ≡ rows.old.items
            ++ rows_of self.now pair.entry.never pair.entry.allowed) }
    {
        for source in &self.sources(pair.never, pair.allowed)? {
            let targets = self.targets(pair.never, pair.allowed, *source)?;
            push_rows(rows, pair, *source, &targets)?;
        }
        Ok(())
    }

    /// Appends the violations of two rules.
    fn push_pair(&self, rows: &mut Vec<RowNumbers, A>, pair: Pair<'_>) -> Result<(), AllocError>
        requires search { IsSearch self.now }
        requires pair { IsPair self.now pair }
        ensures { OnOk result (rows.new.items ≡ rows.old.items
            ++ rows_of self.now pair.entry.never pair.entry.allowed) }
    {
        let first = self.rule(pair.never);
        let second = self.rule(pair.allowed);
        match (first.target, second.target) {
            (ResolvedTarget::Element(first), ResolvedTarget::Element(second)) => {
                let targets = shared(self.alloc, &self.members, first, second)?;
                self.push_with_targets(rows, pair, &targets)
            }
            _ => self.push_by_source(rows, pair),
        }
    }

    /// Appends the violations of two rules that share permissions of one class alone.
    fn push_of_class(
        &self,
        rows: &mut Vec<RowNumbers, A>,
        class: usize,
        never: usize,
        allowed: usize,
    ) -> Result<(), AllocError>
        requires search { IsSearch self.now }
        requires never { never < length (rules_in self.now) }
        requires allowed { allowed < length (rules_in self.now) }
        requires class { classes_of self.now never allowed ≡ class ∷ [] }
        ensures { OnOk result (rows.new.items ≡ rows.old.items ++ rows_of self.now never allowed) }
    {
        let classes = [class];
        let pair = Pair {
            never,
            allowed,
            classes: &classes,
        };
        self.push_pair(rows, pair)
    }

    /// Appends the violations of a rule of a permission set with an allow rule that shares a permission
    /// with it.
    fn push_of_set(
        &self,
        rows: &mut Vec<RowNumbers, A>,
        known: &mut Known<A>,
        never: SetRule,
        allowed: usize,
    ) -> Result<(), AllocError>
        requires search { IsSearch self.now }
        requires never { never.place < length (rules_in self.now) }
        requires allowed { allowed < length (rules_in self.now) }
        requires set { set_at (rules_in self.now) never.place ≡ Some never.set }
        requires shares { IsTrue (share (permissions_at self.now never.place) (permissions_at self.now allowed)) }
        requires known { All (AreClasses self.now) known.old.lists.items }
        ensures rows { OnOk result (rows.new.items ≡ rows.old.items
            ++ rows_of self.now never.place allowed) }
        ensures known { OnOk result (All (AreClasses self.now) known.new.lists.items) }
    {
        match &self.rule(allowed).permissions {
            ResolvedPermissions::OfClass(given) => {
                self.push_of_class(rows, given.class, never.place, allowed)
            }
            ResolvedPermissions::OfSet(set) => {
                let other = SetRule {
                    place: allowed,
                    set: set.set,
                };
                let place = self.learn(known, never, other)?;
                let pair = Pair {
                    never: never.place,
                    allowed,
                    classes: &known.lists[place].classes,
                };
                self.push_pair(rows, pair)
            }
        }
    }

    /// Appends the violations of two rules that share a permission. Most have no source in common, or no
    /// target: then it takes no memory, where neither target is the source itself and one of them is a
    /// rule of a class.
    fn push_sources(
        &self,
        rows: &mut Vec<RowNumbers, A>,
        known: &mut Known<A>,
        never: usize,
        allowed: usize,
    ) -> Result<(), AllocError>
        requires search { IsSearch self.now }
        requires never { never < length (rules_in self.now) }
        requires allowed { allowed < length (rules_in self.now) }
        requires shares { IsTrue (share (permissions_at self.now never) (permissions_at self.now allowed)) }
        requires known { All (AreClasses self.now) known.old.lists.items }
        ensures rows { OnOk result (rows.new.items ≡ rows.old.items ++ rows_of self.now never allowed) }
        ensures known { OnOk result (All (AreClasses self.now) known.new.lists.items) }
    {
        let first = self.rule(never);
        let second = self.rule(allowed);
        let word = self
            .members
            .next_shared_word(first.source, second.source, 0);
        if word.is_none() {
            return Ok(());
        }
        match &first.permissions {
            ResolvedPermissions::OfClass(given) => {
                self.push_of_class(rows, given.class, never, allowed)
            }
            ResolvedPermissions::OfSet(set) => {
                let rule = SetRule {
                    place: never,
                    set: set.set,
                };
                self.push_of_set(rows, known, rule, allowed)
            }
        }
    }

    /// Appends the violations of a neverallow rule with the allow rules that it meets.
    fn push_pairs(
        &self,
        rows: &mut Vec<RowNumbers, A>,
        known: &mut Known<A>,
        never: usize,
        met: &[usize],
    ) -> Result<(), AllocError>
        requires search { IsSearch self.now }
        requires never { never < length (rules_in self.now) }
        requires met { met.now ≡ met_in self.now never }
        requires known { All (AreClasses self.now) known.old.lists.items }
        ensures rows { OnOk result (rows.new.items ≡ rows.old.items
            ++ pair_rows (tests_of self.now) (length (rules_in self.now)) (names_in self.now) never) }
        ensures known { OnOk result (All (AreClasses self.now) known.new.lists.items) }
    {
        for allowed in met {
            self.push_sources(rows, known, never, *allowed)?;
        }
        Ok(())
    }

    /// Appends all violations.
    pub fn push_all(&self, rows: &mut Vec<RowNumbers, A>) -> Result<(), AllocError>
        requires { IsSearch self.now }
        ensures { OnOk result (rows.new.items ≡ rows.old.items
            ++ all_rows (tests_of self.now) (length (rules_in self.now)) (names_in self.now)) }
    {
        let mut met = Met {
            heads: Vec::new(self.alloc),
            rules: Vec::new(self.alloc),
            set: None,
        };
        let mut known = Known::none(self.alloc, self.resolved.names_len())?;
        for never in 0..self.resolved.rules_len() {
            if self.is_never(never) {
                self.bring(&mut met, never)?;
                self.push_pairs(rows, &mut known, never, &met.rules)?;
            }
        }
        Ok(())
    }
}
