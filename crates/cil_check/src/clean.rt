//! Policies without faults of the kinds that are seen at one statement.

ghost use Rattle.std.specs.Prelude.{◌≡◌, ◌<◌, List, Some, true, length, slice_get, IsTrue};
ghost use Rattle.cil_check.specs.Common.{Placed, AreNumbersOf, kind_of, names_of, IsSeen, IsNoted, HasNoneBelow, IsCleanAt};
ghost use Rattle.cil_check.specs.Clean.{HaveActuals};
ghost use Rattle.cil_check.specs.Recent.{IsKnown};
ghost use Rattle.cil_check.specs.Kinds.{names_permissions as is_naming_kind, is_rule_of_set as is_rule_of_set_kind, is_plain as is_plain_kind};
ghost use Rattle.cil_parse.specs.declared.row.StatementKind.TheVariants.{TypeAttributeSet};

use crate::bound::Seen;
use crate::checker::{CHECKED, Checker};
use crate::kinds::Kind;
use crate::known::Known;
use cil_parse::StatementKind;
use std::alloc::Allocator;

/// Whether statements of a kind name permissions of a class, which is the last of their references.
fn names_permissions(kind: StatementKind) -> bool
    ensures { result ≡ is_naming_kind kind }
{
    matches!(
        kind,
        StatementKind::Rule(_) | StatementKind::RuleToSelf(_) | StatementKind::ClassPermissionSet
    )
}

/// Whether statements of a kind are rules that name a permission set.
fn is_rule_of_set(kind: StatementKind) -> bool
    ensures { result ≡ is_rule_of_set_kind kind }
{
    matches!(
        kind,
        StatementKind::RuleOfSet(_) | StatementKind::RuleToSelfOfSet(_)
    )
}

/// Whether statements of a kind can't have a fault of those that are seen at one statement.
fn is_plain(kind: StatementKind) -> bool
    ensures { result ≡ is_plain_kind kind }
{
    matches!(
        kind,
        StatementKind::Block
            | StatementKind::Optional
            | StatementKind::TypeName
            | StatementKind::TypeAlias
            | StatementKind::TypeAttribute
            | StatementKind::Common
            | StatementKind::ClassPermission
    )
}

impl<'p, 'm, A: Allocator + Copy> Checker<'p, 'm, A> {
    /// Whether a statement has no fault of the kinds that are seen at one statement, by going over
    /// the kinds.
    fn is_clean_at(&self, place: usize, seen: &Seen<'p, 'm, A>) -> bool
        requires { (policy : List Placed) × (s : Placed) × IsNoted self.now policy
            × IsSeen seen.now policy s × (slice_get policy place ≡ Some s) }
        ensures { IsTrue result → (policy : List Placed) (s : Placed) → IsNoted self.now policy
            → IsSeen seen.now policy s
            → AreNumbersOf self.now.bound.policy.now.names seen.now.words.now
            (names_of seen.now.«module».now)
            → slice_get policy place ≡ Some s → IsCleanAt policy place s }
    {
        for kind in CHECKED {
            let None = self.faulty_word(kind, place, seen) else {
                return false;
            };
        }
        true
    }

    /// Whether the statement of a place has no fault of those kinds, by its words.
    #[cold]
    #[inline(never)]
    fn is_clean_whole(&self, place: usize) -> bool
        requires { (policy : List Placed) × IsNoted self.now policy × (place < length policy) }
        ensures { IsTrue result → (policy : List Placed) (s : Placed) → IsNoted self.now policy
            → slice_get policy place ≡ Some s → IsCleanAt policy place s }
    {
        self.is_clean_at(place, &self.bound.seen(place))
    }

    /// Whether a set statement leads to an attribute, and all its references are bound, to no
    /// alias without an actual type.
    fn is_clean_set(&self, place: usize, aliases_set: bool) -> bool
        requires { (policy : List Placed) × IsNoted self.now policy × (place < length policy) }
        ensures { IsTrue result → (policy : List Placed) (s : Placed) → IsNoted self.now policy
            → slice_get policy place ≡ Some s → kind_of s.form ≡ TypeAttributeSet
            → (IsTrue aliases_set → HaveActuals self.now.bound.policy.now.kinds.items self.now.actuals)
            → IsCleanAt policy place s }
    {
        let bound = self.bound.references(place);
        let Some(first) = bound.place(0) else {
            return false;
        };
        if !self.bound.is(first, Kind::Attribute) {
            return false;
        }
        if self.is_settled(place, aliases_set) {
            return true;
        }
        self.are_sound_by(aliases_set, place, &bound)
    }

    /// Whether a statement that names permissions of a class has no missing word and no alias
    /// without an actual type. Other faults it can't have.
    #[inline(always)]
    fn is_clean_naming(&self, place: usize, aliases_set: bool, known: &mut Known<A>) -> bool
        requires { (policy : List Placed) × (s : Placed) × IsNoted self.now policy
            × (slice_get policy place ≡ Some s) × (is_naming_kind (kind_of s.form) ≡ true) }
        ensures clean { IsTrue result → (policy : List Placed) (s : Placed)
            → IsNoted self.now policy → slice_get policy place ≡ Some s
            → is_naming_kind (kind_of s.form) ≡ true
            → (IsTrue aliases_set → HaveActuals self.now.bound.policy.now.kinds.items self.now.actuals)
            → IsKnown self.now policy known.old → IsCleanAt policy place s }
        ensures known { (policy : List Placed) (s : Placed) → IsNoted self.now policy
            → slice_get policy place ≡ Some s → is_naming_kind (kind_of s.form) ≡ true
            → IsKnown self.now policy known.old → IsKnown self.now policy known.new }
    {
        if self.is_settled(place, aliases_set) {
            return true;
        }
        let bound = self.bound.references(place);
        let Some(class) = bound.last() else {
            return false;
        };
        if !self.are_sound_by(aliases_set, place, &bound) {
            return false;
        }
        self.has_listed(place, class, known)
    }

    /// Whether a rule of a permission set has all its references bound, to no alias without an
    /// actual type. It names no permissions, and other faults it can't have.
    fn is_clean_rule_of_set(&self, place: usize) -> bool
        requires { (policy : List Placed) × IsNoted self.now policy × (place < length policy) }
        ensures { IsTrue result → (policy : List Placed) (s : Placed) → IsNoted self.now policy
            → slice_get policy place ≡ Some s → is_rule_of_set_kind (kind_of s.form) ≡ true
            → IsCleanAt policy place s }
    {
        self.are_sound_at(place)
    }

    /// Whether the statement of a place has no fault of the kinds that are seen at one statement, by
    /// whether no alias lacks an actual type. Its kind tells which it can have: those of most are
    /// told by what its references are bound to, and only others are looked at whole.
    #[inline(always)]
    fn is_clean_by(&self, place: usize, aliases_set: bool, known: &mut Known<A>) -> bool
        requires { (policy : List Placed) × IsNoted self.now policy × (place < length policy) }
        ensures clean { IsTrue result → (policy : List Placed) (s : Placed)
            → IsNoted self.now policy → slice_get policy place ≡ Some s
            → (IsTrue aliases_set → HaveActuals self.now.bound.policy.now.kinds.items self.now.actuals)
            → IsKnown self.now policy known.old → IsCleanAt policy place s }
        ensures known { (policy : List Placed) → IsNoted self.now policy
            → IsKnown self.now policy known.old → IsKnown self.now policy known.new }
    {
        let kind = self.bound.kind(place);
        if names_permissions(kind) {
            return self.is_clean_naming(place, aliases_set, known);
        }
        if is_plain(kind) {
            return true;
        }
        if is_rule_of_set(kind) {
            return self.is_clean_rule_of_set(place);
        }
        if let StatementKind::TypeAttributeSet = kind {
            return self.is_clean_set(place, aliases_set);
        }
        self.is_clean_whole(place)
    }

    /// Whether no statement has a fault of the kinds 42 to 47: one pass over the policy for all of
    /// them.
    #[inline(never)]
    pub(crate) fn is_clean(&self, alloc: A) -> bool
        requires { (policy : List Placed) × IsNoted self.now policy }
        ensures { IsTrue result → (policy : List Placed) → IsNoted self.now policy
            → HasNoneBelow 48 policy }
    {
        let aliases_set = self.have_actuals();
        let mut known = Known::new(alloc);
        for i in 0..self.bound.len() {
            if !self.is_clean_by(i, aliases_set, &mut known) {
                return false;
            }
        }
        true
    }
}
