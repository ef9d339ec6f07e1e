//! The first fault of a policy whose references are bound, but for names that are declared twice.

ghost use Rattle.std.specs.Prelude.{◌≡◌, ◌≢◌, ◌<◌, ◌^◌, ◌+◌, ◌||◌, [], List, length, Some, None, slice_get, take, filter, IfOk, IfErr, OnOk};
ghost use Rattle.cil_check.specs.Common.{Word, Placed, types, references, is_of_another_kind, wrong_kind_words, is_unset, alias_unset_words, IsFaultOf, circular, words_in, AreNumbersOf, names_of, IsOf, IsSeen, Reads, IsNoted, HasFirsts, policy_kind_of, IsFoundFault, PolicyFaultIs, IsLeast, IsFaultIn, IsFaultless, HasNoneBelow, HasInherited, HaveListed, HaveWords, test_of, word_if, again_words, given_kind};
ghost use Rattle.cil_check.specs.Associations.{HasFirstsOf};
ghost use Rattle.cil_check.specs.Inherited.{HasInheritedOf};
ghost use Rattle.cil_specs.specs.Expr.{WordExpr, leaves};
ghost use Rattle.cil_specs.specs.Statements.{attribute_set};
ghost use Rattle.cil_specs.proofs.FirstLemmas.{faulty_words};
ghost use Rattle.cil_check.specs.declared.firsts.Association.TheVariants.{Actual, Common};
ghost use Rattle.cil_check.specs.declared.fault.PolicyFault.TheVariants.{Memory};
ghost use Rattle.cil_check.specs.declared.fault.PolicyFaultKind.TheVariants.{Twice, Circular};

use crate::bound::{BoundPolicy, Seen};
use crate::fault::{PolicyFault, PolicyFaultKind};
use crate::firsts::{Association, Firsts};
use crate::groups::Groups;
use crate::inherited::add_common;
use crate::kinds::Kind;
use crate::permissions::Permissions;
use crate::witnesses::Witnesses;
use cil_names::counted_in_32_bits;
use cil_parse::{NumberedWord, StatementKind};
use std::alloc::{AllocError, Allocator, Global};

/// The kinds of faults that are seen at one statement, but for names that are declared twice, in the order of their codes.
pub(crate) const CHECKED: [PolicyFaultKind; 6] = [
    PolicyFaultKind::Missing,
    PolicyFaultKind::WrongKind,
    PolicyFaultKind::AliasTwice,
    PolicyFaultKind::AliasUnset,
    PolicyFaultKind::SecondCommon,
    PolicyFaultKind::TooManyPermissions,
];

/// Whether statements of a kind give an actual type or a common.
fn gives_any(kind: StatementKind) -> bool
    ensures { result ≡ (given_kind Actual kind || given_kind Common kind) }
{
    Association::Actual.is_given_by(kind) || Association::Common.is_given_by(kind)
}

/// A bound policy, the first statements that give an actual type or a common, the permissions that classes and commons list, all commons
/// that classes are given, and where among these a permission is to be looked for first.
#[derive(Drop)]
pub struct Checker<'p, 'm, A: Allocator = Global> {
    pub bound: BoundPolicy<'p, 'm, A>,
    pub actuals: Firsts<A>,
    pub commons: Firsts<A>,
    pub permissions: Permissions<A>,
    pub inherited: Groups<A>,
    pub witnesses: Witnesses<A>,
}

impl<'p, 'm, A: Allocator + Copy> Checker<'p, 'm, A> {
    /// What a bound policy's faults are found by. A policy of more than 4294967295 statements is answered as out of memory.
    pub fn of(alloc: A, bound: BoundPolicy<'p, 'm, A>) -> Result<Self, AllocError>
        requires { (policy : List Placed) × IsOf bound policy }
        ensures noted { IfOk result (λ checker. (policy : List Placed) → IsOf bound.entry policy → IsNoted checker policy) }
        ensures bound { IfOk result (λ checker. checker.bound ≡ bound.entry) }
    {
        let permissions = Permissions::of(alloc, &bound)?;
        let mut checker = Checker::listed(alloc, bound, permissions);
        checker.note_all(alloc)?;
        Ok(checker)
    }

    /// A bound policy with the permissions that its classes and commons list, and nothing else yet.
    fn listed(alloc: A, bound: BoundPolicy<'p, 'm, A>, permissions: Permissions<A>) -> Self
        ensures bound { result.bound ≡ bound.entry }
        ensures permissions { result.permissions ≡ permissions }
        ensures actuals { result.actuals ≡ [] }
        ensures commons { result.commons ≡ [] }
        ensures inherited { result.inherited ≡ ([], []) }
    {
        Checker {
            bound,
            actuals: Firsts::new(alloc),
            commons: Firsts::new(alloc),
            permissions,
            inherited: Groups::new(alloc),
            witnesses: Witnesses::new(alloc),
        }
    }

    /// Notes where a permission of several commons is to be looked for first.
    fn note_witnesses(&mut self, alloc: A) -> Result<(), AllocError>
        requires { (policy : List Placed) × IsOf self.old.bound policy }
        ensures bound { self.new.bound ≡ self.old.bound }
        ensures permissions { self.new.permissions ≡ self.old.permissions }
        ensures actuals { self.new.actuals ≡ self.old.actuals }
        ensures commons { self.new.commons ≡ self.old.commons }
        ensures inherited { self.new.inherited ≡ self.old.inherited }
    {
        self.witnesses = Witnesses::of(alloc, &self.bound, &self.permissions, &self.inherited)?;
        Ok(())
    }

    /// Notes what statements give to aliases and classes, and where permissions are to be looked for first.
    fn note_all(&mut self, alloc: A) -> Result<(), AllocError>
        requires is { (policy : List Placed) × IsOf self.old.bound policy }
        requires actuals { self.old.actuals ≡ [] }
        requires commons { self.old.commons ≡ [] }
        requires inherited { self.old.inherited ≡ ([], []) }
        ensures bound { OnOk result (self.new.bound ≡ self.old.bound) }
        ensures permissions { OnOk result (self.new.permissions ≡ self.old.permissions) }
        ensures actuals { OnOk result ((policy : List Placed) → IsOf self.old.bound policy
            → HasFirsts Actual policy self.new.actuals) }
        ensures commons { OnOk result ((policy : List Placed) → IsOf self.old.bound policy
            → HasFirsts Common policy self.new.commons) }
        ensures inherited { OnOk result ((policy : List Placed) → IsOf self.old.bound policy
            → HasInherited policy self.new.inherited) }
        ensures few { OnOk result ((policy : List Placed) → IsOf self.old.bound policy
            → length policy < 2 ^ 32) }
    {
        self.note_given(alloc)?;
        self.note_witnesses(alloc)?;
        Ok(())
    }

    /// Notes what statements give to aliases and classes, in one pass over those about names.
    #[inline(never)]
    fn note_given(&mut self, alloc: A) -> Result<(), AllocError>
        requires is { (policy : List Placed) × IsOf self.old.bound policy }
        requires actuals { self.old.actuals ≡ [] }
        requires commons { self.old.commons ≡ [] }
        requires inherited { self.old.inherited ≡ ([], []) }
        ensures bound { OnOk result (self.new.bound ≡ self.old.bound) }
        ensures permissions { OnOk result (self.new.permissions ≡ self.old.permissions) }
        ensures actuals { OnOk result ((policy : List Placed) → IsOf self.old.bound policy
            → HasFirsts Actual policy self.new.actuals) }
        ensures commons { OnOk result ((policy : List Placed) → IsOf self.old.bound policy
            → HasFirsts Common policy self.new.commons) }
        ensures inherited { OnOk result ((policy : List Placed) → IsOf self.old.bound policy
            → HasInherited policy self.new.inherited) }
        ensures few { OnOk result ((policy : List Placed) → IsOf self.old.bound policy
            → length policy < 2 ^ 32) }
    {
        let count = self.bound.len();
        counted_in_32_bits(count)?;
        let places = self.bound.name_places();
        for k in 0..places.len() {
            let place = places[k];
            if !gives_any(self.bound.kind(place as usize)) {
                continue;
            }
            self.note(alloc, place)?;
        }
        Ok(())
    }

    /// Notes what the statement of a place gives to an alias or a class.
    #[inline(never)]
    fn note(&mut self, alloc: A, place: u32) -> Result<(), AllocError>
        requires is { (policy : List Placed) × IsOf self.old.bound policy
            × (place < length policy) }
        requires same { length self.old.inherited.0 ≡ length self.old.inherited.1 }
        ensures bound { OnOk result (self.new.bound ≡ self.old.bound) }
        ensures permissions { OnOk result (self.new.permissions ≡ self.old.permissions) }
        ensures same { OnOk result (length self.new.inherited.0 ≡ length self.new.inherited.1) }
        ensures actuals { OnOk result ((policy : List Placed) (s : Placed)
            → IsOf self.old.bound policy → slice_get policy place ≡ Some s
            → HasFirstsOf Actual policy (take place policy) self.old.actuals
            → HasFirstsOf Actual policy (take (place + 1) policy) self.new.actuals) }
        ensures commons { OnOk result ((policy : List Placed) (s : Placed)
            → IsOf self.old.bound policy → slice_get policy place ≡ Some s
            → HasFirstsOf Common policy (take place policy) self.old.commons
            → HasFirstsOf Common policy (take (place + 1) policy) self.new.commons) }
        ensures inherited { OnOk result ((policy : List Placed) (s : Placed)
            → IsOf self.old.bound policy → slice_get policy place ≡ Some s
            → HasInheritedOf policy (take place policy) self.old.inherited
            → HasInheritedOf policy (take (place + 1) policy) self.new.inherited) }
    {
        let seen = self.bound.seen(place as usize);
        self.actuals.note(Association::Actual, &seen, place)?;
        self.commons.note(Association::Common, &seen, place)?;
        add_common(&mut self.inherited, alloc, &seen)?;
        Ok(())
    }
}

impl<'p, 'm, A: Allocator> Checker<'p, 'm, A> {
    /// The word of a reference, if it leads to a thing of another kind.
    fn of_another_kind(&self, seen: &Seen<'p, 'm, A>, k: usize, kind: Kind) -> Option<NumberedWord>
        requires { (policy : List Placed) × IsOf self.now.bound policy }
        ensures { (policy : List Placed) (s : Placed) (word : Word) → IsOf self.now.bound policy → IsSeen seen.now policy s → slice_get (references s.form) k ≡ Some (types, word) → slice_get (words_in s.form) k ≡ Some word
            → Reads seen.now result (word_if (is_of_another_kind policy s.namespace (test_of kind, word)) word) }
    {
        let found = seen.lead(k)?;
        if self.bound.is(found, kind) {
            None
        } else {
            seen.word(k)
        }
    }

    /// The first reference of a statement that leads to a thing of another kind than is asked.
    fn wrong_kind_word(&self, seen: &Seen<'p, 'm, A>) -> Option<NumberedWord>
        requires { (policy : List Placed) × IsOf self.now.bound policy }
        ensures { (policy : List Placed) (s : Placed) → IsOf self.now.bound policy → IsSeen seen.now policy s → Reads seen.now result (slice_get (wrong_kind_words policy s) 0) }
    {
        match seen.view.kind {
            StatementKind::TypeAliasActual => {
                let first = self.of_another_kind(seen, 0, Kind::Alias);
                first.or(self.of_another_kind(seen, 1, Kind::Type))
            }
            StatementKind::TypeAttributeSet => self.of_another_kind(seen, 0, Kind::Attribute),
            _ => None,
        }
    }

    /// The word to which a statement gives something, if one in front of a place gives it already.
    fn given_again(
        &self,
        association: Association,
        firsts: &Firsts<A>,
        place: usize,
        seen: &Seen<'p, 'm, A>,
    ) -> Option<NumberedWord>
        ensures { (policy : List Placed) (s : Placed) → HasFirsts association policy firsts.now → IsSeen seen.now policy s → Reads seen.now result (slice_get (again_words association policy (take place policy) s) 0) }
    {
        let found = association.lead(seen)?;
        let first = firsts.get(found)?;
        if (first as usize) < place {
            seen.word(0)
        } else {
            None
        }
    }

    /// The word of a reference, if it leads to an alias without an actual type.
    fn unset(&self, seen: &Seen<'p, 'm, A>, k: usize) -> Option<NumberedWord>
        requires { (policy : List Placed) × IsOf self.now.bound policy }
        ensures { (policy : List Placed) (s : Placed) (word : Word) → IsNoted self.now policy → IsSeen seen.now policy s → slice_get (references s.form) k ≡ Some (types, word) → slice_get (words_in s.form) k ≡ Some word
            → Reads seen.now result (word_if (is_unset policy s.namespace word) word) }
    {
        let found = seen.lead(k)?;
        if !self.bound.is(found, Kind::Alias) {
            return None;
        }
        match self.actuals.get(found) {
            None => seen.word(k),
            Some(_) => None,
        }
    }

    /// The first word behind the first of a set statement that leads to an alias without an actual type.
    fn unset_leaf(&self, seen: &Seen<'p, 'm, A>) -> Option<NumberedWord>
        requires { (policy : List Placed) × IsOf self.now.bound policy }
        ensures { (policy : List Placed) (s : Placed) (attribute : Word) (expr : WordExpr) → IsNoted self.now policy → IsSeen seen.now policy s → s.form ≡ attribute_set attribute expr
            → Reads seen.now result (slice_get (filter (is_unset policy s.namespace) (leaves expr)) 0) }
    {
        for k in 1..seen.view.words.len() {
            if let Some(word) = self.unset(seen, k) {
                return Some(word);
            }
        }
        None
    }

    /// The first word of a rule's source and target, or of a set expression, that leads to an alias without an actual type.
    pub(crate) fn unset_word(&self, seen: &Seen<'p, 'm, A>) -> Option<NumberedWord>
        requires { (policy : List Placed) × IsOf self.now.bound policy }
        ensures { (policy : List Placed) (s : Placed) → IsNoted self.now policy → IsSeen seen.now policy s → Reads seen.now result (slice_get (alias_unset_words policy s) 0) }
    {
        match seen.view.kind {
            StatementKind::Rule(_) | StatementKind::RuleOfSet(_) => {
                let first = self.unset(seen, 0);
                first.or(self.unset(seen, 1))
            }
            StatementKind::RuleToSelf(_) | StatementKind::RuleToSelfOfSet(_) => self.unset(seen, 0),
            StatementKind::TypeAttributeSet => self.unset_leaf(seen),
            _ => None,
        }
    }

    /// The first word at which the statement at a place has a fault of a kind.
    pub(crate) fn faulty_word(
        &self,
        kind: PolicyFaultKind,
        place: usize,
        seen: &Seen<'p, 'm, A>,
    ) -> Option<NumberedWord>
        requires ready { (policy : List Placed) × (s : Placed) × IsNoted self.now policy × IsSeen seen.now policy s × (slice_get policy place ≡ Some s) }
        requires kind { kind ≢ Twice }
        requires straight { kind ≢ Circular }
        ensures { (policy : List Placed) (s : Placed) → IsNoted self.now policy → IsSeen seen.now policy s → AreNumbersOf self.now.bound.policy.now.names seen.now.words.now (names_of seen.now.«module».now)
            → slice_get policy place ≡ Some s → Reads seen.now result (slice_get (faulty_words (policy_kind_of kind) policy (take place policy) s) 0) }
    {
        match kind {
            PolicyFaultKind::Twice => None,
            PolicyFaultKind::Missing => self.missing_word(seen),
            PolicyFaultKind::WrongKind => self.wrong_kind_word(seen),
            PolicyFaultKind::AliasTwice => {
                self.given_again(Association::Actual, &self.actuals, place, seen)
            }
            PolicyFaultKind::AliasUnset => self.unset_word(seen),
            PolicyFaultKind::SecondCommon => {
                self.given_again(Association::Common, &self.commons, place, seen)
            }
            PolicyFaultKind::TooManyPermissions => self.too_many_word(place, seen),
            PolicyFaultKind::Circular => None,
        }
    }

    /// The first fault of a kind that is seen at one statement.
    pub fn check_kind(&self, kind: PolicyFaultKind) -> Result<(), PolicyFault<'m>>
        requires ready { (policy : List Placed) × IsNoted self.now policy }
        requires kind { kind ≢ Twice }
        requires straight { kind ≢ Circular }
        ensures ok { OnOk result ((policy : List Placed) → IsNoted self.now policy → (fault : _) → IsFaultOf (policy_kind_of kind) policy fault → ⊥) }
        ensures err { IfErr result (λ fault. (policy : List Placed) → IsNoted self.now policy → IsFoundFault fault (IsLeast (IsFaultOf (policy_kind_of kind) policy))) }
    {
        for i in 0..self.bound.len() {
            let seen = self.bound.seen(i);
            if let Some(word) = self.faulty_word(kind, i, &seen) {
                return Err(seen.fault(kind, word));
            }
        }
        Ok(())
    }
}

impl<'p, 'm, A: Allocator + Copy> Checker<'p, 'm, A> {
    /// The first fault of these kinds. They are gone over one by one only where there is a fault.
    fn check_statements(&self, alloc: A) -> Result<(), PolicyFault<'m>>
        requires { (policy : List Placed) × IsNoted self.now policy }
        ensures ok { OnOk result ((policy : List Placed) → IsNoted self.now policy → HasNoneBelow 48 policy) }
        ensures err { IfErr result (λ fault. (policy : List Placed) → IsNoted self.now policy
            → IsFoundFault fault (IsLeast (IsFaultIn policy))) }
    {
        if self.is_clean(alloc) {
            return Ok(());
        }
        for kind in CHECKED {
            self.check_kind(kind)?;
        }
        Ok(())
    }

    /// The first fault but for names that are declared twice: of the least code, then of the least module name by bytes, then of the
    /// least offset. Memory may run out where no fault of a lesser code than 48 stands.
    pub fn check(&self, alloc: A) -> Result<(), PolicyFault<'m>>
        requires { (policy : List Placed) × IsNoted self.now policy }
        ensures ok { OnOk result ((policy : List Placed) → IsNoted self.now policy → IsFaultless policy) }
        ensures err { IfErr result (λ fault. (policy : List Placed) → IsNoted self.now policy
            → PolicyFaultIs fault (IsLeast (IsFaultIn policy))) }
        ensures memory { IfErr result (λ fault. fault ≡ Memory → (policy : List Placed) → IsNoted self.now policy
            → (other : _) → IsFaultIn policy other → other.kind ≡ circular) }
    {
        self.check_statements(alloc)?;
        self.check_circles(alloc)
    }
}
