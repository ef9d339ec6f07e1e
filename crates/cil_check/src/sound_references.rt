//! References that are bound, and to no alias without an actual type.

ghost use Rattle.std.specs.Prelude.{◌≡◌, ◌<◌, List, Some, true, is_some, length, slice_get, IsTrue};
ghost use Rattle.std.specs.List.{list_all, AllByRecursion};
ghost use Rattle.cil_bind.specs.Binding.{AreLeads};
ghost use Rattle.cil_check.specs.Common.{Placed, references, IsNoted};
ghost use Rattle.cil_check.specs.Clean.{is_other, is_sound as is_sound_lead, are_sound as are_sound_leads, HaveActuals, IsSettled, IsSound};

use crate::checker::Checker;
use crate::kinds::Kind;
use cil_bind::References;
use std::alloc::Allocator;

/// Whether all of some references are bound.
#[inline(always)]
fn are_bound(bound: &References<'_>) -> bool
    ensures { IsTrue result → list_all is_some bound.now ≡ true }
{
    for k in 0..bound.len() {
        if !bound.place(k).is_some() {
            return false;
        }
    }
    true
}

impl<'p, 'm, A: Allocator + Copy> Checker<'p, 'm, A> {
    /// Whether a reference is bound, and not to an alias without an actual type.
    fn is_sound(&self, found: Option<u32>) -> bool
        ensures { result
            ≡ is_sound_lead self.now.bound.policy.now.kinds.items self.now.actuals found }
    {
        let Some(place) = found else {
            return false;
        };
        match self.bound.policy.kinds.get(place as usize) {
            Some(kind) => !Kind::Alias.is(*kind) || self.actuals.get(place).is_some(),
            None => false,
        }
    }

    /// Whether a place is that of a statement, and not of an alias.
    #[inline(always)]
    fn is_other(&self, place: u32) -> bool
        ensures { result ≡ is_other (slice_get self.now.bound.policy.now.kinds.items place) }
    {
        match self.bound.policy.kinds.get(place as usize) {
            Some(kind) => !Kind::Alias.is(*kind),
            None => false,
        }
    }

    /// Whether a reference is bound, and to no alias. No statement has the place that stands for
    /// nowhere here, since there are fewer than 2^32.
    #[inline(always)]
    fn is_plainly_sound(&self, found: Option<u32>) -> bool
        ensures { IsTrue result → (policy : List Placed) → IsNoted self.now policy
            → is_sound_lead self.now.bound.policy.now.kinds.items self.now.actuals found ≡ true }
    {
        self.is_other(found.unwrap_or(u32::MAX))
    }

    /// Whether all of some references are bound, and none to an alias.
    #[inline(always)]
    fn are_plainly_sound(&self, bound: &References<'_>) -> bool
        ensures { IsTrue result → (policy : List Placed) → IsNoted self.now policy
            → are_sound_leads self.now.bound.policy.now.kinds.items self.now.actuals bound.now ≡ true }
    {
        for k in 0..bound.len() {
            if !self.is_plainly_sound(bound.place(k)) {
                return false;
            }
        }
        true
    }

    /// Whether all of some references are bound, and none to an alias without an actual type, by
    /// going over them one by one.
    #[cold]
    #[inline(never)]
    fn are_each_sound(&self, bound: &References<'_>) -> bool
        ensures { result
            ≡ are_sound_leads self.now.bound.policy.now.kinds.items self.now.actuals bound.now }
    {
        for k in 0..bound.len() {
            if !self.is_sound(bound.place(k)) {
                return false;
            }
        }
        true
    }

    /// Whether all of some references are bound, and none to an alias without an actual type. Most
    /// lead to no alias.
    #[inline(always)]
    fn are_sound(&self, bound: &References<'_>) -> bool
        ensures { (policy : List Placed) → IsNoted self.now policy → result
            ≡ are_sound_leads self.now.bound.policy.now.kinds.items self.now.actuals bound.now }
    {
        self.are_plainly_sound(bound) || self.are_each_sound(bound)
    }

    /// Whether no alias lacks an actual type. All aliases are among the statements about names.
    #[inline(never)]
    pub(crate) fn have_actuals(&self) -> bool
        requires { (policy : List Placed) × IsNoted self.now policy }
        ensures { IsTrue result
            → HaveActuals self.now.bound.policy.now.kinds.items self.now.actuals }
    {
        let places = self.bound.name_places();
        for k in 0..places.len() {
            if !self.is_sound(Some(places[k])) {
                return false;
            }
        }
        true
    }

    /// Whether the statement of a place stands in an optional, by whether no alias lacks an actual
    /// type. In a kept optional all names are found, so it needn't be looked at for these.
    #[inline(always)]
    pub(crate) fn is_settled(&self, place: usize, aliases_set: bool) -> bool
        requires { (policy : List Placed) × IsNoted self.now policy × (place < length policy) }
        ensures { IsTrue result → (policy : List Placed) (s : Placed) → IsNoted self.now policy
            → slice_get policy place ≡ Some s
            → (IsTrue aliases_set → HaveActuals self.now.bound.policy.now.kinds.items self.now.actuals)
            → IsSettled policy s }
    {
        if !aliases_set {
            return false;
        }
        self.bound.is_inside(place)
    }

    /// Whether all references of the statement of a place are bound, and none to an alias without
    /// an actual type.
    #[inline(never)]
    pub(crate) fn are_sound_at(&self, place: usize) -> bool
        requires { (policy : List Placed) × IsNoted self.now policy × (place < length policy) }
        ensures { IsTrue result → (policy : List Placed) (s : Placed) → IsNoted self.now policy
            → slice_get policy place ≡ Some s
            → AllByRecursion (IsSound policy s.namespace) (references s.form) }
    {
        self.are_sound(&self.bound.references(place))
    }

    /// The same by whether no alias lacks an actual type, and by where the references lead. Where no
    /// alias lacks one, the kinds of what they lead to needn't be looked at.
    #[inline(always)]
    pub(crate) fn are_sound_by(
        &self,
        aliases_set: bool,
        place: usize,
        bound: &References<'_>,
    ) -> bool
        requires { (policy : List Placed) × IsNoted self.now policy × (place < length policy) }
        ensures { IsTrue result → (policy : List Placed) (s : Placed) → IsNoted self.now policy
            → (IsTrue aliases_set → HaveActuals self.now.bound.policy.now.kinds.items self.now.actuals)
            → slice_get policy place ≡ Some s
            → AreLeads policy s.namespace (references s.form) bound.now
            → AllByRecursion (IsSound policy s.namespace) (references s.form) }
    {
        if aliases_set {
            return are_bound(bound);
        }
        self.are_sound_at(place)
    }
}
