//! The permissions that statements name of classes that have them all.

ghost use Rattle.std.specs.Prelude.{◌≡◌, ◌<◌, [], List, Some, true, length, slice_get, Contains, IsTrue};
ghost use Rattle.cil_check.specs.Common.{Placed, AreNumbersOf, classes, has_name, names_of, permissions_of, word_at, IsFirstOf, IsLead, IsSeen, IsNoted, class_lead, lacking_words};
ghost use Rattle.cil_check.specs.Recent.{IsKnown};

use crate::bound::Seen;
use crate::checker::Checker;
use crate::known::Known;
use cil_bind::PermissionList;
use std::alloc::Allocator;

impl<'p, 'm, A: Allocator + Copy> Checker<'p, 'm, A> {
    /// Whether the class of a place has a permission. One that it has is known then.
    fn has_known(&self, class: u32, word: u32, known: &mut Known<A>) -> bool
        ensures has { IsTrue result → (policy : List Placed) (s : Placed) → IsNoted self.now policy
            → slice_get policy class ≡ Some s → IsFirstOf classes policy class
            → word < length self.now.bound.policy.now.names → IsKnown self.now policy known.old
            → has_name (permissions_of policy s) (word_at self.now.bound.policy.now.names word)
            ≡ true }
        ensures known { (policy : List Placed) (s : Placed) → IsNoted self.now policy
            → slice_get policy class ≡ Some s → IsFirstOf classes policy class
            → word < length self.now.bound.policy.now.names → IsKnown self.now policy known.old
            → IsKnown self.now policy known.new }
    {
        if known.has(class, word) {
            return true;
        }
        if !self.has_permission(class, word) {
            return false;
        }
        known.note(class, word);
        true
    }

    /// Whether a class has all permissions that a statement names of it.
    #[inline(always)]
    fn has_named(&self, class: u32, seen: &Seen<'p, 'm, A>, known: &mut Known<A>) -> bool
        requires { (policy : List Placed) × (s : Placed) × IsNoted self.now policy
            × IsSeen seen.now policy s }
        ensures none { IsTrue result → (policy : List Placed) (s : Placed)
            → IsNoted self.now policy → IsSeen seen.now policy s
            → AreNumbersOf self.now.bound.policy.now.names seen.now.words.now
            (names_of seen.now.«module».now)
            → Contains policy s → IsLead classes policy (Some class) (class_lead policy s)
            → IsKnown self.now policy known.old → lacking_words policy s ≡ [] }
        ensures known { (policy : List Placed) (s : Placed) → IsNoted self.now policy
            → IsSeen seen.now policy s
            → AreNumbersOf self.now.bound.policy.now.names seen.now.words.now
            (names_of seen.now.«module».now)
            → Contains policy s → IsLead classes policy (Some class) (class_lead policy s)
            → IsKnown self.now policy known.old → IsKnown self.now policy known.new }
    {
        for word in seen.view.permissions() {
            if !self.has_known(class, seen.number(*word), known) {
                return false;
            }
        }
        true
    }

    /// The same of the statement of a place.
    #[inline(never)]
    fn has_named_at(&self, place: usize, class: u32, known: &mut Known<A>) -> bool
        requires { (policy : List Placed) × (s : Placed) × IsNoted self.now policy
            × (slice_get policy place ≡ Some s) }
        ensures none { IsTrue result → (policy : List Placed) (s : Placed)
            → IsNoted self.now policy → slice_get policy place ≡ Some s
            → IsLead classes policy (Some class) (class_lead policy s)
            → IsKnown self.now policy known.old → lacking_words policy s ≡ [] }
        ensures known { (policy : List Placed) (s : Placed) → IsNoted self.now policy
            → slice_get policy place ≡ Some s
            → IsLead classes policy (Some class) (class_lead policy s)
            → IsKnown self.now policy known.old → IsKnown self.now policy known.new }
    {
        self.has_named(class, &self.bound.seen(place), known)
    }

    /// Whether a class lacks none of the permissions that the statement of a place names of it.
    /// Those of a list that the class is known to have are not gone over.
    #[inline(always)]
    pub(crate) fn has_listed(&self, place: usize, class: u32, known: &mut Known<A>) -> bool
        requires { (policy : List Placed) × (s : Placed) × IsNoted self.now policy
            × (slice_get policy place ≡ Some s)
            × IsLead classes policy (Some class) (class_lead policy s) }
        ensures none { IsTrue result → (policy : List Placed) (s : Placed)
            → IsNoted self.now policy → slice_get policy place ≡ Some s
            → IsLead classes policy (Some class) (class_lead policy s)
            → IsKnown self.now policy known.old → lacking_words policy s ≡ [] }
        ensures known { (policy : List Placed) (s : Placed) → IsNoted self.now policy
            → slice_get policy place ≡ Some s
            → IsLead classes policy (Some class) (class_lead policy s)
            → IsKnown self.now policy known.old → IsKnown self.now policy known.new }
    {
        let list = PermissionList::of(self.bound.joined, &self.bound.policy.rows[place]);
        if known.lists.knows(list, class) {
            return true;
        }
        if !self.has_named_at(place, class, known) {
            return false;
        }
        known.lists.note(list, class);
        true
    }
}
