//! Names that lead to nothing, and permissions that their classes lack.

ghost use Rattle.std.specs.Prelude.{◌≡◌, ◌<◌, List, ℕ, true, Contains, Some, length, slice_get};
ghost use Rattle.cil_check.specs.Common.{Placed, classes, references, has_name, permissions_of, missing_words, AreNumbersOf, names_of, word_at, IsFirstOf, IsLead, IsSeen, Reads, IsNoted, first_unfound, class_lead, lacking_words};

use crate::bound::Seen;
use crate::checker::Checker;
use cil_parse::{NumberedWord, StatementKind};
use std::alloc::Allocator;

/// The place that the class of the permissions that a statement names leads to.
pub fn class_lead<A: Allocator>(seen: &Seen<'_, '_, A>) -> Option<u32>
    ensures { (policy : List Placed) (s : Placed) → IsSeen seen.now policy s → IsLead classes policy result (class_lead policy s) }
{
    match seen.view.kind {
        StatementKind::Rule(_) => seen.lead(2),
        StatementKind::RuleToSelf(_) | StatementKind::ClassPermissionSet => seen.lead(1),
        _ => None,
    }
}

impl<'p, 'm, A: Allocator> Checker<'p, 'm, A> {
    /// The first reference of a statement that leads nowhere.
    pub(crate) fn unfound(&self, seen: &Seen<'p, 'm, A>) -> Option<NumberedWord>
        ensures { (policy : List Placed) (s : Placed) → IsSeen seen.now policy s → Reads seen.now result (first_unfound policy s.namespace 0 (references s.form)) }
    {
        for k in 0..seen.bound.len() {
            if let Some(_found) = seen.lead(k) {
                continue;
            }
            return seen.word(k);
        }
        None
    }

    /// Whether the witness for a permission of the class of a place is a common that lists it.
    fn is_witnessed(&self, class: u32, word: u32) -> bool
        ensures { (policy : List Placed) (s : Placed) → IsNoted self.now policy → slice_get policy class ≡ Some s → IsFirstOf classes policy class → word < length self.now.bound.policy.now.names
            → result ≡ true → has_name (permissions_of policy s) (word_at self.now.bound.policy.now.names word) ≡ true }
    {
        let Some(at) = self.witnesses.get(class, word) else {
            return false;
        };
        let Some(common) = self.inherited.item(class, at) else {
            return false;
        };
        self.permissions.has(common, word)
    }

    /// Whether the class of a place has a permission, of its own or by a common that a statement gives it. All commons are gone over only
    /// where no witness is found: once in a check, which ends at the first permission that is lacking.
    pub fn has_permission(&self, class: u32, word: u32) -> bool
        ensures { (policy : List Placed) (s : Placed) → IsNoted self.now policy → slice_get policy class ≡ Some s → IsFirstOf classes policy class → word < length self.now.bound.policy.now.names
            → result ≡ has_name (permissions_of policy s) (word_at self.now.bound.policy.now.names word) }
    {
        if self.permissions.has(class, word) {
            return true;
        }
        if self.is_witnessed(class, word) {
            return true;
        }
        for common in self.inherited.get(class) {
            if self.permissions.has(*common, word) {
                return true;
            }
        }
        false
    }

    /// The first permission that a statement names and its class lacks.
    pub(crate) fn lacking(&self, seen: &Seen<'p, 'm, A>) -> Option<NumberedWord>
        requires { (policy : List Placed) × (s : Placed) × IsNoted self.now policy × IsSeen seen.now policy s }
        ensures { (policy : List Placed) (s : Placed) → IsNoted self.now policy → IsSeen seen.now policy s → AreNumbersOf self.now.bound.policy.now.names seen.now.words.now (names_of seen.now.«module».now)
            → Contains policy s → Reads seen.now result (slice_get (lacking_words policy s) 0) }
    {
        let class = class_lead(seen)?;
        for word in seen.view.permissions() {
            if !self.has_permission(class, seen.number(*word)) {
                return Some(*word);
            }
        }
        None
    }

    /// The first reference of a statement that leads nowhere, or else the first permission that its class lacks.
    pub fn missing_word(&self, seen: &Seen<'p, 'm, A>) -> Option<NumberedWord>
        requires { (policy : List Placed) × (s : Placed) × IsNoted self.now policy × IsSeen seen.now policy s }
        ensures { (policy : List Placed) (s : Placed) → IsNoted self.now policy → IsSeen seen.now policy s → AreNumbersOf self.now.bound.policy.now.names seen.now.words.now (names_of seen.now.«module».now)
            → Contains policy s → Reads seen.now result (slice_get (missing_words policy s) 0) }
    {
        let first = self.unfound(seen);
        first.or(self.lacking(seen))
    }
}
