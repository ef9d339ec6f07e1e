//! The statements of a bound policy.

ghost use Rattle.std.specs.Prelude.{◌≡◌, ◌<◌, ◌∷◌, [], ℕ, List, None, IsTrue, length, slice_get, slice_index_or, Some};
ghost use Rattle.cil_bind.specs.AboutNames.{name_places as places_of_kinds};
ghost use Rattle.cil_bind.specs.Binding.{AreLeads, kinds_of};
ghost use Rattle.cil_specs.specs.Lookup.{references as references_of};
ghost use Rattle.cil_check.specs.Common.{Word, components, Placed, read, kind_of, texts_of, names_of, AreNumbersOf, test_of, IsOf, IsSeen, policy_kind_of, fault_at, IsFoundFault};

use crate::fault::{PolicyFault, PolicyFaultKind};
use crate::kinds::Kind;
use cil_bind::{Joined, Policy, References};
use cil_parse::{NumberedWord, ParsedModule, StatementKind, StatementView};
use std::alloc::{Allocator, Global};

/// A statement as it is seen: its module and the module's name, its view, where its references lead, and the numbers of the names of
/// its module.
#[derive(Drop)]
pub struct Seen<'p, 'm, A: Allocator = Global> {
    pub module: &'m ParsedModule<A>,
    pub name: &'m [u8],
    pub view: StatementView<'m>,
    pub bound: References<'p>,
    pub words: &'p [u32],
}

/// The number at an index, and 0 past the end.
fn number_at(words: &[u32], k: usize) -> u32
    ensures { result ≡ slice_index_or words.now k 0 }
{
    match words.get(k) {
        Some(n) => *n,
        None => 0,
    }
}

impl<'p, 'm, A: Allocator> Seen<'p, 'm, A> {
    /// The place that a reference leads to.
    pub fn lead(&self, k: usize) -> Option<u32>
        ensures { result ≡ slice_index_or self.now.bound k None }
    {
        self.bound.place(k)
    }

    /// A word of the statement.
    pub fn word(&self, k: usize) -> Option<NumberedWord>
        ensures { result ≡ slice_get self.now.view.words.now k }
    {
        self.view.words.get(k).copied()
    }

    /// The number of a word that is one name, in the numbering of the policy.
    pub fn number(&self, word: NumberedWord) -> u32
        requires { (w : Word) × (read (texts_of self.now.«module».now) word ≡ Some w) }
        ensures { (names : List (List ℕ)) (w : Word) → AreNumbersOf names self.now.words.now (names_of self.now.«module».now) → read (texts_of self.now.«module».now) word ≡ Some w → components w.text ≡ w.text ∷ []
            → slice_get names result ≡ Some w.text }
    {
        let path = self.module.components(word.text as usize);
        let k = number_at(path, 0);
        number_at(self.words, k as usize)
    }

    /// The fault of a kind at a word of the statement.
    pub fn fault(&self, kind: PolicyFaultKind, word: NumberedWord) -> PolicyFault<'m>
        requires { (w : Word) × (read (texts_of self.now.«module».now) word ≡ Some w) }
        ensures { (policy : List Placed) (s : Placed) (w : Word) → IsSeen self.now policy s → read (texts_of self.now.«module».now) word ≡ Some w → IsFoundFault result (λ f. f ≡ fault_at (policy_kind_of kind) s w) }
    {
        PolicyFault::Found {
            kind,
            module: self.name,
            at: word.at,
            word: self.module.text(word.text as usize),
        }
    }
}

/// A policy whose references are bound, with its modules.
#[derive(Drop)]
pub struct BoundPolicy<'p, 'm, A: Allocator = Global> {
    pub joined: &'p Joined<'m, A>,
    pub policy: &'p Policy<'m, A>,
}

impl<'p, 'm, A: Allocator> BoundPolicy<'p, 'm, A> {
    /// How many statements there are.
    pub fn len(&self) -> usize
        ensures { (policy : List Placed) → IsOf self.now policy → result ≡ length policy }
    {
        self.policy.rows.len()
    }

    /// The kinds of the statements, in their order.
    pub fn kinds(&self) -> &'p [StatementKind]
        ensures { (policy : List Placed) → IsOf self.now policy → result.now ≡ kinds_of policy }
    {
        self.policy.kinds.as_slice()
    }

    /// The places of the statements about names, in their order.
    pub fn name_places(&self) -> &'p [u32]
        ensures { (policy : List Placed) → IsOf self.now policy
            → result.now ≡ places_of_kinds 0 (kinds_of policy) }
    {
        self.policy.name_places.as_slice()
    }

    /// Where the references of the statement of a place lead.
    #[inline(always)]
    pub fn references(&self, i: usize) -> References<'p>
        requires { (policy : List Placed) × IsOf self.now policy × (i < length policy) }
        ensures { (policy : List Placed) (s : Placed) → IsOf self.now policy
            → slice_get policy i ≡ Some s
            → AreLeads policy s.namespace (references_of s.form) result }
    {
        self.policy.references(self.joined, i)
    }

    /// The statement of a place. It is inlined, since most callers need a part of it.
    #[inline(always)]
    pub fn seen(&self, i: usize) -> Seen<'p, 'm, A>
        requires is { (policy : List Placed) × IsOf self.now policy × (i < length policy) }
        ensures seen { (policy : List Placed) (s : Placed) → IsOf self.now policy → slice_get policy i ≡ Some s → IsSeen result policy s }
        ensures worded { (policy : List Placed) → IsOf self.now policy → AreNumbersOf self.now.policy.now.names result.words.now (names_of result.«module».now) }
    {
        let row = self.policy.rows[i];
        let number = row.module as usize;
        let named = &self.joined.modules[number];
        Seen {
            module: named.module,
            name: named.name,
            view: named.module.statement(row.index as usize),
            bound: self.references(i),
            words: self.policy.words[number].as_slice(),
        }
    }

    /// Whether the statement of a place stands in an optional.
    #[inline(always)]
    pub fn is_inside(&self, i: usize) -> bool
        requires { (policy : List Placed) × IsOf self.now policy × (i < length policy) }
        ensures { IsTrue result → (policy : List Placed) (s : Placed) → IsOf self.now policy
            → slice_get policy i ≡ Some s → s.optionals ≡ [] → ⊥ }
    {
        self.policy.rows[i].optional != 0
    }

    /// The kind of the statement of a place, without its words.
    pub fn kind(&self, i: usize) -> StatementKind
        requires { (policy : List Placed) × IsOf self.now policy × (i < length policy) }
        ensures { (policy : List Placed) (s : Placed) → IsOf self.now policy → slice_get policy i ≡ Some s → result ≡ kind_of s.form }
    {
        self.policy.kinds[i]
    }

    /// Whether the statement of a place declares a thing of a kind.
    pub fn is(&self, place: u32, kind: Kind) -> bool
        requires { (policy : List Placed) × IsOf self.now policy }
        ensures { (policy : List Placed) (s : Placed) → IsOf self.now policy → slice_get policy place ≡ Some s → result ≡ test_of kind s.form }
    {
        if place as usize >= self.len() {
            return false;
        }
        kind.is(self.kind(place as usize))
    }
}
