//! The permissions that classes and commons list, by numbers.

ghost use Rattle.std.specs.Prelude.{◌≡◌, ◌<◌, ◌||◌, ◌&&◌, ◌==◌, ◌++◌, ◌∷◌, [], ℕ, false, List, map, length, bytes_eq, Some, OnOk, IfOk, if◌then◌else◌};
ghost use Rattle.cil_check.specs.Common.{Word, Placed, has_name, texts, distinct, read, AreNumbersOf, texts_of, names_of, word_at, is_listed, HaveListed, HaveWords, lists_own, IsOf};
ghost use Rattle.std.specs.List.{list_any, AllByRecursion, IsDistinct};
ghost use Rattle.cil_bind.specs.Written.{IsOneName};

use crate::bound::{BoundPolicy, Seen};
use cil_names::counted_in_32_bits;
use cil_parse::{Lists, NumberedWord, StatementKind};
use indexmap::IndexSet;
use std::alloc::{AllocError, Allocator, Global};
use std::hash::{BuildHasherDefault, FoldHasher};

/// A permission that a class or a common lists, by the place of its statement and the number of the permission's name.
#[derive(Clone, Copy, PartialEq, Eq, Hash)]
pub struct Listed {
    pub owner: u32,
    pub word: u32,
}

/// Whether statements of a kind list permissions of their own.
fn lists_own(kind: StatementKind) -> bool
    ensures { result ≡ lists_own kind }
{
    match kind {
        StatementKind::Common => true,
        StatementKind::Class => true,
        _ => false,
    }
}

/// The permissions that classes and commons list; and for each statement the numbers of those that it lists, each once.
#[derive(Drop)]
pub struct Permissions<A: Allocator = Global> {
    pub listed: IndexSet<Listed, BuildHasherDefault<FoldHasher>, A>,
    pub words: Lists<u32, A>,
}

impl<A: Allocator> Permissions<A> {
    /// Whether the class or the common of a place lists a permission.
    pub fn has(&self, owner: u32, word: u32) -> bool
        ensures { result ≡ list_any (is_listed owner word) self.now.listed.keys }
    {
        self.listed.contains(&Listed { owner, word })
    }
}

impl<A: Allocator + Copy> Permissions<A> {
    /// Takes up a permission.
    fn add(&mut self, owner: u32, word: u32) -> Result<(), AllocError>
        ensures listed { OnOk result ((k n : ℕ) → list_any (is_listed k n) self.new.listed.keys ≡ (list_any (is_listed k n) self.old.listed.keys || (k == owner && n == word))) }
        ensures words { OnOk result (self.new.words ≡ (self.old.words.0, if list_any (is_listed owner word) self.old.listed.keys then self.old.words.1 else self.old.words.1 ++ word ∷ [])) }
    {
        if self.listed.insert(Listed { owner, word })? {
            self.words.push(word)?;
        }
        Ok(())
    }

    /// Takes up the permissions that a statement lists.
    #[inline(never)]
    fn add_words(
        &mut self,
        owner: u32,
        seen: &Seen<'_, '_, A>,
        words: &[NumberedWord],
    ) -> Result<(), AllocError>
        requires { (list : List Word) × (map (read (texts_of seen.now.«module».now)) words.now ≡ map Some list) }
        ensures listed { OnOk result ((names : List (List ℕ)) (list : List Word) → IsDistinct bytes_eq names → AreNumbersOf names seen.now.words.now (names_of seen.now.«module».now)
            → map (read (texts_of seen.now.«module».now)) words.now ≡ map Some list → AllByRecursion IsOneName list → (k n : ℕ) → n < length names
            → list_any (is_listed k n) self.new.listed.keys ≡ (list_any (is_listed k n) self.old.listed.keys || (k == owner && has_name (texts list) (word_at names n)))) }
        ensures closed { OnOk result (self.new.words.0 ≡ self.old.words.0) }
        ensures words { OnOk result ((names : List (List ℕ)) (list : List Word) → IsDistinct bytes_eq names → AreNumbersOf names seen.now.words.now (names_of seen.now.«module».now)
            → map (read (texts_of seen.now.«module».now)) words.now ≡ map Some list → AllByRecursion IsOneName list → ((n : ℕ) → n < length names → list_any (is_listed owner n) self.old.listed.keys ≡ false)
            → self.old.words.1 ≡ [] → AreNumbersOf names self.new.words.1 (distinct (texts list))) }
    {
        for word in words {
            self.add(owner, seen.number(*word))?;
        }
        Ok(())
    }

    /// The permissions that the classes and the commons of a policy list. A policy of more than 4294967295 statements is answered as out
    /// of memory.
    #[inline(never)]
    pub fn of(alloc: A, bound: &BoundPolicy<'_, '_, A>) -> Result<Self, AllocError>
        requires { (policy : List Placed) × IsOf bound.now policy }
        ensures listed { IfOk result (λ permissions. (policy : List Placed) → IsOf bound.now policy → HaveListed bound.now.policy.now.names policy permissions.listed.keys) }
        ensures words { IfOk result (λ permissions. (policy : List Placed) → IsOf bound.now policy → HaveWords bound.now.policy.now.names policy permissions.words.0) }
    {
        let count = bound.len();
        counted_in_32_bits(count)?;
        let mut permissions = Permissions {
            listed: IndexSet::new(alloc),
            words: Lists::with_capacity(alloc, count, 0)?,
        };
        for i in 0..count {
            if lists_own(bound.kind(i)) {
                let seen = bound.seen(i);
                permissions.add_words(i as u32, &seen, seen.view.permissions())?;
            }
            permissions.words.close()?;
        }
        Ok(permissions)
    }
}
