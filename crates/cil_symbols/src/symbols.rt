//! Distinct names by numbers that stay.

ghost use Rattle.std.specs.Prelude.{◌≡◌, ◌<◌, [], bytes_eq, false, length, position, set, slice_get, None, Some, IfOk, MatchOption, OnErr, OnOk};
ghost use Rattle.std.specs.List.{IsDistinct};
ghost use Rattle.cil_specs.specs.Lookup.{has_name, with_name};

use cil_names::{Name, OwnedName, Seed};
use indexmap::IndexSet;
use std::alloc::{AllocError, Allocator, Global};
use std::marker::Model;

/// Distinct names, which it owns. The number of a name is its place, and stays while other names come. Contracts see it as the list
/// of its names.
#[derive(Drop)]
pub struct Symbols<A: Allocator = Global> {
    names: IndexSet<OwnedName<A>, Seed, A>,
}

impl<A: Allocator> Model for Symbols<A> {
    ghost use Rattle.std.specs.Prelude.{List, ℕ, map, bytes_eq};
    ghost use Rattle.std.specs.List.{IsDistinct};

    ghost Value = { List (List ℕ) };

    ghost view = { λ s. map (λ name. name.text.items) s.names.keys };

    ghost invariant = { λ s. IsDistinct bytes_eq (map (λ name. name.text.items) s.names.keys) };
}

impl<A: Allocator + Copy> Symbols<A> {
    /// No names. It takes no memory.
    pub fn new(alloc: A, seed: Seed) -> Self
        ensures { result ≡ [] }
    {
        Symbols {
            names: IndexSet::with_hasher(alloc, seed),
        }
    }

    /// The number of a name: its own, or the next one where it is new. Only a new name is copied.
    pub fn number(&mut self, alloc: A, name: &[u8]) -> Result<usize, AllocError>
        ensures number { IfOk result (λ n. slice_get self.new n ≡ Some name.now) }
        ensures ok { OnOk result (self.new ≡ with_name self.old name.now) }
        ensures err { OnErr result (self.new ≡ self.old) }
    {
        if let Some(n) = self.find(name) {
            return Ok(n);
        }
        let text = Vec::from_slice(alloc, name)?;
        let (n, _new) = self.names.insert_full(OwnedName { text })?;
        Ok(n)
    }

    /// Gives the number of another name to a new one, which stands in its place from then on. All others keep their numbers.
    pub fn reuse(&mut self, alloc: A, number: usize, name: &[u8]) -> Result<(), AllocError>
        requires number { number < length self.old }
        requires new { has_name self.old name.now ≡ false }
        ensures ok { OnOk result (self.new ≡ set self.old number name.now) }
        ensures err { OnErr result (self.new ≡ self.old) }
    {
        let text = Vec::from_slice(alloc, name)?;
        self.names.insert(OwnedName { text })?;
        let _other = self.names.swap_remove_index(number);
        Ok(())
    }
}

impl<A: Allocator> Symbols<A> {
    /// What its table is hashed by.
    pub fn seed(&self) -> Seed {
        *self.names.hasher()
    }

    /// How many names there are.
    pub fn len(&self) -> usize
        ensures len { result ≡ length self.now }
        ensures distinct { IsDistinct bytes_eq self.now }
    {
        self.names.len()
    }

    /// The number of a name, if it has one. It takes no memory.
    pub fn find(&self, name: &[u8]) -> Option<usize>
        ensures { result ≡ position (bytes_eq name.now) self.now }
    {
        self.names.get_index_of(Name { text: name })
    }

    /// The name that has a number.
    pub fn name(&self, number: usize) -> Option<&[u8]>
        ensures { MatchOption result (slice_get self.now number ≡ None) (λ name. slice_get self.now number ≡ Some name.now) }
    {
        match self.names.get_index(number) {
            Some(name) => Some(name.text.as_slice()),
            None => None,
        }
    }
}
