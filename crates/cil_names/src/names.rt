//! Names by numbers.

ghost use Rattle.std.specs.Prelude.{◌≡◌, ◌++◌, ◌∷◌, ◌⊎◌, [], ℕ, List, IsTrue, bytes_eq, length, map, not, position, slice_get, option_map, Some, IfOk, OnOk, OnErr};
ghost use Rattle.std.specs.List.{IsDistinct};
ghost use Rattle.cil_specs.specs.Lookup.{has_name, with_name};
ghost use Rattle.cil_specs.specs.Report.{names_rise};

use crate::name::Name;
use crate::seed::Seed;
use indexmap::IndexSet;
use std::alloc::{AllocError, Allocator, Global};
use std::marker::Model;

/// Distinct names, each with its number: its place in the order in which they came. It borrows them. Contracts see it as their list.
#[derive(Drop)]
pub struct Names<'m, A: Allocator = Global> {
    names: IndexSet<Name<'m>, Seed, A>,
}

impl<'m, A: Allocator> Model for Names<'m, A> {
    ghost use Rattle.std.specs.Prelude.{List, ℕ, map, bytes_eq};
    ghost use Rattle.std.specs.List.{IsDistinct};

    ghost Value = { List (List ℕ) };

    ghost view = { λ s. map (λ name. name.text.now) s.names.keys };

    ghost invariant = { λ s. IsDistinct bytes_eq (map (λ name. name.text.now) s.names.keys) };
}

impl<'m, A: Allocator + Copy> Names<'m, A> {
    /// No names. It takes no memory.
    pub fn new(alloc: A, seed: Seed) -> Self
        ensures { result ≡ [] }
    {
        Names {
            names: IndexSet::with_hasher(alloc, seed),
        }
    }

    /// Puts the names in the order of their bytes.
    pub fn sort(&mut self) -> Result<(), AllocError>
        ensures ordered { OnOk result (IsTrue (names_rise self.new)) }
        ensures same { (name : List ℕ) → has_name self.new name ≡ has_name self.old name }
        ensures err { OnErr result (self.new ≡ self.old) }
    {
        self.names.sort_unstable()
    }
}

impl<'m, A: Allocator> Names<'m, A> {
    /// The number of a name, the next one where it is new, with whether it is.
    pub fn insert(&mut self, name: &'m [u8]) -> Result<(usize, bool), AllocError>
        ensures number { IfOk result (λ found. slice_get self.new found.0 ≡ Some name.now) }
        ensures added { IfOk result (λ found. found.1 ≡ not (has_name self.old name.now)) }
        ensures ok { OnOk result (self.new ≡ with_name self.old name.now) }
        ensures err { OnErr result (self.new ≡ self.old) }
        ensures distinct { IsDistinct bytes_eq self.new }
    {
        let (number, new) = self.names.insert_full(Name { text: name })?;
        Ok((number, new))
    }

    /// The number of a name, if it has one. It takes no memory.
    pub fn find(&self, name: &[u8]) -> Option<usize>
        ensures { result ≡ position (bytes_eq name.now) self.now }
    {
        self.names.get_index_of(&Name { text: name })
    }

    /// How many names there are.
    pub fn len(&self) -> usize
        ensures len { result ≡ length self.now }
        ensures distinct { IsDistinct bytes_eq self.now }
    {
        self.names.len()
    }

    /// The name that has a number.
    pub fn name(&self, number: usize) -> Option<&'m [u8]>
        ensures { option_map (λ name. name.now) result ≡ slice_get self.now number }
    {
        let name = self.names.get_index(number)?;
        Some(name.text)
    }

    /// The names in the order of their numbers.
    pub fn as_slice(&self) -> &[Name<'m>]
        ensures { map (λ name. name.text.now) result.now ≡ self.now }
    {
        self.names.as_slice()
    }
}
