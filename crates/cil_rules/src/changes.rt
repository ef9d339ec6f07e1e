//! The changes between two access tables.

ghost use Rattle.std.specs.Prelude.{◌≡◌, length, slice_get, option_map};
ghost use Rattle.cil_rules.specs.Common.{atom_of};

use crate::atom::Atom;
use crate::table::Table;
use std::alloc::{Allocator, Global};
use std::marker::Model;

/// What is in a new table and not in an old one, and what is in the old and not in the new, each in order. Contracts see both
/// lists.
#[derive(Drop)]
pub struct Changes<A: Allocator = Global> {
    added: Table<A>,
    removed: Table<A>,
}

impl<A: Allocator> Model for Changes<A> {
    ghost use Rattle.cil_specs.specs.Report.{Changes};

    ghost Value = { Changes };

    ghost view = { λ c. record { added = c.added; removed = c.removed } };
}

impl<A: Allocator> Changes<A> {
    /// The changes that are these accesses. Each table shares the policy whose names they have.
    pub fn of(added: Table<A>, removed: Table<A>) -> Self
        ensures { result ≡ record { added = added; removed = removed } }
    {
        Changes { added, removed }
    }

    /// How many accesses came.
    pub fn added_len(&self) -> u128
        ensures { result ≡ length self.now.added }
    {
        self.added.len()
    }

    /// How many accesses went.
    pub fn removed_len(&self) -> u128
        ensures { result ≡ length self.now.removed }
    {
        self.removed.len()
    }

    /// The added access at a place of their order.
    pub fn added(&self, i: usize) -> Option<Atom<'_>>
        ensures { option_map atom_of result ≡ slice_get self.now.added i }
    {
        self.added.get(i)
    }

    /// The removed access at a place of their order.
    pub fn removed(&self, i: usize) -> Option<Atom<'_>>
        ensures { option_map atom_of result ≡ slice_get self.now.removed i }
    {
        self.removed.get(i)
    }
}
