//! Accesses in order.

ghost use Rattle.std.specs.Prelude.{◌≡◌, ◌<◌, ◌^◌, ◌↔◌, [], Contains, length, slice_get};
ghost use Rattle.cil_accesses.specs.Common.{All, numbers_cmp, IsGiven};
ghost use Rattle.std.specs.List.Sorted.{IsStrictlySortedBy};

use crate::access::AccessNumbers;
use crate::chunk::Chunk;
use crate::merge::merge;
use crate::place::access_in;
use crate::rows::Rows;
use std::alloc::{Allocator, Global};
use std::marker::Model;

/// Accesses, each once, by kind, source, target, class and permission. Contracts see them as their list.
#[derive(Drop)]
pub struct Accesses<A: Allocator = Global> {
    pub(super) chunks: Vec<Chunk, A>,
}

impl<A: Allocator> Model for Accesses<A> {
    ghost use Rattle.std.specs.Prelude.{List};
    ghost use Rattle.cil_accesses.specs.declared.access.AccessNumbers.{AccessNumbers};

    ghost Value = { List AccessNumbers };

    ghost use Rattle.cil_accesses.specs.View.{accesses_of, AreChunks};

    ghost view = { λ s. accesses_of s.chunks.items };

    ghost invariant = { λ s. AreChunks s.chunks.items };
}

impl<A: Allocator> Accesses<A> {
    /// No access. It takes no memory.
    pub fn empty(alloc: A) -> Self
        ensures { result ≡ [] }
    {
        Accesses {
            chunks: Vec::new(alloc),
        }
    }

    /// The accesses of chunks.
    pub fn of(chunks: Vec<Chunk, A>) -> Self
        requires words { All (λ c. c.word < 2 ^ 26) chunks.items }
        ensures ordered { IsStrictlySortedBy numbers_cmp result }
        ensures same { (a : _) → Contains result a ↔ IsGiven chunks.items a }
    {
        let mut chunks = chunks;
        chunks.sort_unstable();
        merge(&mut chunks);
        Accesses { chunks }
    }

    /// How many accesses there are.
    pub fn len(&self) -> u128
        ensures count { result ≡ length self.now }
        ensures ordered { IsStrictlySortedBy numbers_cmp self.now }
    {
        let mut count: u128 = 0;
        for chunk in &self.chunks {
            count += u128::from(chunk.len());
        }
        count
    }

    /// The access at a place of the order.
    pub fn get(&self, i: usize) -> Option<AccessNumbers>
        ensures { result ≡ slice_get self.now i }
    {
        access_in(&self.chunks, i)
    }

    /// The rows in order, of which each is all permissions of one kind, source, target and class.
    pub fn rows(&self) -> Rows<'_>
        ensures { result ≡ self.now }
    {
        Rows::of(&self.chunks)
    }
}
