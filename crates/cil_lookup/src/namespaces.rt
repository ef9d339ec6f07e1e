//! Namespaces by numbers.

ghost use Rattle.std.specs.Prelude.{◌≡◌, ◌<◌, ◌++◌, ◌∷◌, ◌⊎◌, [], length, slice_index_or, bytes_eq, Contains, IfOk, OnErr, IfSome, IfNone, List, ℕ};
ghost use Rattle.std.specs.List.{IsDistinct};
ghost use Rattle.cil_lookup.specs.Namespaces.{Opens};

use indexmap::IndexSet;
use std::alloc::{AllocError, Allocator, Global};
use std::hash::{BuildHasherDefault, FoldHasher};
use std::marker::Model;

/// A block: the number of the namespace that it stands in, and that of its word.
#[derive(Clone, Copy, PartialEq, Eq, Hash)]
pub struct Block {
    pub outer: u32,
    pub word: u32,
}

/// The global namespace, which has the number 0, and that of each block. Contracts see it as the list of the namespaces, each
/// once, as the numbers of the words of the blocks around, the innermost first.
#[derive(Drop)]
pub struct Namespaces<A: Allocator = Global> {
    blocks: IndexSet<Block, BuildHasherDefault<FoldHasher>, A>,
}

impl<A: Allocator> Model for Namespaces<A> {
    ghost use Rattle.std.specs.Prelude.{List, ℕ};
    ghost use Rattle.cil_lookup.specs.Namespaces.{spaces_of, AreSpaces};

    ghost Value = { List (List ℕ) };

    ghost view = { λ s. spaces_of s.blocks.keys };

    ghost invariant = { λ s. AreSpaces s.blocks.keys };
}

impl<A: Allocator + Copy> Namespaces<A> {
    /// The global namespace alone. It takes no memory.
    pub fn new(alloc: A) -> Self
        ensures { result ≡ [] ∷ [] }
    {
        Namespaces {
            blocks: IndexSet::new(alloc),
        }
    }

    /// The namespace of a block, which is new or known. More than 4294967295 are answered as out of memory.
    pub fn open(&mut self, outer: u32, word: u32) -> Result<u32, AllocError>
        requires { outer < length self.old }
        ensures within { IfOk result (λ n. n < length self.new) }
        ensures opened { IfOk result (λ n. slice_index_or self.new n [] ≡ word ∷ slice_index_or self.old outer []) }
        ensures kept { (more : List (List ℕ)) × (self.new ≡ self.old ++ more) }
        ensures exact { (space : List ℕ) → Contains self.new space → Contains self.old space ⊎ (space ≡ word ∷ slice_index_or self.old outer []) }
        ensures distinct { IsDistinct bytes_eq self.old → IsDistinct bytes_eq self.new }
        ensures err { OnErr result (self.new ≡ self.old) }
    {
        if self.blocks.len() > 0xFFFF_FFFD {
            return Err(AllocError);
        }
        let (index, _new) = self.blocks.insert_full(Block { outer, word })?;
        prove!(index < self.blocks.len());
        Ok(index as u32 + 1)
    }
}

impl<A: Allocator + Copy> Namespaces<A> {
    /// The namespace inside a block of this word, which is new or known; the global one if there is no word.
    pub fn inside(&mut self, namespace: u32, word: Option<u32>) -> Result<u32, AllocError>
        requires { namespace < length self.old }
        ensures { IfOk result (Opens self.old self.new namespace word) }
    {
        match word {
            Some(word) => {
                let opened = self.open(namespace, word)?;
                Ok(opened)
            }
            None => Ok(0),
        }
    }
}

impl<A: Allocator> Namespaces<A> {
    /// How many namespaces there are, the global one included.
    pub fn len(&self) -> usize
        ensures len { result ≡ length self.now }
        ensures some { 0 < result }
    {
        self.blocks.len() + 1
    }

    /// The namespace around one; none around the global one.
    pub fn outer(&self, n: u32) -> Option<u32>
        requires { n < length self.now }
        ensures some { IfSome result (λ m. (word : ℕ) × (slice_index_or self.now n [] ≡ word ∷ slice_index_or self.now m [])) }
        ensures within { IfSome result (λ m. m < n) }
        ensures none { IfNone result (slice_index_or self.now n [] ≡ []) }
    {
        Some(self.opened_by(n)?.outer)
    }

    /// The block that opens a namespace; none opens the global one.
    pub fn opened_by(&self, n: u32) -> Option<Block>
        requires { n < length self.now }
        ensures some { IfSome result (λ b. slice_index_or self.now n [] ≡ b.word ∷ slice_index_or self.now b.outer []) }
        ensures within { IfSome result (λ b. b.outer < n) }
        ensures none { IfNone result (slice_index_or self.now n [] ≡ []) }
    {
        let blocks = self.blocks.as_slice();
        if n == 0 {
            return None;
        }
        Some(blocks[n as usize - 1])
    }

    /// The namespace of a block in another one, if there is such a block.
    pub fn block(&self, outer: u32, word: u32) -> Option<u32>
        requires { outer < length self.now }
        ensures some { IfSome result (λ m. slice_index_or self.now m [] ≡ word ∷ slice_index_or self.now outer []) }
        ensures within { IfSome result (λ m. m < length self.now) }
        ensures none { IfNone result (Contains self.now (word ∷ slice_index_or self.now outer []) → ⊥) }
    {
        let index = self.blocks.get_index_of(&Block { outer, word })?;
        prove!(index < self.blocks.len());
        Some(index as u32 + 1)
    }
}
