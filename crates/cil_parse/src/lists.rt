//! Lists of items, one behind the other.

ghost use Rattle.std.specs.Prelude.{◌≡◌, ◌<◌, ◌≤◌, ◌-◌, ◌++◌, ◌∷◌, [], length, take, drop, slice_index_or, OnOk, OnErr, IfOk};
ghost use Rattle.cil_parse.specs.Lists.{start_of};

use cil_names::in_32_bits;
use std::alloc::{AllocError, Allocator, Global};
use std::marker::Model;

/// Lists of items in one vector, and behind them one list that is still open. Contracts see it as the closed lists and the open one.
/// Where each list ends is a number of 32 bits, since the ends of all words of a policy are gone over at each edit.
#[derive(Drop)]
pub struct Lists<T: Copy, A: Allocator = Global> {
    items: Vec<T, A>,
    ends: Vec<u32, A>,
}

impl<T: Copy, A: Allocator> Model for Lists<T, A> {
    ghost use Rattle.std.specs.Prelude.{List, length};
    ghost use Rattle.cil_parse.specs.Lists.{cut, behind, Rises};

    ghost Value = { List (List T) × List T };

    ghost view = { λ s. (cut 0 s.ends.items s.items.items, behind 0 s.ends.items s.items.items) };

    ghost invariant = { λ s. Rises 0 s.ends.items (length s.items.items) };
}

impl<T: Copy, A: Allocator + Copy> Lists<T, A> {
    /// No list. It takes no memory.
    pub fn new(alloc: A) -> Self
        ensures { result ≡ ([], []) }
    {
        Lists {
            items: Vec::new(alloc),
            ends: Vec::new(alloc),
        }
    }

    /// No list, with room for so many lists and items.
    pub fn with_capacity(alloc: A, lists: usize, items: usize) -> Result<Self, AllocError>
        ensures { IfOk result (λ s. s ≡ ([], [])) }
    {
        Ok(Lists {
            items: Vec::with_capacity(alloc, items)?,
            ends: Vec::with_capacity(alloc, lists)?,
        })
    }

    /// Puts an item at the end of the open list.
    pub fn push(&mut self, item: T) -> Result<(), AllocError>
        ensures ok { OnOk result (self.new ≡ (self.old.0, self.old.1 ++ item ∷ [])) }
        ensures err { OnErr result (self.new ≡ self.old) }
    {
        self.items.push(item)?;
        Ok(())
    }

    /// Puts items at the end of the open list.
    pub fn extend(&mut self, items: &[T]) -> Result<(), AllocError>
        ensures ok { OnOk result (self.new ≡ (self.old.0, self.old.1 ++ items.now)) }
        ensures err { OnErr result (self.new ≡ self.old) }
    {
        self.items.extend_from_slice(items)?;
        Ok(())
    }

    /// Closes the open list. Lists of 2^32 items or more are answered as out of memory.
    pub fn close(&mut self) -> Result<(), AllocError>
        ensures ok { OnOk result (self.new ≡ (self.old.0 ++ self.old.1 ∷ [], [])) }
        ensures err { OnErr result (self.new ≡ self.old) }
    {
        self.ends.push(in_32_bits(self.items.len())?)?;
        Ok(())
    }

    /// Gives back the memory that they don't need, as far as the allocator takes it.
    pub fn shrink_to_fit(&mut self)
        ensures { self.new ≡ self.old }
    {
        self.items.shrink_to_fit();
        self.ends.shrink_to_fit();
    }
}

impl<T: Copy, A: Allocator> Lists<T, A> {
    /// How many lists are closed.
    pub fn len(&self) -> usize
        ensures { result ≡ length self.now.0 }
    {
        self.ends.len()
    }

    /// The closed list of a number.
    pub fn get(&self, n: usize) -> &[T]
        requires { n < length self.now.0 }
        ensures { result.now ≡ slice_index_or self.now.0 n [] }
    {
        let ends = self.ends.as_slice();
        let start = start_at(ends, n);
        let end = ends[n] as usize;
        part(self.items.as_slice(), start, end)
    }
}

/// Where the list of a number starts, by the ends of the lists.
fn start_at(ends: &[u32], n: usize) -> usize
    requires { n < length ends.now }
    ensures { result ≡ start_of 0 ends.now n }
{
    if n == 0 {
        return 0;
    }
    ends[n - 1] as usize
}

/// The items from one offset up to another.
fn part<T: Copy>(items: &[T], start: usize, end: usize) -> &[T]
    requires low { start ≤ end }
    requires high { end ≤ length items.now }
    ensures { result.now ≡ take (end - start) (drop start items.now) }
{
    &items[start..end]
}
