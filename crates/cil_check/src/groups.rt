//! Lists of numbers by number.

ghost use Rattle.std.specs.Prelude.{◌≡◌, ◌==◌, ◌++◌, ◌∷◌, [], ℕ, length, slice_get, OnOk, if◌then◌else◌};
ghost use Rattle.cil_check.specs.Groups.{list_at};

use indexmap::IndexSet;
use std::alloc::{AllocError, Allocator, Global};
use std::hash::{BuildHasherDefault, FoldHasher};
use std::marker::Model;

/// For some numbers, their keys, a list of numbers each.
#[derive(Drop)]
pub struct Groups<A: Allocator = Global> {
    pub keys: IndexSet<u32, BuildHasherDefault<FoldHasher>, A>,
    pub lists: Vec<Vec<u32, A>, A>,
}

impl<A: Allocator> Model for Groups<A> {
    ghost use Rattle.std.specs.Prelude.{ℕ, List, map};

    ghost Value = { List ℕ × List (List ℕ) };

    ghost view = { λ g. (g.keys.keys, map (λ v. v.items) g.lists.items) };
}

impl<A: Allocator + Copy> Groups<A> {
    /// No list.
    pub fn new(alloc: A) -> Self
        ensures { result ≡ ([], []) }
    {
        Groups {
            keys: IndexSet::new(alloc),
            lists: Vec::new(alloc),
        }
    }

    /// Puts a number last in the list of a key.
    pub fn insert(&mut self, alloc: A, key: u32, number: u32) -> Result<(), AllocError>
        requires { length self.old.0 ≡ length self.old.1 }
        ensures same { OnOk result (length self.new.0 ≡ length self.new.1) }
        ensures listed { OnOk result ((k : ℕ) → list_at self.new k ≡ (if k == key then list_at self.old k ++ number ∷ [] else list_at self.old k)) }
    {
        if let Some(at) = self.keys.get_index_of(&key) {
            self.lists[at].push(number)?;
            return Ok(());
        }
        let mut list = Vec::new(alloc);
        list.push(number)?;
        self.lists.push(list)?;
        self.keys.insert(key)?;
        Ok(())
    }
}

impl<A: Allocator> Groups<A> {
    /// The list of a key.
    pub fn get(&self, key: u32) -> &[u32]
        ensures { result.now ≡ list_at self.now key }
    {
        let Some(at) = self.keys.get_index_of(&key) else {
            return &[];
        };
        match self.lists.get(at) {
            Some(list) => list.as_slice(),
            None => &[],
        }
    }

    /// The number at an index of the list of a key.
    pub fn item(&self, key: u32, at: usize) -> Option<u32>
        ensures { result ≡ slice_get (list_at self.now key) at }
    {
        self.get(key).get(at).copied()
    }
}
