//! The lists of permissions that statements name, and those that classes are known to have.

ghost use Rattle.std.specs.Prelude.{◌≡◌, ℕ, Bool, true, false, None, Some, slice_index_or, OnOk};
ghost use Rattle.cil_bind.specs.Common.{Placed, texts, permissions_in, IsFrom};
ghost use Rattle.cil_bind.specs.KnownLists.{texts_listed, is_number, is_known, AreKnown};

use crate::joined::Joined;
use crate::rows::Row;
use std::alloc::{AllocError, Allocator, Global};

/// The permissions that a statement names: the number of its module, the number of the list there, and how many lists the module has.
#[derive(Clone, Copy)]
pub struct PermissionList {
    pub module: u32,
    pub list: usize,
    pub count: usize,
}

impl PermissionList {
    /// Those of the statement of a row.
    pub fn of<A: Allocator>(joined: &Joined<'_, A>, row: &Row) -> Self
        requires { (s : Placed) × IsFrom joined.now.modules.items row.now s }
        ensures { (s : Placed) → IsFrom joined.now.modules.items row.now s → texts_listed joined.now.modules.items result.«module» result.list ≡ texts (permissions_in s.form) }
    {
        let module = joined.modules[row.module as usize].module;
        PermissionList {
            module: row.module,
            list: module.permission_list(row.index as usize),
            count: module.permission_list_count(),
        }
    }
}

/// For each list of permissions of one module the class that was last found to have all of them, by its place. Most lists are asked of
/// one class again and again.
#[derive(Drop)]
pub struct KnownLists<A: Allocator = Global> {
    pub module: Option<u32>,
    pub last: Vec<Option<u32>, A>,
}

/// Whether this is the number that was found.
fn is(found: Option<u32>, number: u32) -> bool
    ensures { result ≡ is_number found number }
{
    match found {
        Some(found) => found == number,
        None => false,
    }
}

impl<A: Allocator + Copy> KnownLists<A> {
    /// Nothing, of no module. It takes no memory.
    pub fn new(alloc: A) -> Self
        ensures { (number list class_place : ℕ) → is_known result number list class_place ≡ false }
    {
        KnownLists {
            module: None,
            last: Vec::new(alloc),
        }
    }

    /// The class that is noted at a number.
    fn noted(&self, list: usize) -> Option<u32>
        ensures { result ≡ slice_index_or self.now.last.items list None }
    {
        match self.last.get(list) {
            Some(found) => *found,
            None => None,
        }
    }

    /// Whether the class is known to have the list.
    pub fn knows(&self, list: PermissionList, class: u32) -> bool
        ensures { result ≡ is_known self.now list.«module» list.list class }
    {
        is(self.module, list.module) && is(self.noted(list.list), class)
    }

    /// Turns to the module of a list, and forgets the lists of another.
    fn turn_to(&mut self, alloc: A, list: PermissionList) -> Result<(), AllocError>
        ensures turned { OnOk result (self.new.«module» ≡ Some list.«module») }
        ensures known { (holds : ℕ → ℕ → ℕ → Bool) → AreKnown holds self.old → AreKnown holds self.new }
    {
        if self.module != Some(list.module) {
            self.last = vec![in alloc; None; list.count]?;
            self.module = Some(list.module);
        }
        Ok(())
    }

    /// Puts a class that has a list in the place of the one that was known before. Where memory runs out, it isn't known.
    pub fn note(&mut self, alloc: A, list: PermissionList, class: u32) -> Result<(), AllocError>
        ensures { (holds : ℕ → ℕ → ℕ → Bool) → holds list.«module» list.list class ≡ true → AreKnown holds self.old → AreKnown holds self.new }
    {
        self.turn_to(alloc, list)?;
        if let Some(last) = self.last.get_mut(list.list) {
            *last = Some(class);
        }
        Ok(())
    }
}
