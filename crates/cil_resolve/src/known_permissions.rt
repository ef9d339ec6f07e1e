//! The numbers of permissions that are known, while statements are lowered.

ghost use Rattle.std.specs.Prelude.{◌≡◌, ℕ, List, Some, None, slice_get, IfOk};
ghost use Rattle.cil_resolve.specs.Common.{known_at};

use crate::permission_numbers::PermissionNumbers;
use cil_parse::Lists;
use std::alloc::{AllocError, Allocator, Global};
use std::rc::Rc;

/// A list of permissions: the place of its module, and its number there.
#[derive(Clone, Copy, PartialEq, Eq)]
pub struct ListPlace {
    pub module: usize,
    pub list: usize,
}

/// The numbers of the permissions of all lists of one module, if those of any are known.
#[derive(Drop)]
pub struct KnownPermissions<A: Allocator = Global> {
    module: usize,
    lists: Option<Rc<Lists<usize, A>, A>>,
}

impl<A: Allocator + Copy> KnownPermissions<A> {
    /// None is known.
    pub fn new() -> Self
        ensures { (m n : ℕ) → known_at result m n ≡ None }
    {
        KnownPermissions {
            module: 0,
            lists: None,
        }
    }

    /// Those of the lists of a module.
    pub fn of(alloc: A, module: usize, lists: Lists<usize, A>) -> Result<Self, AllocError>
        ensures here { IfOk result (λ known. (n : ℕ) → known_at known «module» n ≡ slice_get lists.0 n) }
        ensures others { IfOk result (λ known. (m n : ℕ) (some : List ℕ) → known_at known m n ≡ Some some → m ≡ «module») }
    {
        Ok(KnownPermissions {
            module,
            lists: Some(Rc::new(alloc, lists)?),
        })
    }
}

impl<A: Allocator> KnownPermissions<A> {
    /// The numbers of a list, if they are known.
    #[inline(always)]
    pub fn get(&self, at: ListPlace) -> Result<Option<PermissionNumbers<A>>, AllocError>
        ensures { IfOk result (λ found. found ≡ known_at self.now at.«module» at.list) }
    {
        if self.module != at.module {
            return Ok(None);
        }
        let Some(lists) = &self.lists else {
            return Ok(None);
        };
        if at.list >= lists.len() {
            return Ok(None);
        }
        Ok(Some(PermissionNumbers::of_list(lists, at.list)?))
    }
}
