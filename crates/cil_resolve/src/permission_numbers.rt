//! Numbers of permissions that statements share.

ghost use Rattle.std.specs.Prelude.{◌≡◌, ◌<◌, ◌∷◌, [], length, slice_index_or, IfOk};
ghost use Rattle.std.specs.Rc.{rc_value};

use cil_names::in_32_bits;
use cil_parse::Lists;
use std::alloc::{AllocError, Allocator, Global};
use std::marker::Model;
use std::rc::Rc;

/// The numbers of the permissions that a rule or a statement of a permission set gives of its class: one of several lists, which all
/// lists of permissions of a module own together.
/// Contracts see it as the numbers.
#[derive(Drop)]
pub struct PermissionNumbers<A: Allocator = Global> {
    lists: Rc<Lists<usize, A>, A>,
    list: u32,
}

impl<A: Allocator> Model for PermissionNumbers<A> {
    ghost use Rattle.std.specs.Prelude.{◌<◌, ℕ, List, [], length, slice_index_or};
    ghost use Rattle.std.specs.Rc.{rc_value};

    ghost Value = { List ℕ };

    ghost view = { λ s. slice_index_or (rc_value s.lists).0 s.list [] };

    ghost invariant = { λ s. s.list < length (rc_value s.lists).0 };
}

impl<A: Allocator + Copy> PermissionNumbers<A> {
    /// Numbers that no rule shares.
    pub fn new(alloc: A, numbers: &[usize]) -> Result<Self, AllocError>
        ensures { IfOk result (λ s. s ≡ numbers.now) }
    {
        let mut lists = Lists::with_capacity(alloc, 1, numbers.len())?;
        lists.extend(numbers)?;
        lists.close()?;
        Ok(PermissionNumbers {
            lists: Rc::new(alloc, lists)?,
            list: 0,
        })
    }
}

impl<A: Allocator> PermissionNumbers<A> {
    /// Those of a list of several. Out of memory stands where no more owners can be counted, and for a list whose number needs more
    /// than 32 bits.
    #[inline(always)]
    pub fn of_list(lists: &Rc<Lists<usize, A>, A>, list: usize) -> Result<Self, AllocError>
        requires { list < length (rc_value lists.now).0 }
        ensures { IfOk result (λ s. s ≡ slice_index_or (rc_value lists.now).0 list []) }
    {
        Ok(PermissionNumbers {
            lists: lists.clone()?,
            list: in_32_bits(list)?,
        })
    }

    /// The numbers: of a plain list in the order of the text, and of another expression in that of the class.
    pub fn as_slice(&self) -> &[usize]
        ensures { result.now ≡ self.now }
    {
        self.lists.get(self.list as usize)
    }
}
