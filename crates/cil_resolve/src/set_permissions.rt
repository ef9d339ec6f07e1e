//! The permissions that permission sets give.

ghost use Rattle.std.specs.Prelude.{◌≡◌, IfOk};
ghost use Rattle.std.proofs.Props.{props};
ghost use Rattle.std.specs.Rc.{rc_value};
ghost use Rattle.cil_resolve.specs.SetPermissions.{AreInOrder, IsOrdered};

use std::alloc::{AllocError, Allocator, Global};
use std::rc::Rc;

/// A permission of a class, by the numbers of their names. They are ordered by class, and then by permission.
#[derive(Clone, Copy, Debug, PartialEq, Eq, PartialOrd, Ord)]
pub struct ClassPermission {
    pub class: usize,
    pub permission: usize,
}

/// The permissions of a permission set: the number of its full name, and what its statements give, each once and in order. Rules of one
/// set share one list of them.
#[derive(Drop)]
pub struct SetPermissions<A: Allocator = Global> {
    pub set: usize,
    pub(crate) given: Rc<Vec<ClassPermission, A>, A>,
    pub(crate) ghost ordered: { AreInOrder (rc_value given).items } by { Prim.hlevel props },
}

/// Puts permissions in order, each once. It takes no memory.
fn put_in_order<A: Allocator>(permissions: &mut Vec<ClassPermission, A>)
    ensures { IsOrdered permissions.old.items permissions.new.items }
{
    permissions.sort_unstable();
    permissions.dedup();
}

impl<A: Allocator + Copy> SetPermissions<A> {
    /// What a set of this number gives: these permissions, which no rule shares yet. What is kept has no room for repeats.
    pub(crate) fn of(
        alloc: A,
        set: usize,
        permissions: &[ClassPermission],
    ) -> Result<Self, AllocError>
        ensures set { IfOk result (λ s. s.set ≡ set) }
        ensures given { IfOk result (λ s. IsOrdered permissions.now (rc_value s.given).items) }
    {
        let mut ordered = Vec::from_slice(alloc, permissions)?;
        put_in_order(&mut ordered);
        let given = Vec::from_slice(alloc, &ordered)?;
        Ok(SetPermissions {
            set,
            given: Rc::new(alloc, given)?,
        })
    }
}

impl<A: Allocator> SetPermissions<A> {
    /// The same permissions, for a set of another number. Out of memory stands where no more owners can be counted.
    pub(crate) fn share(&self, set: usize) -> Result<Self, AllocError>
        ensures set { IfOk result (λ s. s.set ≡ set) }
        ensures given { IfOk result (λ s. rc_value s.given ≡ rc_value self.now.given) }
    {
        Ok(SetPermissions {
            set,
            given: self.given.clone()?,
        })
    }

    /// The permissions, by class and then by permission, each once.
    pub fn as_slice(&self) -> &[ClassPermission]
        ensures same { result.now ≡ (rc_value self.now.given).items }
        ensures ordered { AreInOrder result.now }
    {
        self.given.as_slice()
    }
}
