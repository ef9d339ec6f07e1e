//! What permission sets give.

ghost use Rattle.std.specs.Prelude.{◌≡◌, length};
ghost use Rattle.std.proofs.Props.{props};
ghost use Rattle.std.specs.List.Sorted.{IsStrictlySortedBy};
ghost use Rattle.std.specs.Ordering.{nat_cmp};
ghost use Rattle.std.specs.Rc.{rc_value};

use crate::set_permissions::SetPermissions;
use std::alloc::{Allocator, Global};

/// What permission sets give, in the order of their numbers. A set that isn't among them has no statement, and gives nothing.
#[derive(Drop)]
pub struct GivenSets<A: Allocator = Global> {
    pub(crate) numbers: Vec<usize, A>,
    pub(crate) sets: Vec<SetPermissions<A>, A>,
    pub(crate) none: SetPermissions<A>,
    pub(crate) ghost rising: { IsStrictlySortedBy nat_cmp numbers.items } by { Prim.hlevel props },
    pub(crate) ghost long: { length sets.items ≡ length numbers.items },
    pub(crate) ghost nothing: { length (rc_value none.given).items ≡ 0 },
}
