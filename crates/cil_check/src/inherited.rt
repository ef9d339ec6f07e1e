//! The commons that statements give to classes.

ghost use Rattle.std.specs.Prelude.{◌≡◌, ◌+◌, ℕ, List, Some, length, slice_get, take, OnOk};
ghost use Rattle.cil_check.specs.Common.{Placed, IsSeen};
ghost use Rattle.cil_check.specs.Inherited.{HasInheritedOf};

use crate::bound::Seen;
use crate::firsts::Association;
use crate::groups::Groups;
use std::alloc::{AllocError, Allocator};

/// Takes up, for a class by the place of its statement, the place of the common that a statement
/// gives it, if it gives one.
pub fn add_common<A: Allocator + Copy>(
    inherited: &mut Groups<A>,
    alloc: A,
    seen: &Seen<'_, '_, A>,
) -> Result<(), AllocError>
    requires { length inherited.old.0 ≡ length inherited.old.1 }
    ensures same { OnOk result (length inherited.new.0 ≡ length inherited.new.1) }
    ensures noted { OnOk result ((policy : List Placed) (s : Placed) (place : ℕ)
        → IsSeen seen.now policy s → slice_get policy place ≡ Some s
        → HasInheritedOf policy (take place policy) inherited.old
        → HasInheritedOf policy (take (place + 1) policy) inherited.new) }
{
    let Some(class) = Association::Common.lead(seen) else {
        return Ok(());
    };
    let Some(common) = seen.lead(1) else {
        return Ok(());
    };
    inherited.insert(alloc, class, common)?;
    Ok(())
}
