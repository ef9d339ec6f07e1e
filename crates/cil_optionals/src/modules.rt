//! The modules of statements.

ghost use Rattle.std.specs.Prelude.{◌≡◌, ◌<◌, List, Some, length, slice_get};
ghost use Rattle.cil_optionals.specs.Common.{Placed, IsOf, IsReady};

use cil_bind::{Joined, Policy};
use cil_parse::ParsedModule;
use std::alloc::Allocator;

/// The module of the statement at a place.
pub fn module_of<'m, A: Allocator>(
    joined: &Joined<'m, A>,
    policy: &Policy<'m, A>,
    i: usize,
) -> &'m ParsedModule<A>
    requires ready { (all : List Placed) × IsReady policy.now joined.now.modules.items all }
    requires within { i < length policy.now.rows.items }
    ensures { (all : List Placed) (s : Placed) → IsReady policy.now joined.now.modules.items all
        → slice_get all i ≡ Some s → IsOf policy.now result.now i s }
{
    let row = policy.rows[i];
    joined.modules[row.module as usize].module
}
