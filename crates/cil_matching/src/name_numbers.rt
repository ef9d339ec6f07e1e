//! The numbers of one policy's names in another one.

ghost use Rattle.std.specs.Prelude.{◌≡◌, ◌<◌, length, IfOk, IfErr};
ghost use Rattle.cil_specs.specs.Report.{name_cmp};
ghost use Rattle.cil_matching.specs.Common.{AreNumbers, AreBefore, IsFoundAt, IsMissedAt};

use cil_resolve::Resolved;
use std::alloc::{AllocError, Allocator};
use std::cmp::Ordering;

/// Where the new policy has the name of a number, or how many of its names stand before it, as a binary search tells it. It looks from a
/// number on.
fn find_name<A: Allocator>(
    old: &Resolved<A>,
    i: usize,
    new: &Resolved<A>,
    from: usize,
) -> Result<usize, usize>
    requires within { i < length old.now.names.items }
    requires before { AreBefore name_cmp old.now.names.items new.now.names.items i from }
    ensures ok { IfOk result (λ j. IsFoundAt name_cmp old.now.names.items new.now.names.items i j) }
    ensures err { IfErr result (λ j. IsMissedAt name_cmp old.now.names.items new.now.names.items i j) }
{
    let wanted = old.name(i);
    for j in from..new.names_len() {
        match new.name(j).cmp(wanted) {
            Ordering::Less => {}
            Ordering::Equal => return Ok(j),
            Ordering::Greater => return Err(j),
        }
    }
    Err(new.names_len())
}

/// For each name of the old policy its number in the new one, if that has the name. The names of both ascend, so it goes along them once.
pub fn name_numbers<A: Allocator + Copy>(
    alloc: A,
    old: &Resolved<A>,
    new: &Resolved<A>,
) -> Result<Vec<Option<usize>, A>, AllocError>
    ensures { IfOk result (λ numbers. AreNumbers old.now.names.items new.now.names.items numbers.items) }
{
    let mut numbers = Vec::with_capacity(alloc, old.names_len())?;
    let mut from = 0;
    for i in 0..old.names_len() {
        match find_name(old, i, new, from) {
            Ok(j) => {
                numbers.push(Some(j))?;
                from = j + 1;
            }
            Err(j) => {
                numbers.push(None)?;
                from = j;
            }
        }
    }
    Ok(numbers)
}
