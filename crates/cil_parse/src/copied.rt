//! Copies of lists.

ghost use Rattle.std.specs.Prelude.{◌≡◌, [], map, IfOk};
ghost use Rattle.cil_parse.specs.Common.{seen};

use crate::lists::Lists;
use cil_names::Name;
use std::alloc::{AllocError, Allocator};

/// How many items lists have together.
fn item_count<T: Copy>(lists: &[&[T]]) -> usize {
    let mut items: usize = 0;
    for list in lists {
        items = items.saturating_add(list.len());
    }
    items
}

/// How many bytes names have together.
fn byte_count(names: &[Name<'_>]) -> usize {
    let mut bytes: usize = 0;
    for name in names {
        bytes = bytes.saturating_add(name.text.len());
    }
    bytes
}

/// Copies of names, one behind the other.
pub fn copied_names<A: Allocator + Copy>(
    alloc: A,
    names: &[Name<'_>],
) -> Result<Lists<u8, A>, AllocError>
    ensures { IfOk result (λ copied. copied ≡ (map (λ name. name.text.now) names.now, [])) }
{
    let mut copied = Lists::with_capacity(alloc, names.len(), byte_count(names))?;
    for name in names {
        copied.extend(name.text)?;
        copied.close()?;
    }
    Ok(copied)
}

/// Copies of lists, one behind the other.
pub fn copies<T: Copy, A: Allocator + Copy>(
    alloc: A,
    lists: &[&[T]],
) -> Result<Lists<T, A>, AllocError>
    ensures { IfOk result (λ copied. copied ≡ (seen lists.now, [])) }
{
    let mut copied = Lists::with_capacity(alloc, lists.len(), item_count(lists))?;
    for list in lists {
        copied.extend(*list)?;
        copied.close()?;
    }
    Ok(copied)
}
