//! The names of a policy in their order.

ghost use Rattle.std.specs.Prelude.{◌≡◌, IsTrue, Some, IfOk};
ghost use Rattle.std.specs.List.{flat_map};
ghost use Rattle.cil_resolve.specs.Common.{has_name, number_in};

use crate::text::{Text, next_text};
use cil_names::{Names, in_32_bits};
use cil_shared::SharedPart;
use std::alloc::{AllocError, Allocator};

/// The number of a name: its place. One that needs more than 32 bits is answered as out of memory.
pub fn number_of<A: Allocator>(names: &Names<'_, A>, name: &[u8]) -> Result<u32, AllocError>
    requires { IsTrue (has_name names.now name.now) }
    ensures { IfOk result (λ n. number_in names.now name.now ≡ Some n) }
{
    in_32_bits(names.find(name).unwrap())
}

/// The bytes of names, one behind the other.
fn bytes_of<A: Allocator + Copy>(alloc: A, names: &Names<'_, A>) -> Result<Vec<u8, A>, AllocError>
    ensures { IfOk result (λ bytes. bytes.items ≡ flat_map (λ name. name) names.now) }
{
    let mut bytes = Vec::new(alloc);
    for name in names.as_slice() {
        bytes.extend_from_slice(name.text)?;
    }
    Ok(bytes)
}

/// Copies of names, in their order, which own their bytes together. Names of 2^32 bytes or more are answered as out of memory.
pub fn to_texts<A: Allocator + Copy>(
    alloc: A,
    names: &Names<'_, A>,
) -> Result<Vec<Text<A>, A>, AllocError>
    ensures { IfOk result (λ copies. copies.items ≡ names.now) }
{
    let mut rest = SharedPart::of(alloc, bytes_of(alloc, names)?)?;
    let mut copies = Vec::with_capacity(alloc, names.len())?;
    for name in names.as_slice() {
        copies.push(next_text(&mut rest, name.text.len())?)?;
    }
    Ok(copies)
}
