//! Numbers of 32 bits.

ghost use Rattle.std.specs.Prelude.{◌≡◌, ◌<◌, ◌≤◌, ◌^◌, IfOk, OnErr, OnOk};

use std::alloc::AllocError;

/// A number in 32 bits. One that needs more, and no other, is answered as out of memory.
pub fn in_32_bits(n: usize) -> Result<u32, AllocError>
    ensures same { IfOk result (λ k. k ≡ n) }
    ensures beyond { OnErr result (2 ^ 32 ≤ n) }
{
    match u32::try_from(n) {
        Ok(k) => Ok(k),
        Err(_) => Err(AllocError),
    }
}

/// Whether so many things can be counted in 32 bits. 2^32 and more, and no others, are answered as out of memory.
pub fn counted_in_32_bits(n: usize) -> Result<(), AllocError>
    ensures few { OnOk result (n < 2 ^ 32) }
    ensures beyond { OnErr result (2 ^ 32 ≤ n) }
{
    in_32_bits(n)?;
    Ok(())
}
