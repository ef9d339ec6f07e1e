//! By how much the targets of a chunk move where numbers change.

ghost use Rattle.std.specs.Prelude.{◌≡◌, ◌<◌, ◌+◌, ◌*◌, ◌^◌, ◌↔◌, true, length, slice_index, IfSome};
ghost use Rattle.cil_accesses.specs.Common.{bit_at, IsAccessOf, IsMoved, IsWithin, MovesUp, has_bit};

use crate::chunk::Chunk;

/// The bits of a word so many places higher: those that stay in it, and those that come to the next one.
pub fn moved_up(bits: u64, up: u32) -> (u64, u64)
    requires { up < 64 }
    ensures low { (j : _) → j < 64 → (bit_at result.0 j ≡ 1) ↔ IsMoved bits up j }
    ensures high { (j : _) → (bit_at result.1 j ≡ 1) ↔ IsMoved bits up (64 + j) }
{
    if up == 0 {
        return (bits, 0);
    }
    (bits << up, bits >> (64 - up))
}

/// By how much the target of a bit that is set moves up, if it doesn't move down.
fn move_at(chunk: &Chunk, numbers: &[u32], bit: u32) -> Option<u32>
    requires within { (a : _) → IsAccessOf chunk.now a → IsWithin (length numbers.now) a }
    requires word { chunk.now.word < 2 ^ 26 }
    requires bit { bit < 64 }
    requires set { has_bit bit chunk.now ≡ true }
    ensures { IfSome result (λ up. slice_index numbers.now (64 * chunk.now.word + bit) ≡ 64 * chunk.now.word + bit + up) }
{
    let target = 64 * chunk.word + bit;
    numbers[target as usize].checked_sub(target)
}

/// By how much the targets of a chunk move up, where it's as much for all. Numbers may come in any order, so it looks at each.
pub fn common_move(chunk: &Chunk, numbers: &[u32]) -> Option<u32>
    requires within { (a : _) → IsAccessOf chunk.now a → IsWithin (length numbers.now) a }
    requires word { chunk.now.word < 2 ^ 26 }
    ensures { IfSome result (λ up. MovesUp numbers.now chunk.now up) }
{
    let Some(first) = chunk.next_bit(0) else {
        return Some(0);
    };
    let up = move_at(chunk, numbers, first)?;
    let mut from = first + 1;
    while let Some(bit) = chunk.next_bit(from) {
        if move_at(chunk, numbers, bit)? != up {
            return None;
        }
        from = bit + 1;
    }
    Some(up)
}
