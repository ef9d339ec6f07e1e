//! Merges chunks of one key.

ghost use Rattle.std.specs.Prelude.{◌≡◌};
ghost use Rattle.cil_accesses.specs.Common.{of_one_key, taking_up, merged};

use crate::chunk::Chunk;
use std::alloc::Allocator;

/// Merges chunks of one kind, source, word, class and permission that stand one behind the other. It takes no memory.
pub fn merge<A: Allocator>(chunks: &mut Vec<Chunk, A>)
    ensures { chunks.new.items ≡ merged chunks.old.items }
{
    let taken_up = |next: &mut Chunk, last: &mut Chunk| -> bool
        ensures { (result ≡ of_one_key last.entry.now next.entry.now)
            × ((next.exit.now ≡ next.entry.now) × (last.exit.now ≡ taking_up last.entry.now next.entry.now)) }
    { last.take_up(next) };
    chunks.dedup_by(taken_up);
}
