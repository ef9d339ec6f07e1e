//! Puts chunks in order.

ghost use Rattle.std.specs.Prelude.{IsPermutation};

use crate::chunk::Chunk;
use std::alloc::Allocator;

/// Puts the chunks from a place on in order. Whoever makes chunks of many accesses puts those in order that belong together, a few at a
/// time, so that little is left to do when all are put in order.
pub fn sort_from<A: Allocator>(chunks: &mut Vec<Chunk, A>, start: usize)
    ensures { IsPermutation chunks.old.items chunks.new.items }
{
    if start < chunks.len() {
        chunks[start..].sort_unstable();
    }
}
