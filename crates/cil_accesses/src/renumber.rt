//! Makes chunks anew where numbers change.

ghost use Rattle.std.specs.Prelude.{◌≡◌, ◌<◌, ◌+◌, ◌*◌, ◌^◌, ◌↔◌, ◌⊎◌, length, IfSome, MatchBool, OnOk};
ghost use Rattle.cil_accesses.specs.Common.{bit_at, All, IsAccessOf, IsGiven, IsTarget, IsWithin, IsRenumbered, IsRenumberedIn, MovesUp};

use crate::chunk::Chunk;
use crate::chunk_places::ChunkPlaces;
use crate::moving::{common_move, moved_up};
use std::alloc::{AllocError, Allocator};

/// Adds the accesses of a chunk to that of a place, where both are of one kind, source, word, class and permission, and says whether it
/// does.
fn add_to<A: Allocator>(chunks: &mut Vec<Chunk, A>, place: usize, chunk: &Chunk) -> bool
    requires words { All (λ c. c.word < 2 ^ 26) chunks.old.items }
    ensures words { All (λ c. c.word < 2 ^ 26) chunks.new.items }
    ensures same { MatchBool result ((a : _) → IsGiven chunks.new.items a ↔ (IsGiven chunks.old.items a ⊎ IsAccessOf chunk.now a))
        (chunks.new.items ≡ chunks.old.items) }
{
    if place >= chunks.len() {
        return false;
    }
    chunks[place].take_up(chunk)
}

/// Adds a chunk's accesses: to the chunk that stands at the place of their word, where it's of one kind, source, word, class and
/// permission with that, and else as a chunk of their own.
fn push_chunk<A: Allocator>(
    chunks: &mut Vec<Chunk, A>,
    places: &mut ChunkPlaces<A>,
    chunk: Chunk,
) -> Result<(), AllocError>
    requires word { chunk.word < 2 ^ 26 }
    requires words { All (λ c. c.word < 2 ^ 26) chunks.old.items }
    ensures words { OnOk result (All (λ c. c.word < 2 ^ 26) chunks.new.items) }
    ensures same { OnOk result ((a : _) → IsGiven chunks.new.items a ↔ (IsGiven chunks.old.items a ⊎ IsAccessOf chunk a)) }
{
    if add_to(chunks, places.of(chunk.word), &chunk) {
        return Ok(());
    }
    places.put(chunk.word, chunks.len())?;
    chunks.push(chunk)?;
    Ok(())
}

/// Adds the accesses of a chunk bit by bit, with the numbers at the places of their own. Those that come to one word in turn are put
/// together before they are added, since a look at the chunk of their word for each takes longer.
fn push_bits<A: Allocator>(
    made: &mut Vec<Chunk, A>,
    places: &mut ChunkPlaces<A>,
    chunk: &Chunk,
    numbers: &[u32],
) -> Result<(), AllocError>
    requires within { (a : _) → IsAccessOf chunk.now a → IsWithin (length numbers.now) a }
    requires word { chunk.now.word < 2 ^ 26 }
    requires words { All (λ c. c.word < 2 ^ 26) made.old.items }
    ensures words { OnOk result (All (λ c. c.word < 2 ^ 26) made.new.items) }
    ensures same { OnOk result ((a : _) → IsGiven made.new.items a ↔ (IsGiven made.old.items a ⊎ IsRenumbered numbers.now chunk.now 64 a)) }
{
    let Some(first) = chunk.next_bit(0) else {
        return Ok(());
    };
    let mut held = Chunk::of(chunk.access(first).renumbered(numbers));
    let mut from = first + 1;
    while let Some(bit) = chunk.next_bit(from) {
        let target = numbers[(64 * chunk.word + bit) as usize];
        let word = target / 64;
        let bits = 1 << (target % 64);
        if word == held.word {
            held.bits |= bits;
        } else {
            push_chunk(made, places, held)?;
            held = Chunk { word, bits, ..held };
        }
        from = bit + 1;
    }
    push_chunk(made, places, held)
}

/// Adds the accesses of a chunk, with the numbers at the places of their own, whose targets are those of a word's bits then.
fn push_word<A: Allocator>(
    made: &mut Vec<Chunk, A>,
    places: &mut ChunkPlaces<A>,
    chunk: &Chunk,
    numbers: &[u32],
    word: u32,
    bits: u64,
) -> Result<(), AllocError>
    requires within { (a : _) → IsAccessOf chunk.now a → IsWithin (length numbers.now) a }
    requires words { All (λ c. c.word < 2 ^ 26) made.old.items }
    requires bits { (j : _) → j < 64 → (bit_at bits j ≡ 1) ↔ IsTarget numbers.now chunk.now (64 * word + j) }
    ensures words { OnOk result (All (λ c. c.word < 2 ^ 26) made.new.items) }
    ensures same { OnOk result ((a : _) → IsGiven made.new.items a ↔ (IsGiven made.old.items a ⊎ IsRenumberedIn numbers.now chunk.now word a)) }
{
    if bits == 0 {
        return Ok(());
    }
    let moved = Chunk {
        kind: chunk.kind,
        source: numbers[chunk.source as usize],
        word,
        class: numbers[chunk.class as usize],
        permission: numbers[chunk.permission as usize],
        bits,
    };
    push_chunk(made, places, moved)
}

/// Adds the accesses of a chunk, with the numbers at the places of their own, where all targets move up by as much.
fn push_moved<A: Allocator>(
    made: &mut Vec<Chunk, A>,
    places: &mut ChunkPlaces<A>,
    chunk: &Chunk,
    numbers: &[u32],
    up: u32,
) -> Result<(), AllocError>
    requires within { (a : _) → IsAccessOf chunk.now a → IsWithin (length numbers.now) a }
    requires word { chunk.now.word < 2 ^ 26 }
    requires words { All (λ c. c.word < 2 ^ 26) made.old.items }
    requires up { MovesUp numbers.now chunk.now up }
    ensures words { OnOk result (All (λ c. c.word < 2 ^ 26) made.new.items) }
    ensures same { OnOk result ((a : _) → IsGiven made.new.items a ↔ (IsGiven made.old.items a ⊎ IsRenumbered numbers.now chunk.now 64 a)) }
{
    let word = chunk.word + up / 64;
    let (low, high) = moved_up(chunk.bits, up % 64);
    push_word(made, places, chunk, numbers, word, low)?;
    push_word(made, places, chunk, numbers, word + 1, high)
}

/// Adds the accesses of a chunk, with the numbers at the places of their own, where it's known by how much all targets move up, or
/// where that is left open.
fn push_by<A: Allocator>(
    made: &mut Vec<Chunk, A>,
    places: &mut ChunkPlaces<A>,
    chunk: &Chunk,
    numbers: &[u32],
    up: Option<u32>,
) -> Result<(), AllocError>
    requires within { (a : _) → IsAccessOf chunk.now a → IsWithin (length numbers.now) a }
    requires word { chunk.now.word < 2 ^ 26 }
    requires words { All (λ c. c.word < 2 ^ 26) made.old.items }
    requires up { IfSome up (λ u. MovesUp numbers.now chunk.now u) }
    ensures words { OnOk result (All (λ c. c.word < 2 ^ 26) made.new.items) }
    ensures same { OnOk result ((a : _) → IsGiven made.new.items a ↔ (IsGiven made.old.items a ⊎ IsRenumbered numbers.now chunk.now 64 a)) }
{
    match up {
        Some(up) => push_moved(made, places, chunk, numbers, up),
        None => push_bits(made, places, chunk, numbers),
    }
}

/// Adds the accesses of a chunk, with the numbers at the places of their own, in any order. It takes them up into the chunk that took
/// up some of their word last, where they are of one kind, source, word, class and permission, so those of one kind, source, class and
/// permission that come behind one another make one chunk for each word.
pub fn push_renumbered<A: Allocator>(
    made: &mut Vec<Chunk, A>,
    places: &mut ChunkPlaces<A>,
    chunk: &Chunk,
    numbers: &[u32],
) -> Result<(), AllocError>
    requires within { (a : _) → IsAccessOf chunk.now a → IsWithin (length numbers.now) a }
    requires word { chunk.now.word < 2 ^ 26 }
    requires words { All (λ c. c.word < 2 ^ 26) made.old.items }
    ensures words { OnOk result (All (λ c. c.word < 2 ^ 26) made.new.items) }
    ensures same { OnOk result ((a : _) → IsGiven made.new.items a ↔ (IsGiven made.old.items a ⊎ IsRenumbered numbers.now chunk.now 64 a)) }
{
    push_by(made, places, chunk, numbers, common_move(chunk, numbers))
}
