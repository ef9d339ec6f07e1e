//! The accesses of a line to the targets of a word.

ghost use Rattle.std.specs.Prelude.{◌≡◌, ◌<◌, ◌≤◌, ◌^◌, [], IfOk, OnErr, OnOk};
ghost use Rattle.cil_symbol_changes.specs.Common.{All, hit, AreGained, AreKnown, chunk_by, IsShort, IsTo};

use cil_accesses::{Chunk, ChunkPlaces, push_renumbered};
use cil_keyed_lines::SymbolKey;
use std::alloc::{AllocError, Allocator, Global};

/// Chunks that accesses are appended to, and where those of each word were last pushed.
#[derive(Drop)]
pub struct GrowingChunks<A: Allocator = Global> {
    pub chunks: Vec<Chunk, A>,
    places: ChunkPlaces<A>,
}

impl<A: Allocator + Copy> GrowingChunks<A> {
    /// No chunk, and room for some.
    pub fn with_capacity(alloc: A, capacity: usize) -> Result<Self, AllocError>
        ensures { IfOk result (λ growing. growing.chunks.items ≡ []) }
    {
        Ok(GrowingChunks {
            chunks: Vec::with_capacity(alloc, capacity)?,
            places: ChunkPlaces::new(alloc),
        })
    }

    /// No chunk. It takes no memory.
    pub fn new(alloc: A) -> Self
        ensures { result.chunks.items ≡ [] }
    {
        GrowingChunks {
            chunks: Vec::new(alloc),
            places: ChunkPlaces::new(alloc),
        }
    }
}

/// A symbol or a place in 32 bits. More than these can number don't fit in memory; no other is refused.
pub fn short(symbol: usize) -> Result<u32, AllocError>
    ensures same { IfOk result (λ n. n ≡ symbol) }
    ensures beyond { OnErr result (2 ^ 32 ≤ symbol) }
{
    match u32::try_from(symbol) {
        Ok(n) => Ok(n),
        Err(_) => Err(AllocError),
    }
}

/// A word in 32 bits whose targets have no more.
pub fn short_word(word: usize) -> Result<u32, AllocError>
    ensures same { IfOk result (λ n. n ≡ word) }
    ensures low { IfOk result (λ n. n < 2 ^ 26) }
    ensures beyond { OnErr result (2 ^ 26 ≤ word) }
{
    let word = short(word)?;
    if word > u32::MAX / 64 {
        return Err(AllocError);
    }
    Ok(word)
}

/// The accesses of a key to the targets of a word that a mask has, by symbols.
fn by_symbols(key: SymbolKey, word: usize, mask: u64) -> Result<Chunk, AllocError>
    ensures same { IfOk result (λ c. c ≡ chunk_by key word mask) }
    ensures short { IfOk result IsShort }
{
    Ok(Chunk {
        kind: key.kind,
        source: short(key.source)?,
        word: short_word(word)?,
        class: short(key.class)?,
        permission: short(key.permission)?,
        bits: mask,
    })
}

/// Appends the accesses of a key to the targets of a word that a mask has, by numbers.
pub fn push_targets<A: Allocator>(
    growing: &mut GrowingChunks<A>,
    key: SymbolKey,
    word: usize,
    mask: u64,
    numbers: &[u32],
) -> Result<(), AllocError>
    requires known { AreKnown numbers.now key (hit word mask) }
    requires short { All IsShort growing.old.chunks.items }
    ensures { OnOk result
        (AreGained (IsTo numbers.now key (λ t. 0 < hit word mask t)) growing.old.chunks.items
        growing.new.chunks.items) }
{
    if mask == 0 {
        return Ok(());
    }
    let symbols = by_symbols(key, word, mask)?;
    push_renumbered(&mut growing.chunks, &mut growing.places, &symbols, numbers)?;
    Ok(())
}
