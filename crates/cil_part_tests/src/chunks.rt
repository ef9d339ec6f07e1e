//! How many chunks accesses take that get other numbers.

ghost use Rattle.cil_accesses.specs.Chunks.{IsAccessOf};
ghost use Rattle.cil_accesses.specs.Renumbered.{IsWithin};
ghost use Rattle.cil_accesses.specs.declared.access.AccessNumbers.{AccessNumbers};

use cil_accesses::{Accesses, Chunk, ChunkPlaces, push_renumbered};
use cil_text::RuleKind;
use std::alloc::Global;
use std::process::Abort;

// Asserts that the numbers of all accesses that a chunk may have are low enough.
fn assert_low(rt: &impl Abort, chunk: &Chunk, len: usize)
    ensures { (a : AccessNumbers) → IsAccessOf chunk.now a → IsWithin len a }
{
    assert!(rt; (chunk.source as usize) < len);
    assert!(rt; 64 * (chunk.word as usize) + 63 < len);
    assert!(rt; (chunk.class as usize) < len);
    assert!(rt; (chunk.permission as usize) < len);
}

// How many chunks and how many accesses there are where all targets of a word get numbers in two words by turns.
fn pushed_by_turns(rt: &impl Abort, alloc: Global) -> (usize, u128) {
    let mut numbers = Vec::new(alloc);
    for target in 0..64u32 {
        numbers
            .push(target / 2 + 64 * (target % 2))
            .expect(rt, "memory");
    }
    let chunk = Chunk {
        kind: RuleKind::Allow,
        source: 1,
        word: 0,
        class: 2,
        permission: 3,
        bits: u64::MAX,
    };
    assert_low(rt, &chunk, numbers.len());
    let mut all = Vec::new(alloc);
    let mut places = ChunkPlaces::new(alloc);
    push_renumbered(&mut all, &mut places, &chunk, &numbers).expect(rt, "memory");
    let chunks = all.len();
    (chunks, Accesses::of(all).len())
}

#[test]
fn chunks_of_targets_by_turns(rt: HostRuntime) {
    assert!(rt; pushed_by_turns(&rt, rt.alloc()) == (2, 64));
}
