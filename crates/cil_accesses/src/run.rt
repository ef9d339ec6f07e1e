//! Parts chunks into runs: those of one kind, source and word stand together.

ghost use Rattle.std.specs.Prelude.{◌≡◌, ◌≤◌, [], length, MatchOption};
ghost use Rattle.cil_accesses.specs.Common.{prefix_len, in_run};
ghost use Rattle.cil_accesses.specs.Groups.{IsFirstGroup};

use crate::chunk::Chunk;

/// How many chunks from the front stand in the run of one.
fn run_len(first: &Chunk, chunks: &[Chunk]) -> usize
    ensures within { result ≤ length chunks.now }
    ensures all { result ≡ prefix_len (in_run first.now) chunks.now }
{
    let mut len = 0;
    while len < chunks.len() && chunks[len].is_in_run_of(first) {
        len += 1;
    }
    len
}

/// The first chunk, the chunks that stand in its run, and those after them.
pub fn split_run(chunks: &[Chunk]) -> Option<(&Chunk, &[Chunk], &[Chunk])>
    ensures { MatchOption result (chunks.now ≡ []) (λ parts. IsFirstGroup in_run chunks.now parts.0.now parts.1.now parts.2.now) }
{
    let first = chunks.first()?;
    let (run, later) = chunks.split_at(run_len(first, chunks));
    Some((first, run, later))
}
