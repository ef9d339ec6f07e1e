//! The access at a place of the order.

ghost use Rattle.std.specs.Prelude.{◌≡◌, ◌+◌, ◌<◌, ◌^◌, Some, filter, length, slice_get, MatchOption, MatchResult};
ghost use Rattle.cil_accesses.specs.Common.{All, accesses_of, has_bit, run_accesses};

use crate::access::AccessNumbers;
use crate::chunk::Chunk;
use crate::run::split_run;

/// The place among the accesses behind those of a run, where it isn't one of them.
fn behind_run(run: &[Chunk], place: usize) -> Option<usize>
    ensures { MatchOption result (place < length (run_accesses run.now)) (λ rest. place ≡ length (run_accesses run.now) + rest) }
{
    let mut rest = place;
    for chunk in run {
        rest = rest.checked_sub(chunk.len() as usize)?;
    }
    Some(rest)
}

/// The chunk at a place among those of a run that have a bit, or else the place behind those.
fn chunk_with_bit(run: &[Chunk], bit: u32, place: usize) -> Result<&Chunk, usize>
    requires { bit < 64 }
    ensures { MatchResult result (λ chunk. slice_get (filter (has_bit bit) run.now) place ≡ Some chunk.now)
        (λ rest. place ≡ length (filter (has_bit bit) run.now) + rest) }
{
    let mut rest = place;
    for chunk in run {
        if chunk.has_bit(bit) {
            if rest == 0 {
                return Ok(chunk);
            }
            rest -= 1;
        }
    }
    Err(rest)
}

/// The access at a place among those of a run.
fn access_in_run(run: &[Chunk], place: usize) -> Option<AccessNumbers>
    requires { All (λ c. c.word < 2 ^ 26) run.now }
    ensures { result ≡ slice_get (run_accesses run.now) place }
{
    let mut rest = place;
    for bit in 0..64 {
        match chunk_with_bit(run, bit, rest) {
            Ok(chunk) => return Some(chunk.access(bit)),
            Err(behind) => rest = behind,
        }
    }
    None
}

/// The access at a place among those of chunks. It takes a step for each chunk before it, and none for their accesses.
pub fn access_in(chunks: &[Chunk], place: usize) -> Option<AccessNumbers>
    requires { All (λ c. c.word < 2 ^ 26) chunks.now }
    ensures { result ≡ slice_get (accesses_of chunks.now) place }
{
    let mut chunks = chunks;
    let mut rest = place;
    while let Some((_, run, later)) = split_run(chunks) {
        match behind_run(run, rest) {
            None => return access_in_run(run, rest),
            Some(behind) => {
                rest = behind;
                chunks = later;
            }
        }
    }
    None
}
