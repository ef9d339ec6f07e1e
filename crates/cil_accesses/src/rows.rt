//! The rows of accesses: all permissions of one kind, source, target and class.

ghost use Rattle.std.specs.Prelude.{◌≡◌, ◌⊎◌, ◌<◌, ◌≤◌, [], length, not, MatchOption};
ghost use Rattle.cil_accesses.specs.Common.{prefix_len, accesses_of, at_bit, has_bit, AreChunks};
ghost use Rattle.cil_accesses.specs.Rows.{at_place, has_class, size_of, HasBitsOf, IsNextClass, IsNextRow, IsPlace};

use crate::access::AccessNumbers;
use crate::chunk::Chunk;
use crate::run::split_run;
use std::marker::Model;

/// A row by its first access. Its accesses are those of its chunks to the target of its bit, where they have it.
#[derive(Clone, Copy)]
pub struct AccessRow<'c> {
    pub first: AccessNumbers,
    pub chunks: &'c [Chunk],
    pub bit: u32,
}

/// How far the rows are read: the chunks of a run that are left for a bit, and the chunks behind the run. A bit that isn't among
/// `bits` is that of no chunk of the run, so it takes no look at them.
#[derive(Clone, Copy)]
pub struct RowPlace<'c> {
    pub run: &'c [Chunk],
    pub bits: u64,
    pub left: &'c [Chunk],
    pub bit: u32,
    pub later: &'c [Chunk],
}

/// How many chunks from the front don't have a bit.
fn skipped(chunks: &[Chunk], bit: u32) -> usize
    requires { bit < 64 }
    ensures within { result ≤ length chunks.now }
    ensures all { result ≡ prefix_len (λ c. not (has_bit bit c)) chunks.now }
{
    let mut count = 0;
    while count < chunks.len() && !chunks[count].has_bit(bit) {
        count += 1;
    }
    count
}

/// How many chunks from the front are of the class of one.
fn class_len(first: &Chunk, chunks: &[Chunk]) -> usize
    ensures within { result ≤ length chunks.now }
    ensures all { result ≡ prefix_len (has_class first.now) chunks.now }
{
    let mut len = 0;
    while len < chunks.len() && chunks[len].class == first.class {
        len += 1;
    }
    len
}

/// The next chunk that has a bit, the chunks of its class with it, and those after them.
fn split_class(chunks: &[Chunk], bit: u32) -> Option<(&Chunk, &[Chunk], &[Chunk])>
    requires { bit < 64 }
    ensures { MatchOption result (at_bit bit chunks.now ≡ []) (λ parts. IsNextClass chunks.now bit parts.0.now parts.1.now parts.2.now) }
{
    let (_, rest) = chunks.split_at(skipped(chunks, bit));
    let first = rest.first()?;
    let (row, later) = rest.split_at(class_len(first, rest));
    Some((first, row, later))
}

/// The bits that some chunk has.
fn bits_of(run: &[Chunk]) -> u64
    ensures { HasBitsOf result run.now }
{
    let mut bits = 0;
    for chunk in run {
        bits |= chunk.bits;
    }
    bits
}

/// The chunks to look at for a bit: all of a run, or none where the bit isn't among those of the run.
fn chunks_for(run: &[Chunk], bits: u64, bit: u32) -> &[Chunk]
    requires within { bit < 64 }
    requires bits { HasBitsOf bits run.now }
    ensures same { at_bit bit result.now ≡ at_bit bit run.now }
    ensures part { (result.now ≡ run.now) ⊎ (result.now ≡ []) }
{
    if (bits >> bit) & 1 == 1 {
        run
    } else {
        let (none, _) = run.split_at(0);
        none
    }
}

/// The place at the next target: that of the next bit, or of the first bit of the next run.
fn next_target<'c>(place: RowPlace<'c>) -> Option<RowPlace<'c>>
    requires place { IsPlace place }
    requires none { at_bit place.bit place.left.now ≡ [] }
    ensures { MatchOption result (at_place place.entry ≡ []) (λ next. IsPlace next × (at_place next ≡ at_place place.entry) × (size_of next < size_of place.entry)) }
{
    if place.bit < 63 {
        let bit = place.bit + 1;
        let left = chunks_for(place.run, place.bits, bit);
        return Some(RowPlace { left, bit, ..place });
    }
    let (_, run, later) = split_run(place.later)?;
    let bits = bits_of(run);
    let left = chunks_for(run, bits, 0);
    Some(RowPlace {
        run,
        bits,
        left,
        bit: 0,
        later,
    })
}

/// The next row, and the place behind it.
fn next_row<'c>(place: RowPlace<'c>) -> Option<(AccessRow<'c>, RowPlace<'c>)>
    requires { IsPlace place }
    ensures { MatchOption result (at_place place.entry ≡ []) (λ next. IsPlace next.1 × IsNextRow next.0 (at_place place.entry) (at_place next.1)) }
{
    let mut place = place;
    loop {
        let bit = place.bit;
        if let Some((first, chunks, left)) = split_class(place.left, bit) {
            let row = AccessRow {
                first: first.access(bit),
                chunks,
                bit,
            };
            return Some((row, RowPlace { left, ..place }));
        }
        place = next_target(place)?;
    }
}

/// The rows of accesses in order. Contracts see the accesses that are left.
#[derive(Drop)]
pub struct Rows<'c> {
    place: RowPlace<'c>,
}

impl<'c> Model for Rows<'c> {
    ghost use Rattle.std.specs.Prelude.{List};
    ghost use Rattle.cil_accesses.specs.declared.access.AccessNumbers.{AccessNumbers};

    ghost Value = { List AccessNumbers };

    ghost use Rattle.cil_accesses.specs.Rows.{at_place, IsPlace};

    ghost view = { λ r. at_place r.place };

    ghost invariant = { λ r. IsPlace r.place };
}

impl<'c> Rows<'c> {
    /// The rows of chunks in order.
    pub(super) fn of(chunks: &'c [Chunk]) -> Self
        requires { AreChunks chunks.now }
        ensures { result ≡ accesses_of chunks.now }
    {
        let (none, later) = chunks.split_at(0);
        Rows {
            place: RowPlace {
                run: none,
                bits: 0,
                left: none,
                bit: 63,
                later,
            },
        }
    }

    /// The next row.
    pub fn next(&mut self) -> Option<AccessRow<'c>>
        ensures { MatchOption result ((self.old ≡ []) × (self.new ≡ [])) (λ row. IsNextRow row self.old self.new) }
    {
        let (row, place) = next_row(self.place)?;
        self.place = place;
        Some(row)
    }
}
