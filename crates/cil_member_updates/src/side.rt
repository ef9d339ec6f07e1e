//! A policy, by symbols, and its set statements.

ghost use Rattle.std.specs.Prelude.{◌≡◌, ◌<◌, length, slice_get, Some};
ghost use Rattle.cil_member_updates.specs.Common.{sets_in, set_of, IsSide};

use crate::kept::KeptTypes;
use crate::when::When;
use cil_matching::SetMatching;
use cil_member_rows::Words;
use cil_resolve::Resolved;
use cil_symbols::{Numbering, Symbols};
use std::alloc::{Allocator, Global};

/// A policy, with the symbols of its names and those of its kept types.
#[derive(Clone, Copy)]
pub struct Side<'p, A: Allocator = Global> {
    pub resolved: &'p Resolved<A>,
    pub numbering: &'p Numbering<A>,
    pub kept: &'p KeptTypes<A>,
}

/// An old policy and a new one, with their set statements matched.
#[derive(Clone, Copy)]
pub struct Sides<'p, A: Allocator = Global> {
    pub old: Side<'p, A>,
    pub new: Side<'p, A>,
    pub matching: &'p SetMatching<A>,
}

/// The set statement of a policy at a place. Its expression is read by who was a member before the
/// steps, or is one now. The types that it holds may be known, as bits, 64 a word.
#[derive(Clone, Copy)]
pub struct Reading<'p, A: Allocator = Global> {
    pub symbols: &'p Symbols<A>,
    pub side: &'p Side<'p, A>,
    pub when: When,
    pub place: usize,
    pub held: Option<&'p [u64]>,
}

/// Two policies with their set statements matched, and words outside which they keep the same
/// types.
#[derive(Clone, Copy)]
pub struct Policies<'p, A: Allocator = Global> {
    pub symbols: &'p Symbols<A>,
    pub old: &'p Side<'p, A>,
    pub new: &'p Side<'p, A>,
    pub matching: &'p SetMatching<A>,
    pub unlike: Words,
}

/// A set statement that both policies have, by its places.
#[derive(Clone, Copy)]
pub struct Stayed<'p, A: Allocator = Global> {
    pub policies: &'p Policies<'p, A>,
    pub i: usize,
    pub j: usize,
}

/// The symbol of the attribute of a set statement.
pub fn row_of<A: Allocator>(reading: &Reading<'_, A>) -> usize
    requires side { IsSide reading.now.symbols.now reading.now.side.now }
    requires within { reading.now.place < length (sets_in reading.now.side.now.resolved.now) }
    ensures row { slice_get reading.now.symbols.now result ≡ Some (set_of reading.now).attribute }
    ensures within { result < length reading.now.symbols.now }
{
    let attribute = reading.side.resolved.set_attribute(reading.place).unwrap();
    reading.side.numbering.symbol(attribute).unwrap()
}
