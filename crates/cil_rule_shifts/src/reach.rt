//! What a rule reaches.

ghost use Rattle.std.specs.Prelude.{◌≡◌, ◌==◌, ℕ, false, IfSome};
ghost use Rattle.cil_rule_shifts.specs.Groups.{has_either, is_among, AreSources};
ghost use Rattle.cil_rule_shifts.specs.Reach.{has_source, IsFirst, IsFirstWord, IsMask, IsMaybeWord, IsShort};

use crate::targets::Targets;
use crate::types::Types;
use crate::words::later;
use std::alloc::{Allocator, Global};

// How many symbols a word has.
const WORD: usize = 64;

/// The sources of a rule, by symbols, and its targets. A policy without the rule has no source of it.
#[derive(Drop)]
pub struct Reach<A: Allocator = Global> {
    pub sources: Types<A>,
    pub targets: Targets<A>,
}

impl<A: Allocator + Copy> Reach<A> {
    /// What a rule reaches that isn't there.
    pub fn none(alloc: A) -> Self
        ensures none { (s : ℕ) → has_source result s ≡ false }
        ensures short { IsShort result }
    {
        Reach {
            sources: Types::none(alloc),
            targets: Targets::Nothing,
        }
    }
}

/// Which sources, of those of what a rule reached and of those of what it reaches: those of the first
/// alone, those of both, or those of the second alone.
#[derive(Clone, Copy)]
pub enum Part {
    Lost,
    Kept,
    Got,
}

/// Some of the sources of what a rule reached and of what it reaches.
#[derive(Clone, Copy)]
pub struct Sources<'r, A: Allocator = Global> {
    pub part: Part,
    pub was: &'r Reach<A>,
    pub is: &'r Reach<A>,
}

/// The sources of a word.
#[inline(always)]
fn mask<A: Allocator + Copy>(sources: Sources<'_, A>, word: usize) -> u64
    ensures { IsMask (is_among sources.entry) word result }
{
    let was = sources.was.sources.word(word);
    let is = sources.is.sources.word(word);
    match sources.part {
        Part::Lost => was & !is,
        Part::Kept => was & is,
        Part::Got => is & !was,
    }
}

/// A word from one on with a source of what the rule reached or of what it reaches, before which there is
/// none of the sources. Where there is no such word there is none of them from the one on.
fn next_word<A: Allocator + Copy>(sources: Sources<'_, A>, from: usize) -> Option<usize>
    ensures { IsMaybeWord (is_among sources.entry) (has_either sources.entry) from result }
{
    match sources.part {
        Part::Lost => sources.was.sources.next_word(from),
        Part::Kept => later(
            sources.was.sources.next_word(from),
            sources.is.sources.next_word(from),
        ),
        Part::Got => sources.is.sources.next_word(from),
    }
}

/// The first word from one on with one of the sources.
fn next_source_word<A: Allocator + Copy>(sources: Sources<'_, A>, from: usize) -> Option<usize>
    requires { AreSources sources }
    ensures { IsFirstWord (is_among sources.entry) from result }
{
    let mut at = from;
    while let Some(word) = next_word(sources, at) {
        if mask(sources, word) != 0 {
            return Some(word);
        }
        at = word + 1;
    }
    None
}

/// The first of the sources from a symbol on.
pub fn next_source<A: Allocator + Copy>(sources: Sources<'_, A>, from: usize) -> Option<usize>
    requires { AreSources sources }
    ensures { IsFirst (is_among sources.entry) from result }
{
    let bits = mask(sources, from / WORD) >> (from % WORD);
    if bits != 0 {
        return Some(from + bits.trailing_zeros() as usize);
    }
    let word = next_source_word(sources, from / WORD + 1)?;
    let bits = mask(sources, word);
    Some(WORD * word + bits.trailing_zeros() as usize)
}

/// The only one of the sources, where it is told at once: that of a rule with one source.
pub fn only_source<A: Allocator + Copy>(sources: Sources<'_, A>) -> Option<usize>
    ensures { IfSome result (λ s. (t : ℕ) → is_among sources.entry t ≡ (s == t)) }
{
    let was = &sources.was.sources;
    let is = &sources.is.sources;
    match (sources.part, was, is) {
        (Part::Lost, Types::One(ty), _) => (!is.has(*ty)).then_some(*ty),
        (Part::Kept, Types::One(ty), _) => is.has(*ty).then_some(*ty),
        (Part::Got, _, Types::One(ty)) => (!was.has(*ty)).then_some(*ty),
        _ => None,
    }
}

/// Whether there is any of the sources.
pub fn has_sources<A: Allocator + Copy>(sources: Sources<'_, A>) -> bool
    requires { AreSources sources }
    ensures { result ≡ false → (s : ℕ) → is_among sources.entry s ≡ false }
{
    only_source(sources).is_some() || next_source(sources, 0).is_some()
}

/// How many sources there are. It tells how much room their keys take, so no contract needs it.
pub fn sources_len<A: Allocator + Copy>(sources: Sources<'_, A>) -> usize
    requires { AreSources sources }
{
    let mut len: usize = 0;
    let mut from = 0;
    while let Some(word) = next_source_word(sources, from) {
        len = len.saturating_add(mask(sources, word).count_ones() as usize);
        from = word + 1;
    }
    len
}
