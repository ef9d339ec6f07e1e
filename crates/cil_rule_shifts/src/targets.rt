//! The targets of a rule.

ghost use Rattle.std.specs.Prelude.{◌≡◌, ◌/◌, ◌^◌, ◌==◌, ◌<◌, ◌&&◌, ℕ, false, true};
ghost use Rattle.cil_lines.specs.Line.{hit};
ghost use Rattle.cil_rule_shifts.specs.Groups.{ArePlain};
ghost use Rattle.cil_rule_shifts.specs.Reach.{one_if, takes, IsFirstWord};

use crate::types::{Types, bit_of};
use std::alloc::{Allocator, Global};

// How many targets a word has.
const WORD: usize = 64;

/// The targets of each source of a rule, by symbols: none, the source itself, or some types.
#[derive(Drop)]
pub enum Targets<A: Allocator = Global> {
    Nothing,
    Itself,
    These(Types<A>),
}

impl<A: Allocator> Targets<A> {
    /// Whether the target of each source is itself; otherwise all sources have the same targets.
    pub fn is_itself(&self) -> bool
        ensures itself { result ≡ true → (s t : ℕ) → takes self.now s t ≡ (s == t) }
        ensures same { result ≡ false → ArePlain self.now }
    {
        match self {
            Targets::Nothing => false,
            Targets::Itself => true,
            Targets::These(_) => false,
        }
    }

    /// The targets of a word that a source has.
    #[inline(always)]
    pub fn word(&self, source: usize, word: usize) -> u64
        requires { word < 2 ^ 58 }
        ensures { (t : ℕ)
            → hit word result t ≡ one_if ((t / 64 == word) && takes self.now source t) }
    {
        match self {
            Targets::Nothing => 0,
            Targets::Itself => bit_of(source, word),
            Targets::These(types) => types.word(word),
        }
    }

    /// The first word from one on in which a source has a target.
    pub fn next_word(&self, source: usize, from: usize) -> Option<usize>
        ensures { IsFirstWord (takes self.now source) from result }
    {
        match self {
            Targets::Nothing => None,
            Targets::Itself => (from <= source / WORD).then_some(source / WORD),
            Targets::These(types) => types.next_word(from),
        }
    }
}
