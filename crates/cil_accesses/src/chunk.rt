//! Accesses to the targets of one word.

ghost use Rattle.std.specs.Prelude.{◌≡◌, ◌<◌, ◌≤◌, ◌^◌, ◌↔◌, MatchOption};
ghost use Rattle.cil_accesses.specs.Common.{chunk_cmp, ones_of, IsAccessOf, of_one_key, taking_up, access_at, has_bit, in_run, IsNextBit, NoBitFrom};

use crate::access::AccessNumbers;
use cil_text::RuleKind;
use std::cmp::Ordering;

/// The accesses of one kind, source, class and permission to the targets of a word: target `64 * word + b` for each bit `b` that is
/// set in `bits`.
#[derive(Clone, Copy, PartialEq, Eq, PartialOrd, Ord)]
pub struct Chunk {
    pub kind: RuleKind,
    pub source: u32,
    pub word: u32,
    pub class: u32,
    pub permission: u32,
    pub bits: u64,
}

impl Chunk {
    /// The chunk of one access.
    pub(super) fn of(access: AccessNumbers) -> Chunk
        ensures word { result.word < 2 ^ 26 }
        ensures one { (a : _) → IsAccessOf result a ↔ (a ≡ access) }
    {
        Chunk {
            kind: access.kind,
            source: access.source,
            word: access.target / 64,
            class: access.class,
            permission: access.permission,
            bits: 1 << (access.target % 64),
        }
    }

    /// Its order by kind, source, word, class and permission, whatever the bits.
    pub(super) fn key_cmp(&self, other: &Chunk) -> Ordering
        ensures { result ≡ chunk_cmp self.now other.now }
    {
        let run = self.kind.cmp(&other.kind).then(
            self.source
                .cmp(&other.source)
                .then(self.word.cmp(&other.word)),
        );
        run.then(
            self.class
                .cmp(&other.class)
                .then(self.permission.cmp(&other.permission)),
        )
    }

    /// Takes up the bits of another, where both are of one kind, source, word, class and permission, and says whether it does.
    pub(super) fn take_up(&mut self, other: &Chunk) -> bool
        ensures same { result ≡ of_one_key self.old other.now }
        ensures bits { self.new ≡ taking_up self.old other.now }
    {
        let same = self.key_cmp(other) == Ordering::Equal;
        if same {
            self.bits |= other.bits;
        }
        same
    }

    /// How many accesses it has.
    pub fn len(&self) -> u32
        ensures count { result ≡ ones_of self.now }
        ensures few { result ≤ 64 }
    {
        let bits = self.bits;
        bits.count_ones()
    }

    /// Whether it stands in the run of another.
    pub fn is_in_run_of(&self, other: &Chunk) -> bool
        ensures { result ≡ in_run other.now self.now }
    {
        other.kind == self.kind && other.source == self.source && other.word == self.word
    }

    /// Whether it has the access to the target of a bit.
    pub fn has_bit(&self, bit: u32) -> bool
        requires { bit < 64 }
        ensures { result ≡ has_bit bit self.now }
    {
        (self.bits >> bit) & 1 == 1
    }

    /// The first bit from one on to whose target it has the access.
    pub(super) fn next_bit(&self, from: u32) -> Option<u32>
        ensures { MatchOption result (NoBitFrom self.now from) (IsNextBit self.now from) }
    {
        if from >= 64 {
            return None;
        }
        let bits = self.bits >> from;
        if bits == 0 {
            return None;
        }
        Some(from + bits.trailing_zeros())
    }

    /// The access to the target of a bit.
    pub fn access(&self, bit: u32) -> AccessNumbers
        requires word { self.now.word < 2 ^ 26 }
        requires within { bit < 64 }
        ensures { result ≡ access_at bit self.now }
    {
        AccessNumbers {
            kind: self.kind,
            source: self.source,
            target: 64 * self.word + bit,
            class: self.class,
            permission: self.permission,
        }
    }
}
