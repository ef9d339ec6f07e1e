//! The members of one of two policies, by symbols.

ghost use Rattle.std.specs.Prelude.{◌≡◌, ◌<◌, ◌≤◌, ◌^◌, ℕ, length, slice_index, IfOk};
ghost use Rattle.cil_lines.specs.Line.{IsPresence};
ghost use Rattle.cil_rule_reach.specs.Reaches.{members_of};

use cil_member_rows::MemberRows;
use std::alloc::{AllocError, Allocator, Global};

/// Whose members are asked for: those before the steps, which are the old policy's, or those now, which are the new one's.
#[derive(Clone, Copy, PartialEq, Eq)]
pub enum When {
    Before,
    Now,
}

/// The members of a policy's attributes by symbols, in rows that may hold those of another policy too. No symbol from `symbols` on
/// is a member.
#[derive(Drop)]
pub struct SymbolMembers<'r, A: Allocator = Global> {
    pub rows: &'r MemberRows<A>,
    pub when: When,
    pub symbols: usize,
}

impl<A: Allocator> SymbolMembers<'_, A> {
    /// How many symbols there are.
    pub fn symbols_len(&self) -> usize
        ensures is { result ≡ self.now.symbols }
        ensures short { self.now.symbols < 2 ^ 64 }
    {
        self.symbols
    }
}

impl<A: Allocator + Copy> SymbolMembers<'_, A> {
    /// The members among the types of the first so many words of a row, by words. What is behind the words isn't one of them.
    pub fn words(&self, alloc: A, row: usize, count: usize) -> Result<Vec<u64, A>, AllocError>
        ensures len { IfOk result (λ words. length words.items ≤ count) }
        ensures are { IfOk result (λ words. (w : ℕ) → w < count
            → IsPresence (members_of self.now row) w (slice_index words.items w)) }
    {
        match self.when {
            When::Before => self.rows.held_words(alloc, row, count),
            When::Now => self.rows.present_words(alloc, row, count),
        }
    }
}
