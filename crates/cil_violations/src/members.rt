//! The types that names of rules stand for, by symbols and word by word.

ghost use Rattle.std.specs.Prelude.{◌==◌, ℕ, IsTrue, MatchOption};
ghost use Rattle.cil_violations.specs.Common.{both_hold, holds_symbol, is_known, AreShort};
ghost use Rattle.cil_violations.specs.Search.{NoneFromWord, IsFirstWordFrom, IsWordOf};

use cil_member_rows::MemberRows;
use cil_resolve::Element;
use cil_rule_reach::symbol_of;
use cil_symbols::Numbering;
use std::alloc::{Allocator, Global};

/// How many types a word has.
pub const WORD: usize = 64;

/// The members of a policy's attributes: counters by symbols, and the symbols of the policy's names.
/// Reading them takes no memory.
#[derive(Clone, Copy)]
pub struct Members<'r, A: Allocator = Global> {
    pub rows: &'r MemberRows<A>,
    pub numbering: &'r Numbering<A>,
}

/// The word at an index that has a symbol alone, if the symbol is one of that word.
fn word_of(symbol: usize, index: usize) -> u64
    ensures { IsWordOf (λ t. symbol == t) index result }
{
    if symbol / WORD == index {
        1 << (symbol % WORD)
    } else {
        0
    }
}

impl<A: Allocator> Members<'_, A> {
    /// A bit for each of the 64 types of a word, which says whether an element holds it.
    fn word(&self, element: Element, index: usize) -> u64
        requires { IsTrue (is_known self.now element) }
        ensures { IsWordOf (holds_symbol self.now element) index result }
    {
        match element {
            Element::Type(ty) => word_of(symbol_of(self.numbering, ty as usize), index),
            Element::Attribute(attribute) => {
                let row = symbol_of(self.numbering, attribute as usize);
                self.rows.present(row, index)
            }
        }
    }

    /// The first word from one on with a type that an element holds.
    fn next_word(&self, element: Element, from: usize) -> Option<usize>
        requires { IsTrue (is_known self.now element) }
        ensures { MatchOption result (NoneFromWord (holds_symbol self.now element) from)
            (IsFirstWordFrom (holds_symbol self.now element) from) }
    {
        match element {
            Element::Type(ty) => {
                let word = symbol_of(self.numbering, ty as usize) / WORD;
                (from <= word).then_some(word)
            }
            Element::Attribute(attribute) => {
                let row = symbol_of(self.numbering, attribute as usize);
                self.rows.next_present_word(row, from)
            }
        }
    }

    /// A bit for each of the 64 types of a word, which says whether two elements hold it.
    pub fn shared_word(&self, first: Element, second: Element, index: usize) -> u64
        requires first { IsTrue (is_known self.now first) }
        requires second { IsTrue (is_known self.now second) }
        ensures { IsWordOf (both_hold self.now first second) index result }
    {
        self.word(first, index) & self.word(second, index)
    }

    /// The first word from one on with a type that two elements hold. Words without a type of either are
    /// skipped.
    pub fn next_shared_word(&self, first: Element, second: Element, from: usize) -> Option<usize>
        requires short { AreShort self.now }
        requires first { IsTrue (is_known self.now first) }
        requires second { IsTrue (is_known self.now second) }
        ensures { MatchOption result (NoneFromWord (both_hold self.now first second) from)
            (IsFirstWordFrom (both_hold self.now first second) from) }
    {
        let mut from = from;
        loop {
            let word = self.next_word(first, from)?;
            from = self.next_word(second, word)?;
            if from == word {
                if self.shared_word(first, second, word) != 0 {
                    return Some(word);
                }
                from = word + 1;
            }
        }
    }
}
