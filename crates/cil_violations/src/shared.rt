//! The types that two names of rules have in common.

ghost use Rattle.std.specs.Prelude.{◌≡◌, ◌⊎◌, ◌<◌, ◌^◌, ◌↔◌, ℕ, Contains, IsTrue, length, slice_get, Some, IfOk, OnOk};
ghost use Rattle.cil_violations.specs.Common.{are_both_held, is_known, symbols_in, AreShort, hits};
ghost use Rattle.cil_violations.specs.Shared.{HasBit};

use crate::members::{Members, WORD};
use crate::permissions::put_in_order;
use cil_resolve::Element;
use cil_symbols::Numbering;
use std::alloc::{AllocError, Allocator};

/// Appends the number of the name that has a symbol, if the policy has that name.
fn push_name<A: Allocator>(
    list: &mut Vec<usize, A>,
    numbering: &Numbering<A>,
    symbol: usize,
) -> Result<(), AllocError>
    ensures { OnOk result ((n : ℕ) → Contains list.new.items n
        ↔ (Contains list.old.items n ⊎ (slice_get numbering.now.symbols n ≡ Some symbol))) }
{
    if let Some(number) = numbering.local(symbol) {
        list.push(number)?;
    }
    Ok(())
}

/// Appends the numbers of the names whose symbols have their bits in the word at an index.
fn push_names<A: Allocator>(
    list: &mut Vec<usize, A>,
    numbering: &Numbering<A>,
    index: usize,
    word: u64,
) -> Result<(), AllocError>
    requires { index < 2 ^ 58 }
    ensures { OnOk result ((n : ℕ) → Contains list.new.items n
        ↔ (Contains list.old.items n ⊎ HasBit numbering.now.symbols index word 64 n)) }
{
    for bit in 0..WORD {
        if (word >> bit) & 1 == 1 {
            push_name(list, numbering, index * WORD + bit)?;
        }
    }
    Ok(())
}

/// The types that two elements hold, by the numbers of their names, in order. It takes no memory where there
/// is none.
pub fn shared<A: Allocator + Copy>(
    alloc: A,
    members: &Members<'_, A>,
    first: Element,
    second: Element,
) -> Result<Vec<usize, A>, AllocError>
    requires short { AreShort members.now }
    requires first { IsTrue (is_known members.now first) }
    requires second { IsTrue (is_known members.now second) }
    ensures { IfOk result (λ list. list.items ≡
        hits (are_both_held members.now first second) 0 (length (symbols_in members.now))) }
{
    let mut list = Vec::new(alloc);
    let mut from = 0;
    while let Some(index) = members.next_shared_word(first, second, from) {
        let word = members.shared_word(first, second, index);
        push_names(&mut list, members.numbering, index, word)?;
        from = index + 1;
    }
    put_in_order(&mut list);
    Ok(list)
}
