//! Types as lines.

ghost use Rattle.std.specs.Prelude.{◌≡◌, ◌≤◌, ℕ, nat_lt, IfOk};
ghost use Rattle.cil_rule_shifts.specs.Reach.{is_present};
ghost use Rattle.cil_rule_reach.specs.Reaches.{members_of};

use crate::symbol_members::SymbolMembers;
use cil_lines::Line;
use std::alloc::{AllocError, Allocator};

// How many types a word has.
const WORD: usize = 64;

/// The members of an attribute, as those whose counters are above 0.
pub fn members_line<A: Allocator + Copy>(
    alloc: A,
    members: &SymbolMembers<'_, A>,
    row: usize,
) -> Result<Line<A>, AllocError>
    requires { (a t : ℕ) → members.now.symbols ≤ t → members_of members.now a t ≡ 0 }
    ensures { IfOk result (λ line. (t : ℕ) → is_present line t ≡ nat_lt 0 (members_of members.now row t)) }
{
    let count = members.symbols / WORD + 1;
    let words = members.words(alloc, row, count)?;
    Ok(Line::of_words(alloc, words))
}
