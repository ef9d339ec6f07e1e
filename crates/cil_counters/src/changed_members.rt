//! Who became a member, and who is none any more, by full names.

ghost use Rattle.std.specs.Prelude.{◌+◌, ◌≤◌, ℕ, IfOk, OnOk};
ghost use Rattle.cil_counters.specs.Common.{count_before, count_now, has_turned, pairs_of, AreNamed};
ghost use Rattle.cil_recorded.specs.Log.{hit_at};

use cil_member_rows::MemberRows;
use cil_symbols::Symbols;
use std::alloc::{AllocError, Allocator};

// How many types a word has.
const WORD: usize = 64;

/// An attribute and a type that is its member in one of two policies only, by full names.
#[derive(Clone, Copy, Debug, PartialEq, Eq)]
pub struct ChangedMember<'c> {
    pub attribute: &'c [u8],
    pub ty: &'c [u8],
}

/// Appends the attribute of a row with each type of a word that a mask has. What has no name is left out.
fn push_types<'c, A: Allocator>(
    members: &mut Vec<ChangedMember<'c>, A>,
    names: &'c Symbols<A>,
    row: usize,
    word: usize,
    mask: u64,
) -> Result<(), AllocError>
    ensures { OnOk result ((hits : ℕ → ℕ → ℕ) → ((r t : ℕ) → hits r t + hit_at row word mask r t ≤ 1)
        → AreNamed names.now hits (pairs_of members.old.items)
        → AreNamed names.now (λ r t. hits r t + hit_at row word mask r t) (pairs_of members.new.items)) }
{
    let Some(attribute) = names.name(row) else {
        return Ok(());
    };
    if word > names.len() / WORD {
        return Ok(());
    }
    for bit in 0..WORD {
        if (mask >> bit) & 1 == 1 {
            if let Some(ty) = names.name(WORD * word + bit) {
                members.push(ChangedMember { attribute, ty })?;
            }
        }
    }
    Ok(())
}

/// Who became a member since the last settling, and who is none any more, where both have names.
pub fn changed_members_of<'c, A: Allocator + Copy>(
    alloc: A,
    names: &'c Symbols<A>,
    rows: &MemberRows<A>,
) -> Result<Vec<ChangedMember<'c>, A>, AllocError>
    ensures { IfOk result (λ members. AreNamed names.now (has_turned (count_before rows.now) (count_now rows.now)) (pairs_of members.items)) }
{
    let changes = rows.changes(alloc)?;
    let mut members = Vec::new(alloc);
    for change in &changes {
        push_types(
            &mut members,
            names,
            change.line,
            change.word,
            change.appeared,
        )?;
        push_types(&mut members, names, change.line, change.word, change.gone)?;
    }
    Ok(members)
}
