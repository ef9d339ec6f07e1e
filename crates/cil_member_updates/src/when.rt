//! Who is a member, or was before the steps.

ghost use Rattle.std.specs.Prelude.{◌≡◌, nat_lt};
ghost use Rattle.cil_lines.specs.Line.{IsPresence};
ghost use Rattle.cil_member_updates.specs.Policy.{counts_at};

use cil_member_rows::MemberRows;
use std::alloc::Allocator;

/// Before the steps, or now.
#[derive(Clone, Copy)]
pub enum When {
    Before,
    Now,
}

/// Whether a type is a member of the attribute of a row.
pub fn is_member<A: Allocator>(rows: &MemberRows<A>, when: &When, row: usize, t: usize) -> bool
    ensures { result ≡ nat_lt 0 (counts_at when.now rows.now row t) }
{
    match when {
        When::Before => rows.had(row, t),
        When::Now => rows.has(row, t),
    }
}

/// The members among the types of a word.
pub fn members<A: Allocator>(rows: &MemberRows<A>, when: &When, row: usize, word: usize) -> u64
    ensures { IsPresence (counts_at when.now rows.now row) word result }
{
    match when {
        When::Before => rows.held(row, word),
        When::Now => rows.present(row, word),
    }
}
