//! Rows for the symbols that came.

ghost use Rattle.std.specs.Prelude.{◌≡◌, ◌≤◌, ℕ, OnOk};
ghost use Rattle.cil_counters.specs.Common.{count_before, count_now, rows_in};

use cil_member_rows::MemberRows;
use std::alloc::{AllocError, Allocator};

/// Adds rows without members until there are so many.
pub fn add_rows<A: Allocator + Copy>(
    rows: &mut MemberRows<A>,
    alloc: A,
    count: usize,
) -> Result<(), AllocError>
    ensures room { OnOk result (count ≤ rows_in rows.new) }
    ensures now { (a t : ℕ) → count_now rows.new a t ≡ count_now rows.old a t }
    ensures before { (a t : ℕ) → count_before rows.new a t ≡ count_before rows.old a t }
{
    while rows.len() < count {
        rows.add_row(alloc)?;
    }
    Ok(())
}
