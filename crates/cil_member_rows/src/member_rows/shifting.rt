//! The memory and the steps of a shift.

ghost use Rattle.std.specs.Prelude.{◌≡◌, ◌↔◌, ℕ, ◌+◌, ◌<◌, ◌≤◌, ◌^◌, length, min, IsTrue, OnOk};
ghost use Rattle.cil_member_rows.specs.Common.{hit_at, count_before, count_now, limit_now, lines_in, spare, steps_in, bits_at, words_of};
ghost use Rattle.cil_lines.specs.Limit.{CanLower, CanRaise};

use crate::bit_row::BitRow;
use crate::held;
use cil_recorded::RecordedLines;
use std::alloc::{AllocError, Allocator};

/// Makes room for two steps, the second of which raises some counters of a word. No counter and no bit changes.
pub fn make_room<A: Allocator + Copy>(
    rows: &mut RecordedLines<A>,
    held: &mut Vec<BitRow<A>, A>,
    alloc: A,
    row: usize,
    word: usize,
    mask: u64,
) -> Result<(), AllocError>
    requires row { row < lines_in rows.old }
    requires held { row < length held.old.items }
    requires word { word < 2 ^ 58 }
    ensures log { OnOk result (2 ≤ spare rows.new) }
    ensures room { OnOk result (CanRaise (count_now rows.new row) (limit_now rows.new row) word mask) }
    ensures reach { OnOk result (word < words_of held.new.items row) }
    ensures lines { lines_in rows.new ≡ lines_in rows.old }
    ensures steps { steps_in rows.new ≡ steps_in rows.old }
    ensures now { (r t : ℕ) → count_now rows.new r t ≡ count_now rows.old r t }
    ensures before { (r t : ℕ) → count_before rows.new r t ≡ count_before rows.old r t }
    ensures rows { length held.new.items ≡ length held.old.items }
    ensures words { (r : ℕ) → words_of held.old.items r ≤ words_of held.new.items r }
    ensures bits { (r w : ℕ) → bits_at held.new.items r w ≡ bits_at held.old.items r w }
{
    held::lengthen(held, row, word + 1)?;
    rows.reserve(2)?;
    rows.make_room(alloc, row, word, mask)
}

/// Takes 1 from some counters of a word. It is a step if there are any.
pub fn lower<A: Allocator>(rows: &mut RecordedLines<A>, row: usize, word: usize, mask: u64)
    requires row { row < lines_in rows.old }
    requires log { 0 < spare rows.old }
    requires above { CanLower (count_now rows.old row) word mask }
    ensures lines { lines_in rows.new ≡ lines_in rows.old }
    ensures steps { steps_in rows.new ≡ steps_in rows.old + min 1 mask }
    ensures spare { spare rows.old ≤ spare rows.new + 1 }
    ensures now { (r t : ℕ) → count_now rows.new r t + hit_at row word mask r t ≡ count_now rows.old r t }
    ensures before { (r t : ℕ) → count_before rows.new r t ≡ count_before rows.old r t }
    ensures limits { (r w : ℕ) → limit_now rows.old r w ≤ limit_now rows.new r w }
{
    if mask != 0 {
        rows.lower(row, word, mask);
    }
}

/// Adds 1 to some counters of a word. It is a step if there are any.
pub fn raise<A: Allocator>(rows: &mut RecordedLines<A>, row: usize, word: usize, mask: u64)
    requires row { row < lines_in rows.old }
    requires log { 0 < spare rows.old }
    requires room { CanRaise (count_now rows.old row) (limit_now rows.old row) word mask }
    ensures lines { lines_in rows.new ≡ lines_in rows.old }
    ensures steps { steps_in rows.new ≡ steps_in rows.old + min 1 mask }
    ensures now { (r t : ℕ) → count_now rows.new r t ≡ count_now rows.old r t + hit_at row word mask r t }
    ensures before { (r t : ℕ) → count_before rows.new r t ≡ count_before rows.old r t }
{
    if mask != 0 {
        rows.raise(row, word, mask);
    }
}

/// Whether any types go or come.
pub fn is_step(gone: u64, come: u64) -> bool
    ensures { IsTrue result ↔ (0 < gone + come) }
{
    gone != 0 || come != 0
}
