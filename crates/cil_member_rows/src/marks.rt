//! The words of rows that are marked.

ghost use Rattle.std.specs.Prelude.{◌≡◌, ◌≢◌, ◌⊎◌, ℕ, ◌<◌, ◌≤◌, ◌^◌, true, length, OnOk};
ghost use Rattle.cil_member_rows.specs.Common.{AreSome, IsOutside};
ghost use Rattle.cil_member_rows.specs.Marks.{mark_at};

use crate::words::Words;
use std::alloc::{AllocError, Allocator};

/// The marked words of a row; none are behind the last row.
pub fn marked(marks: &[Words], row: usize) -> Words
    ensures { result ≡ mark_at marks.now row }
{
    if row < marks.len() {
        marks[row]
    } else {
        Words::none()
    }
}

/// Adds a row without a mark behind the last one, unless there are more rows than so many. No mark changes.
pub fn add_row<A: Allocator>(marks: &mut Vec<Words, A>, len: usize) -> Result<(), AllocError>
    requires { len ≤ length marks.old.items }
    ensures rows { length marks.old.items ≤ length marks.new.items }
    ensures room { OnOk result (len < length marks.new.items) }
    ensures marks { (r : ℕ) → mark_at marks.new.items r ≡ mark_at marks.old.items r }
{
    if marks.len() == len {
        marks.push(Words::none())?;
    }
    Ok(())
}

/// Marks a word of a row, if it is to be marked. Else the row stays as it is. Words between marked ones are marked too.
pub fn mark<A: Allocator>(marks: &mut Vec<Words, A>, row: usize, word: usize, is: bool)
    requires row { row < length marks.old.items }
    requires word { word < 2 ^ 58 }
    ensures rows { length marks.new.items ≡ length marks.old.items }
    ensures kept { (w : ℕ) → IsOutside (mark_at marks.new.items row) w → IsOutside (mark_at marks.old.items row) w }
    ensures here { is ≡ true → (w : ℕ) → IsOutside (mark_at marks.new.items row) w → w ≢ word }
    ensures some { AreSome (mark_at marks.new.items row) → (is ≡ true) ⊎ AreSome (mark_at marks.old.items row) }
    ensures others { (r : ℕ) → r ≢ row → mark_at marks.new.items r ≡ mark_at marks.old.items r }
{
    if is {
        marks[row] = marked(marks, row).joined(Words::one(word));
    }
}

/// Takes all marks away.
pub fn clear(marks: &mut [Words])
    ensures rows { length marks.new ≡ length marks.old }
    ensures none { (r : ℕ) → mark_at marks.new r ≡ record { first = 0; end = 0 } }
{
    for mark in marks.iter_mut() {
        *mark = Words::none();
    }
}
