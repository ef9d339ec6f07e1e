//! The members now, word by word.

ghost use Rattle.std.specs.Prelude.{◌≡◌, ◌<◌, ◌≤◌, ℕ, length, slice_index};
ghost use Rattle.cil_member_rows.specs.Common.{IsOutside, IsPresence, count_now};

use crate::words::Words;
use cil_recorded::RecordedLines;
use std::alloc::Allocator;

/// Puts who is a member now into some words of a row, as far as there are words. The others stay.
pub fn put<A: Allocator>(rows: &RecordedLines<A>, row: usize, some: Words, words: &mut Vec<u64, A>)
    ensures len { length words.new.items ≡ length words.old.items }
    ensures put { (w : ℕ) → some.first ≤ w → w < some.end → w < length words.old.items
        → IsPresence (count_now rows.now row) w (slice_index words.new.items w) }
    ensures others { (w : ℕ) → IsOutside some w → slice_index words.new.items w ≡ slice_index words.old.items w }
{
    let last = some.end.min(words.len());
    let end = last.max(some.first);
    for word in some.first..end {
        words[word] = rows.present(row, word);
    }
}
