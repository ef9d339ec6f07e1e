//! Packing: the last lines move to where there are lines that no place names.

ghost use Rattle.std.specs.Prelude.{◌≡◌, ◌≢◌, ◌<◌, ◌≤◌, [], ℕ, length, slice_index};
ghost use Rattle.cil_recorded.specs.Recorded.{count_now, lines_in, steps_in};
ghost use Rattle.cil_keyed_lines.specs.Names.{name_now, uses};
ghost use Rattle.cil_keyed_lines.specs.Packed.{AreFilled};
ghost use Rattle.cil_keyed_lines.specs.Keyed.{now_in};

use crate::names::{Names, join};
use cil_recorded::RecordedLines;
use std::alloc::Allocator;

/// Moves the last lines to where there are lines that no place names, and takes these out. It answers how many lines may
/// be left, and lets `users` tell of each line behind them where it went.
fn fill_gaps<A: Allocator>(users: &mut Vec<usize, A>, lines: &mut RecordedLines<A>) -> usize
    requires some { 0 < length users.old.items }
    requires fits { lines_in lines.old ≤ length users.old.items }
    requires within { (l : ℕ) → l ≢ 0 → 0 < slice_index users.old.items l
        → l < lines_in lines.old }
    requires settled { steps_in lines.old ≡ 0 }
    ensures some { 0 < result }
    ensures most { result ≤ length users.new.items }
    ensures len { length users.new.items ≡ length users.old.items }
    ensures fits { lines_in lines.new ≤ result }
    ensures steps { steps_in lines.new ≡ 0 }
    ensures filled { AreFilled users.old.items users.new.items lines.old lines.new result }
{
    let mut low = 1;
    let mut end = users.len();
    while low < end {
        if users[low] != 0 {
            low += 1;
        } else if users[end - 1] == 0 {
            end -= 1;
            lines.truncate(end);
        } else {
            lines.swap_remove(low);
            users[end - 1] = low;
            end -= 1;
            low += 1;
        }
    }
    end
}

/// Lets the places that name a line behind the last name the one that it went to.
fn follow<A: Allocator>(named: &mut Vec<usize, A>, went_to: &[usize], end: usize)
    requires some { 0 < end }
    requires within { (p : ℕ) → slice_index named.old.items p < length went_to.now }
    ensures len { length named.new.items ≡ length named.old.items }
    ensures left { (p : ℕ) → slice_index named.old.items p < end → slice_index named.new.items p
        ≡ slice_index named.old.items p }
    ensures gone { (p : ℕ) → end ≤ slice_index named.old.items p → slice_index named.new.items p
        ≡ slice_index went_to.now (slice_index named.old.items p) }
{
    for place in 0..named.len() {
        let line = named[place];
        if line >= end {
            named[place] = went_to[line];
        }
    }
}

/// Tells of no line that a place names it.
fn clear<A: Allocator>(users: &mut Vec<usize, A>)
    ensures len { length users.new.items ≡ length users.old.items }
    ensures none { (l : ℕ) → slice_index users.new.items l ≡ 0 }
{
    for line in 0..users.len() {
        users[line] = 0;
    }
}

/// Counts how many places name each line.
fn recount<A: Allocator>(users: &mut Vec<usize, A>, named: &[usize])
    requires within { (p : ℕ) → slice_index named.now p ≢ 0
        → slice_index named.now p < length users.old.items }
    ensures len { length users.new.items ≡ length users.old.items }
    ensures counted { (l : ℕ) → l ≢ 0 → slice_index users.new.items l ≡ uses named.now l }
{
    clear(users);
    for line in named {
        join(users, *line);
    }
}

impl<A: Allocator> Names<A> {
    /// Packs the lines: the last ones move to where there are lines that no place names, and each place names its line
    /// where that went. It takes no memory.
    pub fn pack(&mut self, lines: &mut RecordedLines<A>)
        requires settled { self.old.log ≡ [] }
        requires steps { steps_in lines.old ≡ 0 }
        requires some { 0 < lines_in lines.old }
        requires fits { lines_in lines.old ≤ self.old.lines }
        requires within { (p : ℕ) → name_now self.old p ≢ 0
            → name_now self.old p < lines_in lines.old }
        ensures len { length self.new.named ≡ length self.old.named }
        ensures log { self.new.log ≡ [] }
        ensures steps { steps_in lines.new ≡ 0 }
        ensures fits { lines_in lines.new ≤ self.new.lines }
        ensures within { (p : ℕ) → name_now self.new p ≢ 0
            → name_now self.new p < lines_in lines.new }
        ensures named { (p : ℕ) → name_now self.new p ≡ 0 → name_now self.old p ≡ 0 }
        ensures now { (p t : ℕ) → now_in self.new lines.new p t ≡ now_in self.old lines.old p t }
        ensures first { (t : ℕ) → count_now lines.new 0 t ≡ count_now lines.old 0 t }
    {
        let end = fill_gaps(&mut self.users, lines);
        follow(&mut self.named, &self.users, end);
        self.users.truncate(end);
        recount(&mut self.users, &self.named);
    }
}
