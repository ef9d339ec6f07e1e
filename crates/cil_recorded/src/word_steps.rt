//! Steps of a word of one of several lines.

ghost use Rattle.std.specs.Prelude.{◌≡◌, ℕ, ◌+◌, ◌<◌, ◌≤◌, ◌^◌, OnOk, length};
ghost use Rattle.cil_lines.specs.Limit.{CanLower, CanRaise};
ghost use Rattle.cil_recorded.specs.Log.{hit_at};
ghost use Rattle.cil_recorded.specs.Recorded.{count_in, limit_in};

use cil_lines::Line;
use std::alloc::{AllocError, Allocator};

/// Makes room to raise each target of a mask. No counter changes.
pub fn make_room<A: Allocator + Copy>(
    lines: &mut Vec<Line<A>, A>,
    alloc: A,
    line: usize,
    word: usize,
    mask: u64,
) -> Result<(), AllocError>
    requires line { line < length lines.old.items }
    requires word { word < 2 ^ 58 }
    ensures len { length lines.new.items ≡ length lines.old.items }
    ensures room { OnOk result (CanRaise (count_in lines.new.items line) (limit_in lines.new.items line) word mask) }
    ensures now { (l t : ℕ) → count_in lines.new.items l t ≡ count_in lines.old.items l t }
    ensures limits { (l w : ℕ) → limit_in lines.old.items l w ≤ limit_in lines.new.items l w }
{
    let at = &mut lines[line];
    at.make_room(alloc, word, mask)
}

/// Adds 1 at each target of a mask.
pub fn raise<A: Allocator>(lines: &mut Vec<Line<A>, A>, line: usize, word: usize, mask: u64)
    requires line { line < length lines.old.items }
    requires room { CanRaise (count_in lines.old.items line) (limit_in lines.old.items line) word mask }
    ensures len { length lines.new.items ≡ length lines.old.items }
    ensures now { (l t : ℕ) → count_in lines.new.items l t ≡ count_in lines.old.items l t + hit_at line word mask l t }
    ensures limits { (l w : ℕ) → limit_in lines.old.items l w ≤ limit_in lines.new.items l w }
{
    let at = &mut lines[line];
    at.raise(word, mask);
}

/// Takes 1 away at each target of a mask.
pub fn lower<A: Allocator>(lines: &mut Vec<Line<A>, A>, line: usize, word: usize, mask: u64)
    requires line { line < length lines.old.items }
    requires above { CanLower (count_in lines.old.items line) word mask }
    ensures len { length lines.new.items ≡ length lines.old.items }
    ensures now { (l t : ℕ) → count_in lines.new.items l t + hit_at line word mask l t ≡ count_in lines.old.items l t }
    ensures limits { (l w : ℕ) → limit_in lines.old.items l w ≤ limit_in lines.new.items l w }
    ensures room { CanRaise (count_in lines.new.items line) (limit_in lines.new.items line) word mask }
{
    let at = &mut lines[line];
    at.lower(word, mask);
}

/// Gives up the places of a word of a line without a counter above 0.
pub fn give_up<A: Allocator>(lines: &mut Vec<Line<A>, A>, line: usize, word: usize)
    requires line { line < length lines.old.items }
    ensures len { length lines.new.items ≡ length lines.old.items }
    ensures now { (l t : ℕ) → count_in lines.new.items l t ≡ count_in lines.old.items l t }
{
    let at = &mut lines[line];
    at.give_up(word);
}
