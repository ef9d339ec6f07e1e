//! Moves of the counters of a line, word by word.

ghost use Rattle.std.specs.Prelude.{◌≡◌, ◌+◌, ◌*◌, ◌<◌, ◌≤◌, ℕ, length, OnOk};
ghost use Rattle.cil_lines.specs.Limit.{CanLower, CanRaise};
ghost use Rattle.cil_recorded.specs.Log.{hit_at};
ghost use Rattle.cil_recorded.specs.Recorded.{count_before, count_now, limit_now, lines_in, spare};
ghost use Rattle.cil_keyed_lines.specs.Moves.{came, in_line, went, AreMoves, HasRoomFrom, HasRoomTo};

use crate::moved::Moved;
use cil_recorded::RecordedLines;
use std::alloc::{AllocError, Allocator};

/// Makes room to raise what comes in each word once.
fn make_digits<A: Allocator + Copy>(
    lines: &mut RecordedLines<A>,
    alloc: A,
    line: usize,
    moved: &[Moved],
) -> Result<(), AllocError>
    requires line { line < lines_in lines.old }
    requires moved { AreMoves moved.now }
    ensures room { OnOk result (HasRoomTo lines.new line moved.now (length moved.now)) }
    ensures spare { spare lines.new ≡ spare lines.old }
    ensures lines { lines_in lines.new ≡ lines_in lines.old }
    ensures now { (l t : ℕ) → count_now lines.new l t ≡ count_now lines.old l t }
    ensures before { (l t : ℕ) → count_before lines.new l t ≡ count_before lines.old l t }
{
    for step in moved {
        lines.make_room(alloc, line, step.word, step.come)?;
    }
    Ok(())
}

/// Makes room to move the counters of a line. No counter changes.
pub fn make_room<A: Allocator + Copy>(
    lines: &mut RecordedLines<A>,
    alloc: A,
    line: usize,
    moved: &[Moved],
) -> Result<(), AllocError>
    requires line { line < lines_in lines.old }
    requires moved { AreMoves moved.now }
    ensures room { OnOk result (HasRoomTo lines.new line moved.now (length moved.now)) }
    ensures spare { OnOk result (2 * length moved.now ≤ spare lines.new) }
    ensures lines { lines_in lines.new ≡ lines_in lines.old }
    ensures now { (l t : ℕ) → count_now lines.new l t ≡ count_now lines.old l t }
    ensures before { (l t : ℕ) → count_before lines.new l t ≡ count_before lines.old l t }
{
    let steps = moved.len().checked_mul(2).ok_or(AllocError)?;
    lines.reserve(steps)?;
    make_digits(lines, alloc, line, moved)
}

/// Takes 1 from the counter of each target of a mask. An empty mask makes no step.
fn lower<A: Allocator>(lines: &mut RecordedLines<A>, line: usize, word: usize, mask: u64)
    requires line { line < lines_in lines.old }
    requires log { 0 < spare lines.old }
    requires above { CanLower (count_now lines.old line) word mask }
    ensures lines { lines_in lines.new ≡ lines_in lines.old }
    ensures spare { spare lines.old ≤ spare lines.new + 1 }
    ensures now { (l t : ℕ) → count_now lines.new l t + hit_at line word mask l t
        ≡ count_now lines.old l t }
    ensures before { (l t : ℕ) → count_before lines.new l t ≡ count_before lines.old l t }
    ensures limits { (l w : ℕ) → limit_now lines.old l w ≤ limit_now lines.new l w }
{
    if mask == 0 {
        return;
    }
    lines.lower(line, word, mask);
}

/// Adds 1 to the counter of each target of a mask. An empty mask makes no step.
fn raise<A: Allocator>(lines: &mut RecordedLines<A>, line: usize, word: usize, mask: u64)
    requires line { line < lines_in lines.old }
    requires log { 0 < spare lines.old }
    requires room { CanRaise (count_now lines.old line) (limit_now lines.old line) word mask }
    ensures lines { lines_in lines.new ≡ lines_in lines.old }
    ensures spare { spare lines.old ≤ spare lines.new + 1 }
    ensures now { (l t : ℕ) → count_now lines.new l t
        ≡ count_now lines.old l t + hit_at line word mask l t }
    ensures before { (l t : ℕ) → count_before lines.new l t ≡ count_before lines.old l t }
    ensures limits { (l w : ℕ) → limit_now lines.old l w ≤ limit_now lines.new l w }
{
    if mask == 0 {
        return;
    }
    lines.raise(line, word, mask);
}

/// Takes 1 from the counter of each target that goes from a line, and adds 1 to that of each target that comes. It takes
/// no memory.
pub fn move_line<A: Allocator>(lines: &mut RecordedLines<A>, line: usize, moved: &[Moved])
    requires line { line < lines_in lines.old }
    requires moved { AreMoves moved.now }
    requires above { (t : ℕ) → went moved.now t ≤ count_now lines.old line t }
    requires room { HasRoomTo lines.old line moved.now (length moved.now) }
    requires spare { 2 * length moved.now ≤ spare lines.old }
    ensures lines { lines_in lines.new ≡ lines_in lines.old }
    ensures now { (l t : ℕ) → count_now lines.new l t + in_line line (went moved.now) l t
        ≡ count_now lines.old l t + in_line line (came moved.now) l t }
    ensures before { (l t : ℕ) → count_before lines.new l t ≡ count_before lines.old l t }
{
    for step in moved {
        lower(lines, line, step.word, step.gone);
        raise(lines, line, step.word, step.come);
    }
}
