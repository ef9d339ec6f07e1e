//! Lines that the places of a group have for themselves.

ghost use Rattle.std.specs.Prelude.{◌≡◌, ◌≢◌, ◌+◌, ◌*◌, ◌<◌, ◌≤◌, ◌==◌, ℕ, length, true, if◌then◌else◌, IfOk, OnErr, OnOk};
ghost use Rattle.cil_recorded.specs.Recorded.{count_before, count_now, lines_in, spare};
ghost use Rattle.cil_keyed_lines.specs.Moves.{AreMoves, HasRoomTo};
ghost use Rattle.cil_keyed_lines.specs.Names.{has_place, name_before, name_now, one_if, times, AreLogged};
ghost use Rattle.cil_keyed_lines.specs.Keyed.{named_at, AreLines, AreNamed, AreOf, Names};
ghost use Rattle.std.specs.List.{All};

use crate::line_moves::make_room;
use crate::moved::Moved;
use crate::named::Named;
use crate::names::Names;
use cil_recorded::RecordedLines;
use std::alloc::{AllocError, Allocator};

/// Puts in line 0 where there is no line.
fn put_first<A: Allocator + Copy>(
    names: &mut Names<A>,
    lines: &mut RecordedLines<A>,
    alloc: A,
) -> Result<(), AllocError>
    requires lined { AreLines names.old lines.old }
    ensures some { OnOk result (0 < lines_in lines.new) }
    ensures lined { AreLines names.new lines.new }
    ensures lines { lines_in lines.old ≤ lines_in lines.new }
    ensures now { (l t : ℕ) → count_now lines.new l t ≡ count_now lines.old l t }
    ensures before { (l t : ℕ) → count_before lines.new l t ≡ count_before lines.old l t }
    ensures named { names.new.named ≡ names.old.named }
    ensures log { names.new.log ≡ names.old.log }
    ensures room { names.new.room ≡ names.old.room }
{
    if lines.is_empty() {
        names.make_line(0)?;
        lines.put_in(alloc)?;
    }
    Ok(())
}

/// Puts in a copy of a line behind the others, and answers its place.
fn put_copy<A: Allocator + Copy>(
    names: &mut Names<A>,
    lines: &mut RecordedLines<A>,
    alloc: A,
    line: usize,
) -> Result<usize, AllocError>
    requires lined { AreLines names.old lines.old }
    requires line { line ≢ 0 → line < lines_in lines.old }
    ensures place { IfOk result (λ l. (l ≢ 0) × (lines_in lines.old ≤ l)
        × (l < lines_in lines.new)) }
    ensures copy { IfOk result (λ l. (t : ℕ) → count_now lines.new l t
        ≡ count_now lines.old line t) }
    ensures lined { AreLines names.new lines.new }
    ensures lines { lines_in lines.old ≤ lines_in lines.new }
    ensures now { (l t : ℕ) → l < lines_in lines.old → count_now lines.new l t
        ≡ count_now lines.old l t }
    ensures before { (l t : ℕ) → l < lines_in lines.old → count_before lines.new l t
        ≡ count_before lines.old l t }
    ensures named { names.new.named ≡ names.old.named }
    ensures log { names.new.log ≡ names.old.log }
    ensures room { names.new.room ≡ names.old.room }
{
    put_first(names, lines, alloc)?;
    let copy = lines.len();
    names.make_line(copy)?;
    lines.put_copy(alloc, line)?;
    Ok(copy)
}

/// The line of the places of a group, if no other place names it, or else a copy of it.
fn own_line<A: Allocator + Copy>(
    names: &mut Names<A>,
    lines: &mut RecordedLines<A>,
    alloc: A,
    group: &[Named],
) -> Result<usize, AllocError>
    requires lined { AreLines names.old lines.old }
    requires some { 0 < length group.now }
    requires named { AreNamed group.now names.old }
    requires line { AreOf (named_at group.now 0).line group.now }
    ensures line { IfOk result (λ l. (l ≢ 0) × (l < lines_in lines.new)) }
    ensures own { IfOk result (λ l. (p : ℕ) → times group.now p ≡ 0 → name_now names.new p ≢ l) }
    ensures copy { IfOk result (λ l. (t : ℕ) → count_now lines.new l t
        ≡ count_now lines.old (named_at group.now 0).line t) }
    ensures lined { AreLines names.new lines.new }
    ensures lines { lines_in lines.old ≤ lines_in lines.new }
    ensures now { (l t : ℕ) → l < lines_in lines.old → count_now lines.new l t
        ≡ count_now lines.old l t }
    ensures before { (l t : ℕ) → l < lines_in lines.old → count_before lines.new l t
        ≡ count_before lines.old l t }
    ensures named { names.new.named ≡ names.old.named }
    ensures log { names.new.log ≡ names.old.log }
    ensures room { names.new.room ≡ names.old.room }
{
    let line = group[0].line;
    if line != 0 && names.users(line) == group.len() {
        return Ok(line);
    }
    put_copy(names, lines, alloc, line)
}

/// Lets the places of a group name a line. It takes no memory.
pub fn rename_all<A: Allocator>(names: &mut Names<A>, group: &[Named], line: usize)
    requires places { All (λ x. x.place < length names.old.named) group.now }
    requires line { line ≢ 0 → line < names.old.lines }
    requires room { length group.now ≤ names.old.room }
    ensures len { length names.new.named ≡ length names.old.named }
    ensures lines { names.new.lines ≡ names.old.lines }
    ensures room { names.old.room ≤ names.new.room + length group.now }
    ensures now { (p : ℕ) → name_now names.new p
        ≡ (if times group.now p == 0 then name_now names.old p else line) }
    ensures before { (p : ℕ) → name_before names.new p ≡ name_before names.old p }
    ensures logged { AreLogged names.old → AreLogged names.new }
{
    for member in group {
        names.rename(member.place, line);
    }
}

/// Lets the places of a group name a line that no other place names, unless they do. It takes no memory.
fn give_line<A: Allocator>(names: &mut Names<A>, group: &[Named], line: usize)
    requires some { 0 < length group.now }
    requires named { AreNamed group.now names.old }
    requires same { AreOf (named_at group.now 0).line group.now }
    requires line { line < names.old.lines }
    requires own { (p : ℕ) → times group.now p ≡ 0 → name_now names.old p ≢ line }
    requires room { 2 * length group.now ≤ names.old.room }
    ensures len { length names.new.named ≡ length names.old.named }
    ensures lines { names.new.lines ≡ names.old.lines }
    ensures room { length group.now ≤ names.new.room }
    ensures own { (p : ℕ) → times group.now p ≡ one_if (name_now names.new p == line) }
    ensures others { (p : ℕ) → times group.now p ≡ 0 → name_now names.new p ≡ name_now names.old p }
    ensures before { (p : ℕ) → name_before names.new p ≡ name_before names.old p }
    ensures logged { AreLogged names.old → AreLogged names.new }
{
    if line == group[0].line {
        return;
    }
    rename_all(names, group, line);
}

/// Makes the places of a group the only ones that name their line, which has room to move its counters, and answers the
/// line. No counter of a place changes. The places can be renamed once more without memory.
pub fn reach<A: Allocator + Copy>(
    names: &mut Names<A>,
    lines: &mut RecordedLines<A>,
    alloc: A,
    group: &[Named],
    moved: &[Moved],
) -> Result<usize, AllocError>
    requires lined { AreLines names.old lines.old }
    requires some { 0 < length group.now }
    requires named { AreNamed group.now names.old }
    requires line { AreOf (named_at group.now 0).line group.now }
    requires moved { AreMoves moved.now }
    ensures line { IfOk result (λ l. (l ≢ 0) × (l < lines_in lines.new)) }
    ensures own { IfOk result (λ l. (p : ℕ) → times group.now p
        ≡ one_if (name_now names.new p == l)) }
    ensures copy { IfOk result (λ l. (t : ℕ) → count_now lines.new l t
        ≡ count_now lines.old (named_at group.now 0).line t) }
    ensures digits { IfOk result (λ l. HasRoomTo lines.new l moved.now (length moved.now)) }
    ensures spare { OnOk result (2 * length moved.now ≤ spare lines.new) }
    ensures room { OnOk result (length group.now ≤ names.new.room) }
    ensures lined { AreLines names.new lines.new }
    ensures lines { lines_in lines.old ≤ lines_in lines.new }
    ensures now { (l t : ℕ) → l < lines_in lines.old → count_now lines.new l t
        ≡ count_now lines.old l t }
    ensures before { (l t : ℕ) → l < lines_in lines.old → count_before lines.new l t
        ≡ count_before lines.old l t }
    ensures len { length names.new.named ≡ length names.old.named }
    ensures kept { OnErr result (names.new.named ≡ names.old.named) }
    ensures others { (p : ℕ) → times group.now p ≡ 0 → name_now names.new p ≡ name_now names.old p }
    ensures names_before { (p : ℕ) → name_before names.new p ≡ name_before names.old p }
    ensures logged { AreLogged names.old → AreLogged names.new }
{
    let changes = group.len().checked_mul(2).ok_or(AllocError)?;
    names.reserve(changes)?;
    let line = own_line(names, lines, alloc, group)?;
    make_room(lines, alloc, line, moved)?;
    give_line(names, group, line);
    Ok(line)
}
