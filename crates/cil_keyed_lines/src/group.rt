//! Places that name one line, moved together.

ghost use Rattle.std.specs.Prelude.{◌≡◌, ◌+◌, ◌*◌, ◌<◌, ◌≤◌, ℕ, length, OnErr, OnOk};
ghost use Rattle.cil_recorded.specs.Recorded.{count_before, count_now, lines_in};
ghost use Rattle.cil_keyed_lines.specs.Moves.{came, went, AreMoves};
ghost use Rattle.cil_keyed_lines.specs.Names.{name_before, name_now, times, AreLogged};
ghost use Rattle.cil_keyed_lines.specs.Keyed.{named_at, now_in, AreCounted, AreLines, AreNamed, AreOf};

use crate::line_moves::move_line;
use crate::moved::Moved;
use crate::named::Named;
use crate::names::Names;
use crate::reach::{reach, rename_all};
use cil_recorded::RecordedLines;
use std::alloc::{AllocError, Allocator};

/// A word that moves, or 0.
fn near(moved: &[Moved]) -> usize {
    match moved.first() {
        Some(step) => step.word,
        None => 0,
    }
}

/// Moves the counters of the line that all places of a group name, and no others'. Where other places name the line too,
/// the group gets a copy. Where no counter is left above 0 the places name line 0. All memory is taken before a counter
/// changes.
pub fn move_group<A: Allocator + Copy>(
    names: &mut Names<A>,
    lines: &mut RecordedLines<A>,
    alloc: A,
    group: &[Named],
    moved: &[Moved],
) -> Result<(), AllocError>
    requires lined { AreLines names.old lines.old }
    requires counted { AreCounted names.old lines.old }
    requires some { 0 < length group.now }
    requires named { AreNamed group.now names.old }
    requires line { AreOf (named_at group.now 0).line group.now }
    requires moved { AreMoves moved.now }
    requires above { (t : ℕ)
        → went moved.now t ≤ count_now lines.old (named_at group.now 0).line t }
    ensures lined { AreLines names.new lines.new }
    ensures counted { AreCounted names.new lines.new }
    ensures lines { lines_in lines.old ≤ lines_in lines.new }
    ensures len { length names.new.named ≡ length names.old.named }
    ensures now { OnOk result ((p t : ℕ)
        → now_in names.new lines.new p t + times group.now p * went moved.now t
        ≡ now_in names.old lines.old p t + times group.now p * came moved.now t) }
    ensures kept { OnErr result ((p t : ℕ) → now_in names.new lines.new p t
        ≡ now_in names.old lines.old p t) }
    ensures others { (p : ℕ) → times group.now p ≡ 0 → name_now names.new p ≡ name_now names.old p }
    ensures names_before { (p : ℕ) → name_before names.new p ≡ name_before names.old p }
    ensures before { (l t : ℕ) → l < lines_in lines.old → count_before lines.new l t
        ≡ count_before lines.old l t }
    ensures logged { AreLogged names.old → AreLogged names.new }
{
    let line = reach(names, lines, alloc, group, moved)?;
    move_line(lines, line, moved);
    if !lines.is_clear(line, near(moved)) {
        return Ok(());
    }
    rename_all(names, group, 0);
    Ok(())
}
