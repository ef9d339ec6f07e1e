//! Places that name several lines, moved group by group.

ghost use Rattle.std.specs.Prelude.{◌≡◌, ◌+◌, ◌*◌, ◌<◌, ◌≤◌, ℕ, length, OnOk};
ghost use Rattle.cil_recorded.specs.Recorded.{count_before, count_now, lines_in};
ghost use Rattle.cil_keyed_lines.specs.Moves.{came, went, AreMoves};
ghost use Rattle.cil_keyed_lines.specs.Names.{name_before, name_now, times, AreLogged};
ghost use Rattle.cil_keyed_lines.specs.Keyed.{now_in, AreCounted, AreLines, AreNamed};

use crate::group::move_group;
use crate::moved::Moved;
use crate::named::{Named, run_len};
use crate::names::Names;
use cil_recorded::RecordedLines;
use std::alloc::{AllocError, Allocator};

/// Moves the counters of places, each group of those that stand beside one another and name one line together. After an
/// out of memory some groups may have moved.
pub fn move_places<A: Allocator + Copy>(
    names: &mut Names<A>,
    lines: &mut RecordedLines<A>,
    alloc: A,
    places: &[Named],
    moved: &[Moved],
) -> Result<(), AllocError>
    requires lined { AreLines names.old lines.old }
    requires counted { AreCounted names.old lines.old }
    requires named { AreNamed places.now names.old }
    requires moved { AreMoves moved.now }
    requires above { (p t : ℕ)
        → times places.now p * went moved.now t ≤ now_in names.old lines.old p t }
    ensures lined { AreLines names.new lines.new }
    ensures counted { AreCounted names.new lines.new }
    ensures lines { lines_in lines.old ≤ lines_in lines.new }
    ensures len { length names.new.named ≡ length names.old.named }
    ensures now { OnOk result ((p t : ℕ)
        → now_in names.new lines.new p t + times places.now p * went moved.now t
        ≡ now_in names.old lines.old p t + times places.now p * came moved.now t) }
    ensures bounded { (p t : ℕ)
        → now_in names.new lines.new p t ≤ now_in names.old lines.old p t + times places.now p * came moved.now t }
    ensures names_before { (p : ℕ) → name_before names.new p ≡ name_before names.old p }
    ensures before { (l t : ℕ) → l < lines_in lines.old → count_before lines.new l t
        ≡ count_before lines.old l t }
    ensures logged { AreLogged names.old → AreLogged names.new }
{
    let mut from = 0;
    while from < places.len() {
        let (_, rest) = places.split_at(from);
        let (group, _) = rest.split_at(run_len(rest));
        move_group(names, lines, alloc, group, moved)?;
        from += group.len();
    }
    Ok(())
}
