//! The counters of the keys of some sources, moved from the targets that these had to those that
//! they have.

ghost use Rattle.std.specs.Prelude.{◌≡◌, ◌≤◌, ◌*◌, ◌-◌, ◌^◌, ℕ, false, true, length, min, nat_eq, IfOk, OnOk};
ghost use Rattle.cil_keyed_lines.specs.Keyed.{of_keys, steps_in, RiseAtMost, StaysBefore};
ghost use Rattle.cil_keyed_lines.specs.Moves.{came, ones_of, went};
ghost use Rattle.cil_rule_shifts.specs.Amounts.{AreMoved};
ghost use Rattle.cil_rule_shifts.specs.Groups.{is_among, AreShifted, ArePlain, AreMovesOf, CanMove, CanShift};
ghost use Rattle.cil_rule_shifts.specs.Reach.{takes};

use crate::head::RuleHead;
use crate::keys::{keys_of, keys_of_source};
use crate::moved::{moved_of, only_move};
use crate::reach::{Sources, has_sources, next_source};
use crate::targets::Targets;
use cil_keyed_lines::{KeyedLines, Moved, SymbolKey};
use std::alloc::{AllocError, Allocator, Global};
use std::slice::from_ref;

/// Some sources of a rule with the targets that they had and those that they have, and whether their
/// counters move for good. Otherwise the steps are logged, so that they can be taken back.
#[derive(Clone, Copy)]
pub struct Group<'r, A: Allocator = Global> {
    pub head: RuleHead<'r>,
    pub sources: Sources<'r, A>,
    pub was: &'r Targets<A>,
    pub is: &'r Targets<A>,
    pub for_good: bool,
}

/// Moves the counters of keys alike, and answers how many moved. Where nothing moves, no key is put
/// in.
fn shift_keys<A: Allocator + Copy>(
    lines: &mut KeyedLines<A>,
    alloc: A,
    keys: &[SymbolKey],
    moved: &[Moved],
    for_good: bool,
) -> Result<u128, AllocError>
    requires keys { CanMove lines.old keys.now moved.now }
    requires settled { for_good ≡ true → steps_in lines.old ≡ 0 }
    ensures settled { for_good ≡ true → steps_in lines.new ≡ 0 }
    ensures now { OnOk result (AreMoved lines.old lines.new
        (of_keys keys.now (went moved.now)) (of_keys keys.now (came moved.now))) }
    ensures bounded { RiseAtMost lines.old lines.new (of_keys keys.now (came moved.now)) }
    ensures before { for_good ≡ false → StaysBefore lines.old lines.new }
    ensures moved { IfOk result
        (λ n. n ≡ min (length keys.now * ones_of moved.now) (2 ^ 128 - 1)) }
{
    if moved.is_empty() {
        return Ok(0);
    }
    if for_good {
        lines.add(alloc, keys, moved)
    } else {
        lines.shift(alloc, keys, moved)
    }
}

impl<A: Allocator + Copy> Group<'_, A> {
    /// Moves the counters of the keys of the sources at once, and answers how many moved. All
    /// sources have the same targets.
    fn shift_alike(self, lines: &mut KeyedLines<A>, alloc: A) -> Result<u128, AllocError>
        requires alike { ArePlain self.was.now }
        requires alike_now { ArePlain self.is.now }
        requires group { CanShift (is_among self.sources) self lines.old }
        ensures { AreShifted (is_among self.entry.sources) self.entry lines.old lines.new result }
    {
        if let Some(step) = only_move(0, self.was, self.is) {
            return self.shift_by(lines, alloc, from_ref(&step));
        }
        let moved = moved_of(alloc, 0, self.was, self.is)?;
        if moved.is_empty() {
            return Ok(0);
        }
        self.shift_by(lines, alloc, &moved)
    }

    /// The same, by what moves at each source.
    fn shift_by(
        self,
        lines: &mut KeyedLines<A>,
        alloc: A,
        moved: &[Moved],
    ) -> Result<u128, AllocError>
        requires alike { ArePlain self.was.now }
        requires alike_now { ArePlain self.is.now }
        requires group { CanShift (is_among self.sources) self lines.old }
        requires moves { AreMovesOf (takes self.was.now 0) (takes self.is.now 0) moved.now }
        ensures { AreShifted (is_among self.entry.sources) self.entry lines.old lines.new result }
    {
        let empty = lines.take_keys(alloc);
        let keys = keys_of(empty, self.sources, self.head)?;
        let count = shift_keys(lines, alloc, &keys, moved, self.for_good);
        lines.keep_keys(keys);
        count
    }

    /// Moves the counters of the keys of one source from the targets that it had to those that it
    /// has, and answers how many moved.
    fn shift_source(
        self,
        lines: &mut KeyedLines<A>,
        alloc: A,
        source: usize,
    ) -> Result<u128, AllocError>
        requires { CanShift (nat_eq source) self lines.old }
        ensures { AreShifted (nat_eq source) self.entry lines.old lines.new result }
    {
        let moved = moved_of(alloc, source, self.was, self.is)?;
        let empty = lines.take_keys(alloc);
        let keys = keys_of_source(empty, source, self.head)?;
        let count = shift_keys(lines, alloc, &keys, &moved, self.for_good);
        lines.keep_keys(keys);
        count
    }

    /// Moves the counters of the keys of the sources, source by source, and answers how many moved.
    fn shift_each(self, lines: &mut KeyedLines<A>, alloc: A) -> Result<u128, AllocError>
        requires { CanShift (is_among self.sources) self lines.old }
        ensures { AreShifted (is_among self.entry.sources) self.entry lines.old lines.new result }
    {
        let mut moved: u128 = 0;
        let mut from = 0;
        while let Some(source) = next_source(self.sources, from) {
            let here = self.shift_source(lines, alloc, source)?;
            moved = moved.saturating_add(here);
            from = source + 1;
        }
        Ok(moved)
    }

    /// Moves the counters of the keys of the sources, and answers how many moved. Where there is no
    /// source nothing moves, whatever the targets. They move source by source where the target of
    /// each source was or is itself; where it was and is, nothing moves.
    pub fn shift(self, lines: &mut KeyedLines<A>, alloc: A) -> Result<u128, AllocError>
        requires { CanShift (is_among self.sources) self lines.old }
        ensures { AreShifted (is_among self.entry.sources) self.entry lines.old lines.new result }
    {
        if has_sources(self.sources) {
            self.shift_some(lines, alloc)
        } else {
            Ok(0)
        }
    }

    /// The same, where there is a source.
    fn shift_some(self, lines: &mut KeyedLines<A>, alloc: A) -> Result<u128, AllocError>
        requires { CanShift (is_among self.sources) self lines.old }
        ensures { AreShifted (is_among self.entry.sources) self.entry lines.old lines.new result }
    {
        match (self.was.is_itself(), self.is.is_itself()) {
            (true, true) => Ok(0),
            (false, false) => self.shift_alike(lines, alloc),
            _ => self.shift_each(lines, alloc),
        }
    }
}
