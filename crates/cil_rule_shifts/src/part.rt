//! The counters of the keys of a part of the sources of a rule, moved from what it gave to what it
//! gives.

ghost use Rattle.std.specs.Prelude.{◌≡◌, ℕ, false, true, IfOk, OnOk};
ghost use Rattle.cil_keyed_lines.specs.Keyed.{steps_in, RiseAtMost, StaysBefore};
ghost use Rattle.cil_rule_shifts.specs.Amounts.{ones, AreMoved, CountAtLeast};
ghost use Rattle.cil_rule_shifts.specs.Groups.{gives_part, moves_part, AreSources, AreTargetsOf, IsGroup};
ghost use Rattle.cil_rule_shifts.specs.Permits.{AreInOrder};
ghost use Rattle.cil_rule_shifts.specs.Reach.{takes};
ghost use Rattle.cil_sums.specs.Rises.{RisesBy};

use crate::group::Group;
use crate::head::RuleHead;
use crate::reach::{Part, Sources};
use crate::targets::Targets;
use cil_keyed_lines::KeyedLines;
use std::alloc::{AllocError, Allocator};

/// Sources with the targets that they had and those that they have: none where they were no sources,
/// or are none.
fn group_of<'r, A: Allocator + Copy>(
    head: RuleHead<'r>,
    sources: Sources<'r, A>,
    none: &'r Targets<A>,
    for_good: bool,
) -> Group<'r, A>
    requires permits { AreInOrder head.permits.now }
    requires sources { AreSources sources }
    requires none { (s t : ℕ) → takes none.now s t ≡ false }
    ensures group { IsGroup result }
    ensures head { result.head ≡ head.entry }
    ensures sources { result.sources ≡ sources.entry }
    ensures was { AreTargetsOf sources.entry sources.entry.was.now result.was.now }
    ensures is { AreTargetsOf sources.entry sources.entry.is.now result.is.now }
    ensures for_good { result.for_good ≡ for_good }
{
    let (was, is) = match sources.part {
        Part::Lost => (&sources.was.targets, none),
        Part::Kept => (&sources.was.targets, &sources.is.targets),
        Part::Got => (none, &sources.is.targets),
    };
    Group {
        head,
        sources,
        was,
        is,
        for_good,
    }
}

/// Moves the counters of what a rule gave some sources by its kind and permits to those of what it
/// gives them, and answers how many moved. Where they move for good there is no step to take back,
/// and none is logged.
pub fn shift_part<A: Allocator + Copy>(
    lines: &mut KeyedLines<A>,
    alloc: A,
    head: RuleHead<'_>,
    sources: Sources<'_, A>,
    for_good: bool,
) -> Result<u128, AllocError>
    requires permits { AreInOrder head.permits.now }
    requires sources { AreSources sources }
    requires counted { CountAtLeast lines.old (ones (gives_part sources sources.was.now head)) }
    requires settled { for_good ≡ true → steps_in lines.old ≡ 0 }
    ensures settled { for_good ≡ true → steps_in lines.new ≡ 0 }
    ensures now { OnOk result (AreMoved lines.old lines.new
        (ones (gives_part sources.entry sources.entry.was.now head.entry))
        (ones (gives_part sources.entry sources.entry.is.now head.entry))) }
    ensures bounded { RiseAtMost lines.old lines.new
        (ones (gives_part sources.entry sources.entry.is.now head.entry)) }
    ensures before { for_good ≡ false → StaysBefore lines.old lines.new }
    ensures moved { IfOk result (RisesBy (moves_part sources.entry head.entry) 0) }
{
    let none = Targets::Nothing;
    group_of(head, sources, &none, for_good).shift(lines, alloc)
}
