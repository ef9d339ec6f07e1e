//! The counters of keyed lines, raised by what a rule gives, for good.

ghost use Rattle.std.specs.Prelude.{◌≡◌, IfOk, OnOk};
ghost use Rattle.cil_keyed_lines.specs.Keyed.{steps_in, RiseAtMost};
ghost use Rattle.cil_rule_shifts.specs.Amounts.{ones, AreRaised};
ghost use Rattle.cil_rule_shifts.specs.Reach.{grants, IsGrant};
ghost use Rattle.cil_sums.specs.Rises.{RisesBy};

use crate::grant::Grant;
use crate::head::RuleHead;
use crate::part::shift_part;
use crate::reach::{Part, Reach, Sources};
use cil_keyed_lines::KeyedLines;
use cil_text::RuleKind;
use std::alloc::{AllocError, Allocator};

/// Adds 1 to the counter of each access that a rule of a kind gives, and answers how many these are,
/// or the greatest `u128` where they are more. There is no step to take back, and none is logged.
/// After an out of memory some counters may have risen, none by more than 1.
pub fn put_rule<A: Allocator + Copy>(
    lines: &mut KeyedLines<A>,
    alloc: A,
    kind: RuleKind,
    is: Grant<'_, A>,
) -> Result<u128, AllocError>
    requires is { IsGrant is }
    requires settled { steps_in lines.old ≡ 0 }
    ensures settled { steps_in lines.new ≡ 0 }
    ensures now { OnOk result (AreRaised lines.old lines.new (ones (grants kind is.entry))) }
    ensures bounded { RiseAtMost lines.old lines.new (ones (grants kind is.entry)) }
    ensures given { IfOk result (RisesBy (grants kind is.entry) 0) }
{
    let head = RuleHead {
        kind,
        permits: is.permits,
    };
    let none = Reach::none(alloc);
    let sources = Sources {
        part: Part::Got,
        was: &none,
        is: is.reach,
    };
    shift_part(lines, alloc, head, sources, true)
}
