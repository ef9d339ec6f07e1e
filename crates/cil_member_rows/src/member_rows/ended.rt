//! Words that are left without counters once steps have ended.

ghost use Rattle.std.specs.Prelude.{◌≡◌, ℕ};
ghost use Rattle.cil_member_rows.specs.Common.{count_before, count_now, lines_in, steps_in};

use cil_recorded::{RecordedLines, Step};
use std::alloc::Allocator;

/// Gives up the places of the words of steps that have no counter above 0. The list of the steps is emptied, and goes back to the log. It
/// takes no memory.
pub fn give_up<A: Allocator>(rows: &mut RecordedLines<A>, steps: &mut Vec<Step, A>)
    requires { steps_in rows.old ≡ 0 }
    ensures lines { lines_in rows.new ≡ lines_in rows.old }
    ensures steps { steps_in rows.new ≡ 0 }
    ensures now { (r t : ℕ) → count_now rows.new r t ≡ count_now rows.old r t }
    ensures before { (r t : ℕ) → count_before rows.new r t ≡ count_now rows.old r t }
{
    rows.give_up_words(steps);
    rows.settle_into(steps);
}
