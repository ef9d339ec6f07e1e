//! The bits at a settling.

ghost use Rattle.std.specs.Prelude.{◌≡◌, ℕ, length};
ghost use Rattle.cil_member_rows.specs.Common.{IsPresence, count_now, bits_at, words_of, IsHeld};

use crate::bit_row::BitRow;
use crate::held;
use cil_recorded::RecordedLines;
use std::alloc::Allocator;

/// Lets the bits say who is a member now. Only words that a step was of may differ.
pub fn hold<A: Allocator>(rows: &RecordedLines<A>, held: &mut Vec<BitRow<A>, A>)
    requires { IsHeld held.old.items rows.now }
    ensures rows { length held.new.items ≡ length held.old.items }
    ensures words { (r : ℕ) → words_of held.new.items r ≡ words_of held.old.items r }
    ensures bits { (r w : ℕ) → IsPresence (count_now rows.now r) w (bits_at held.new.items r w) }
{
    for step in 0..rows.steps() {
        let place = rows.place(step);
        let present = rows.present(place.line, place.word);
        held::put(held, place.line, place.word, present);
    }
}
