//! Which targets came and went.

ghost use Rattle.std.specs.Prelude.{◌≡◌, ℕ, ◌+◌, ◌-◌, ◌*◌, min, IfOk};
ghost use Rattle.cil_recorded.specs.Differences.{alone_at, appeared_at, balance_at, change_key, gone_at, low_at, turn_key, Ascends};
ghost use Rattle.cil_recorded.specs.Recorded.{count_before, count_now};

use crate::recorded_lines::RecordedLines;
use crate::turn::{Turn, net_turns};
use std::alloc::{AllocError, Allocator};

/// The targets of a word of a line whose counters were 0 and are above 0, and those whose counters were above 0 and are
/// 0.
#[derive(Clone, Copy, PartialEq, Eq)]
pub struct Change {
    pub line: usize,
    pub word: usize,
    pub appeared: u64,
    pub gone: u64,
}

/// The targets of turns that appeared on the whole, where the balance is 1, and those that went, where it is 3.
fn split<A: Allocator + Copy>(alloc: A, turns: &[Turn]) -> Result<Vec<Change, A>, AllocError>
    requires { Ascends turn_key 0 turns.now }
    ensures order { IfOk result (λ v. Ascends change_key 0 v.items) }
    ensures balance { IfOk result (λ v. (l t : ℕ) → balance_at turns.now l t ≡ appeared_at v.items l t + 3 * gone_at v.items l t + 2 * alone_at turns.now l t) }
    ensures low { IfOk result (λ v. (l t : ℕ) → appeared_at v.items l t + gone_at v.items l t ≡ low_at turns.now l t) }
{
    let mut changes = Vec::with_capacity(alloc, turns.len())?;
    for turn in turns {
        if turn.low != 0 {
            let gone = turn.low & turn.high;
            changes.push(Change {
                line: turn.line as usize,
                word: turn.word as usize,
                appeared: turn.low ^ gone,
                gone,
            })?;
        }
    }
    Ok(changes)
}

impl<A: Allocator + Copy> RecordedLines<A> {
    /// Which targets appeared and which went since the last settling, by line and word. A word where none did is left
    /// out. No line is looked at, but for the log of their steps.
    pub fn changes(&self, alloc: A) -> Result<Vec<Change, A>, AllocError>
        ensures order { IfOk result (λ v. Ascends change_key 0 v.items) }
        ensures appeared { IfOk result (λ v. (l t : ℕ) → appeared_at v.items l t ≡ min 1 (count_now self.now l t) - min 1 (count_before self.now l t)) }
        ensures gone { IfOk result (λ v. (l t : ℕ) → gone_at v.items l t ≡ min 1 (count_before self.now l t) - min 1 (count_now self.now l t)) }
    {
        let turns = net_turns(alloc, &self.log)?;
        split(alloc, &turns)
    }
}
