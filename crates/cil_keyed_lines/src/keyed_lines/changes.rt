//! Which targets of keys appeared and which went.

ghost use Rattle.std.specs.Prelude.{◌≡◌, ◌+◌, ◌-◌, ℕ, bit_and, min, IfOk, OnOk};
ghost use Rattle.std.specs.Int.{bit_not, w64};
ghost use Rattle.cil_recorded.specs.Log.{hit_at};
ghost use Rattle.cil_recorded.specs.Differences.{appeared_at, change_key, gone_at, Ascends};
ghost use Rattle.cil_keyed_lines.specs.Keyed.{before_at, now_at};
ghost use Rattle.cil_keyed_lines.specs.Changes.{AreBelow, AreChanged};
ghost use Rattle.cil_keyed_lines.specs.Past.{IsPast};

use crate::keyed_lines::KeyedLines;
use crate::keyed_lines::past::Past;
use cil_recorded::Change;
use std::alloc::{AllocError, Allocator};

/// Appends the change of a word of a place from the targets that had counters to those that have, where they differ.
fn push_change<A: Allocator>(
    changes: &mut Vec<Change, A>,
    place: usize,
    word: usize,
    was: u64,
    is: u64,
) -> Result<(), AllocError>
    requires { AreBelow changes.old.items place word }
    ensures below { OnOk result (AreBelow changes.new.items place (word + 1)) }
    ensures appeared { OnOk result ((l t : ℕ) → appeared_at changes.new.items l t
        ≡ appeared_at changes.old.items l t + hit_at place word (bit_and is (bit_not w64 was)) l t) }
    ensures gone { OnOk result ((l t : ℕ) → gone_at changes.new.items l t
        ≡ gone_at changes.old.items l t + hit_at place word (bit_and was (bit_not w64 is)) l t) }
{
    if was == is {
        return Ok(());
    }
    changes.push(Change {
        line: place,
        word,
        appeared: is & !was,
        gone: was & !is,
    })?;
    Ok(())
}

impl<A: Allocator + Copy> KeyedLines<A> {
    /// Appends the changes of the key of a place to those of the places before it.
    fn push_changes(
        &self,
        changes: &mut Vec<Change, A>,
        past: &Past<A>,
        place: usize,
    ) -> Result<(), AllocError>
        requires past { IsPast self.now past.now }
        requires below { AreBelow changes.old.items place 0 }
        ensures below { OnOk result (AreBelow changes.new.items (place + 1) 0) }
        ensures changed { OnOk result (AreChanged self.now place changes.old.items changes.new.items) }
    {
        if self.is_same(past, place) {
            return Ok(());
        }
        let mut from = 0;
        while let Some(word) = self.next_turned_word(past, place, from) {
            let was = self.present_before(past, place, word);
            let is = self.present(place, word);
            push_change(changes, place, word, was, is)?;
            from = word.checked_add(1).ok_or(AllocError)?;
        }
        Ok(())
    }

    /// Which targets appeared and which went since the last settling, by the place of the key and by word. A word where none
    /// did is left out. The greatest `usize` as a word, which no line has, would be answered as out of memory.
    pub fn changes(&self, alloc: A) -> Result<Vec<Change, A>, AllocError>
        ensures order { IfOk result (λ v. Ascends change_key 0 v.items) }
        ensures appeared { IfOk result (λ v. (i t : ℕ) → appeared_at v.items i t
            ≡ min 1 (now_at self.now i t) - min 1 (before_at self.now i t)) }
        ensures gone { IfOk result (λ v. (i t : ℕ) → gone_at v.items i t
            ≡ min 1 (before_at self.now i t) - min 1 (now_at self.now i t)) }
    {
        let past = self.past(alloc)?;
        let mut changes = Vec::new(alloc);
        for place in 0..self.len() {
            self.push_changes(&mut changes, &past, place)?;
        }
        Ok(changes)
    }
}
