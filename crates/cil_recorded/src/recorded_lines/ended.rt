//! Lines that are left without counters once steps have ended.

ghost use Rattle.std.specs.Prelude.{◌≡◌, ◌≢◌, ℕ, ◌+◌, ◌<◌, ◌⊎◌, false, length, min, slice_index_or, true};
ghost use Rattle.cil_recorded.specs.Log.{falls, has_line};
ghost use Rattle.cil_recorded.specs.Recorded.{count_before, count_now, lines_in, steps_in, HasCount};

use crate::recorded_lines::RecordedLines;
use crate::step::Step;
use crate::word_steps;
use std::alloc::Allocator;
use std::mem;

/// Lets a step be of a line behind the last one.
fn mark_counted<A: Allocator>(steps: &mut Vec<Step, A>, i: usize, line: usize)
    requires { i < length steps.old.items }
    ensures len { length steps.new.items ≡ length steps.old.items }
    ensures others { (l : ℕ) (d : Step) → l ≢ line → has_line steps.new.items l ≡ false → (has_line steps.old.items l ≡ false) ⊎ (l ≡ (slice_index_or steps.old.items i d).line) }
{
    let step = steps[i];
    steps[i] = Step { line, ..step };
}

impl<A: Allocator> RecordedLines<A> {
    /// Keeps the steps, so that they can't be taken back any more, and exchanges their list for another, which is emptied. Those that took
    /// the last counters from a word stay in the list that is handed out: only their lines may be left without counters. It takes no memory,
    /// and looks at no line.
    pub fn settle_into(&mut self, steps: &mut Vec<Step, A>)
        ensures falls { steps.new.items ≡ falls self.old.log }
        ensures lines { lines_in self.new ≡ lines_in self.old }
        ensures steps { steps_in self.new ≡ 0 }
        ensures now { (l t : ℕ) → count_now self.new l t ≡ count_now self.old l t }
        ensures before { (l t : ℕ) → count_before self.new l t ≡ count_now self.old l t }
    {
        mem::swap(&mut self.log, steps);
        self.log.clear();
        steps.retain(|step| step.clears);
    }

    /// Takes the steps back, from the last to the first, and exchanges their list for another, which is emptied. It takes no memory.
    pub fn undo_into(&mut self, steps: &mut Vec<Step, A>)
        ensures given { steps.new.items ≡ self.old.log }
        ensures lines { lines_in self.new ≡ lines_in self.old }
        ensures steps { steps_in self.new ≡ 0 }
        ensures now { (l t : ℕ) → count_now self.new l t ≡ count_before self.old l t }
        ensures before { (l t : ℕ) → count_before self.new l t ≡ count_before self.old l t }
    {
        let mut left = self.log.len();
        while left > 0 {
            left -= 1;
            let step = self.log[left];
            if step.up {
                word_steps::lower(&mut self.lines, step.line, step.word, step.mask);
            } else {
                word_steps::raise(&mut self.lines, step.line, step.word, step.mask);
            }
        }
        mem::swap(&mut self.log, steps);
        self.log.clear();
    }

    /// Gives up the places of a word of a line that has no counter above 0, and answers whether the line has one there or behind.
    fn give_up_word(&mut self, line: usize, word: usize) -> bool
        requires settled { steps_in self.old ≡ 0 }
        ensures lines { lines_in self.new ≡ lines_in self.old }
        ensures steps { steps_in self.new ≡ 0 }
        ensures now { (l t : ℕ) → count_now self.new l t ≡ count_now self.old l t }
        ensures counted { result ≡ true → HasCount self.old line }
    {
        let next = self.next_present_word(line, word);
        if next == Some(word) {
            return true;
        }
        if line < self.lines.len() {
            word_steps::give_up(&mut self.lines, line, word);
        }
        next.is_some()
    }

    /// Gives up the places of the words of steps that have no counter above 0. Steps of lines of which a counter above 0 was met are told
    /// to be of no line. It goes from the newest step to the oldest: the words of a line come in order, so the last one is given up first,
    /// and no word that has no counter is gone over again. It takes no memory.
    pub fn give_up_words(&mut self, steps: &mut Vec<Step, A>)
        requires settled { steps_in self.old ≡ 0 }
        ensures lines { lines_in self.new ≡ lines_in self.old }
        ensures steps { steps_in self.new ≡ 0 }
        ensures now { (l t : ℕ) → count_now self.new l t ≡ count_now self.old l t }
        ensures counted { (l : ℕ) → l < lines_in self.old → has_line steps.new.items l ≡ false → (has_line steps.old.items l ≡ false) ⊎ HasCount self.old l }
    {
        for i in (0..steps.len()).rev() {
            let step = steps[i];
            if self.give_up_word(step.line, step.word) {
                mark_counted(steps, i, self.lines.len());
            }
        }
    }

    /// Whether no counter of a line is above 0. It looks from a word on first.
    pub fn is_clear(&self, line: usize, near: usize) -> bool
        ensures clear { result ≡ true → (t : ℕ) → count_now self.now line t ≡ 0 }
        ensures present { result ≡ false → HasCount self.now line }
    {
        if self.next_present_word(line, near).is_some() {
            return false;
        }
        self.next_present_word(line, 0).is_none()
    }

    /// Takes a line out, and puts the last line in its place.
    pub fn swap_remove(&mut self, line: usize)
        requires line { line < lines_in self.old }
        requires settled { steps_in self.old ≡ 0 }
        ensures lines { lines_in self.new + 1 ≡ lines_in self.old }
        ensures steps { steps_in self.new ≡ 0 }
        ensures moved { (t : ℕ) → line < lines_in self.new → count_now self.new line t ≡ count_now self.old (lines_in self.new) t }
        ensures others { (l t : ℕ) → l ≢ line → l < lines_in self.new → count_now self.new l t ≡ count_now self.old l t }
    {
        self.lines.swap_remove(line);
    }

    /// Takes out the lines from a place on.
    pub fn truncate(&mut self, len: usize)
        requires settled { steps_in self.old ≡ 0 }
        ensures lines { lines_in self.new ≡ min len (lines_in self.old) }
        ensures steps { steps_in self.new ≡ 0 }
        ensures now { (l t : ℕ) → l < len → count_now self.new l t ≡ count_now self.old l t }
    {
        self.lines.truncate(len);
    }
}
