//! Where the steps were.

ghost use Rattle.std.specs.Prelude.{◌≡◌, ℕ, ◌/◌, ◌<◌};
ghost use Rattle.cil_recorded.specs.Places.{step_at, IsUntouched};
ghost use Rattle.cil_recorded.specs.Recorded.{count_before, count_now, steps_in};

use crate::recorded_lines::RecordedLines;
use std::alloc::Allocator;

/// A word of a line.
#[derive(Clone, Copy, PartialEq, Eq)]
pub struct Place {
    pub line: usize,
    pub word: usize,
}

impl<A: Allocator> RecordedLines<A> {
    /// How many steps there are since the last settling.
    pub fn steps(&self) -> usize
        ensures steps { result ≡ steps_in self.now }
        ensures others { (l t : ℕ) → IsUntouched self.now 0 l (t / 64) → count_now self.now l t ≡ count_before self.now l t }
    {
        self.log.len()
    }

    /// The word of a line that a step changed. The oldest step is step 0.
    pub fn place(&self, step: usize) -> Place
        requires { step < steps_in self.now }
        ensures line { result.line ≡ (step_at self.now step).line }
        ensures word { result.word ≡ (step_at self.now step).word }
    {
        let step = &self.log[step];
        Place {
            line: step.line,
            word: step.word,
        }
    }
}
