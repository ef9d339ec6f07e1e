//! The steps of a log.

ghost use Rattle.std.specs.Prelude.{◌≡◌, ◌++◌, ◌∷◌, [], ◌+◌, ◌<◌, ◌≤◌, vec_capacity, vec_len};

use std::alloc::Allocator;

/// A step that was made: the counters of some targets of a word of a line went up by 1, or down by 1.
#[derive(Clone, Copy)]
pub struct Step {
    pub line: usize,
    pub word: usize,
    pub mask: u64,
    /// The targets of the mask that the step let appear, or go.
    pub turned: u64,
    pub up: bool,
    /// Whether it is a step down behind which no counter of its word is above 0.
    pub clears: bool,
}

/// Puts a step at the end of a log that has room for it.
pub fn log_step<A: Allocator>(log: &mut Vec<Step, A>, step: Step)
    requires { vec_len log.old < vec_capacity log.old }
    ensures items { log.new.items ≡ log.old.items ++ step ∷ [] }
    ensures len { vec_len log.new ≡ vec_len log.old + 1 }
    ensures capacity { vec_capacity log.old ≤ vec_capacity log.new }
{
    if log.push(step).is_err() {
        unreachable!("the log has room for the step");
    }
}
