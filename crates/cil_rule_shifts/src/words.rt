//! The words of the targets that a source had or has.

ghost use Rattle.std.specs.Prelude.{◌≡◌, ◌&&◌, ◌||◌, ◌+◌, ◌/◌, ◌<◌, ◌≤◌, ◌^◌, ℕ, false, Bool};
ghost use Rattle.cil_rule_shifts.specs.Reach.{is_present, takes, IsFirstWord, IsMaybeWord};

use crate::targets::Targets;
use cil_lines::Line;
use std::alloc::Allocator;

/// A word of targets is below this number: so many words have all.
pub const WORDS: usize = 1 << 58;

/// The earlier of two words, each the first from one on at which a test holds.
pub fn earlier(first: Option<usize>, second: Option<usize>) -> Option<usize>
    ensures { (f g : ℕ → Bool) (from : ℕ) → IsFirstWord f from first → IsFirstWord g from second
        → IsFirstWord (λ t. f t || g t) from result }
{
    match (first, second) {
        (Some(first), Some(second)) => Some(first.min(second)),
        (Some(first), None) => Some(first),
        (None, second) => second,
    }
}

/// The later of two words, each the first from one on at which a test holds: before it no number passes
/// both tests.
pub fn later(first: Option<usize>, second: Option<usize>) -> Option<usize>
    ensures { (f g : ℕ → Bool) (from : ℕ) → IsFirstWord f from first → IsFirstWord g from second
        → IsMaybeWord (λ t. f t && g t) (λ t. f t || g t) from result }
{
    match (first, second) {
        (Some(first), Some(second)) => Some(first.max(second)),
        _ => None,
    }
}

/// The first word from one on in which a source has a target of either.
pub fn next_word<A: Allocator>(
    was: &Targets<A>,
    is: &Targets<A>,
    source: usize,
    from: usize,
) -> Option<usize>
    ensures { IsFirstWord (λ t. takes was.now source t || takes is.now source t) from result }
{
    earlier(was.next_word(source, from), is.next_word(source, from))
}

/// The word to look at behind one. Behind a word with targets this is the next; behind one without,
/// it is the first with a target of either, or the end of all words.
#[inline(always)]
pub fn word_behind<A: Allocator>(
    was: &Targets<A>,
    is: &Targets<A>,
    source: usize,
    word: usize,
    has_targets: bool,
) -> usize
    requires { word < 2 ^ 58 }
    ensures behind { word < result }
    ensures between { (t : ℕ) → word < t / 64 → t / 64 < result
        → (takes was.now source t || takes is.now source t) ≡ false }
{
    if has_targets {
        return word + 1;
    }
    match next_word(was, is, source, word + 1) {
        Some(next) => next,
        None => WORDS,
    }
}

/// The first word from one on in which either of two lines has a type.
fn next_line_word<A: Allocator>(was: &Line<A>, is: &Line<A>, from: usize) -> Option<usize>
    ensures { IsFirstWord (λ t. is_present was.now t || is_present is.now t) from result }
{
    earlier(was.next_present_word(from), is.next_present_word(from))
}

/// The word to look at behind one of two lines, as `word_behind`.
#[inline(always)]
pub fn line_word_behind<A: Allocator>(
    was: &Line<A>,
    is: &Line<A>,
    word: usize,
    has_types: bool,
) -> usize
    requires { word < 2 ^ 58 }
    ensures behind { word < result }
    ensures between { (t : ℕ) → word < t / 64 → t / 64 < result
        → (is_present was.now t || is_present is.now t) ≡ false }
{
    if has_types {
        return word + 1;
    }
    match next_line_word(was, is, word + 1) {
        Some(next) => next,
        None => WORDS,
    }
}
