//! What moves where the targets of a source change.

ghost use Rattle.std.specs.Prelude.{[], ◌≡◌, ◌≢◌, ◌+◌, ◌/◌, ◌<◌, ◌^◌, ◌||◌, ◌∷◌, ℕ, Bool, false, IfOk, IfSome, OnOk};
ghost use Rattle.cil_rule_shifts.specs.Groups.{AreMovesBelow, AreMovesOf, HasWord};
ghost use Rattle.cil_rule_shifts.specs.Reach.{is_present, takes, AreShort, NoneFrom};

use crate::targets::Targets;
use crate::words::{WORDS, line_word_behind, word_behind};
use cil_keyed_lines::Moved;
use cil_lines::Line;
use std::alloc::{AllocError, Allocator};

// How many targets a word has.
const WORD: usize = 64;

/// The word of the only target that sources have, where they had none.
fn only_word<A: Allocator>(was: &Targets<A>, is: &Targets<A>) -> Option<usize>
    ensures short { IfSome result (λ word. word < 2 ^ 58) }
    ensures others { IfSome result (λ word. (s t : ℕ) → t / 64 ≢ word
        → (takes was.now s t || takes is.now s t) ≡ false) }
{
    match (was, is) {
        (Targets::Nothing, Targets::These(types)) => {
            let ty = types.only()?;
            Some(ty / WORD)
        }
        _ => None,
    }
}

/// What moves where a source has one target and had none, as that of most rules that come. It takes no memory.
pub fn only_move<A: Allocator>(source: usize, was: &Targets<A>, is: &Targets<A>) -> Option<Moved>
    ensures { IfSome result
        (λ step. AreMovesOf (takes was.now source) (takes is.now source) (step ∷ [])) }
{
    let word = only_word(was, is)?;
    let before = was.word(source, word);
    let now = is.word(source, word);
    Some(Moved {
        word,
        gone: before & !now,
        come: now & !before,
    })
}

/// Appends what moves in a word from the targets that it had to those that it has, if anything does.
#[inline(always)]
fn push_moved<A: Allocator>(
    moved: &mut Vec<Moved, A>,
    word: usize,
    before: u64,
    now: u64,
) -> Result<(), AllocError>
    requires { word < 2 ^ 58 }
    ensures { OnOk result ((was is : ℕ → Bool) → HasWord was word before → HasWord is word now
        → AreMovesBelow was is word moved.old.items
        → AreMovesBelow was is (word + 1) moved.new.items) }
{
    if before != now {
        moved.push(Moved {
            word,
            gone: before & !now,
            come: now & !before,
        })?;
    }
    Ok(())
}

/// The line that the targets before stand in and that of the targets now, or none where either
/// stand in no line.
fn lines_of<'t, A: Allocator>(
    was: &'t Targets<A>,
    is: &'t Targets<A>,
) -> Option<(&'t Line<A>, &'t Line<A>)>
    ensures { IfSome result
        (λ lines. (s t : ℕ) → (takes was.now s t ≡ is_present lines.0.now t)
        × (takes is.now s t ≡ is_present lines.1.now t)) }
{
    match (was, is) {
        (Targets::These(had), Targets::These(has)) => {
            let before = had.line()?;
            let now = has.line()?;
            Some((before, now))
        }
        _ => None,
    }
}

/// What moves from the types of one line to those of another, word by word.
fn lines_moved<A: Allocator + Copy>(
    alloc: A,
    was: &Line<A>,
    is: &Line<A>,
) -> Result<Vec<Moved, A>, AllocError>
    requires was { NoneFrom (is_present was.now) (2 ^ 64) }
    requires is { NoneFrom (is_present is.now) (2 ^ 64) }
    ensures { IfOk result
        (λ moved. AreMovesOf (is_present was.now) (is_present is.now) moved.items) }
{
    let mut moved = Vec::new(alloc);
    let mut word = 0;
    while word < WORDS {
        let before = was.present(word);
        let now = is.present(word);
        push_moved(&mut moved, word, before, now)?;
        word = line_word_behind(was, is, word, before | now != 0);
    }
    Ok(moved)
}

/// The words in which the targets that a source had and those that it has differ, with the targets
/// that go and those that come.
pub fn moved_of<A: Allocator + Copy>(
    alloc: A,
    source: usize,
    was: &Targets<A>,
    is: &Targets<A>,
) -> Result<Vec<Moved, A>, AllocError>
    requires was { AreShort was.now }
    requires is { AreShort is.now }
    ensures { IfOk result
        (λ moved. AreMovesOf (takes was.now source) (takes is.now source) moved.items) }
{
    if let Some((had, has)) = lines_of(was, is) {
        return lines_moved(alloc, had, has);
    }
    let mut moved = Vec::new(alloc);
    let mut word = 0;
    while word < WORDS {
        let before = was.word(source, word);
        let now = is.word(source, word);
        push_moved(&mut moved, word, before, now)?;
        word = word_behind(was, is, source, word, before | now != 0);
    }
    Ok(moved)
}
