//! How often steps let targets appear and go.

ghost use Rattle.std.specs.Prelude.{◌≡◌, ◌≢◌, true, false, ℕ, ◌+◌, ◌%◌, ◌≤◌, ◌^◌, IfOk, OnErr, OnOk};
ghost use Rattle.std.specs.List.Sorted.{IsNonDecreasingBy};
ghost use Rattle.cil_recorded.specs.Differences.{balance_at, balance_of, turn_key, Ascends};
ghost use Rattle.cil_recorded.specs.Log.{turned_by, turned_in};

use crate::step::Step;
use std::alloc::{AllocError, Allocator};

/// How often targets of a word of a line appeared, less how often they went, modulo 4: its lower digit for each of them, and its upper one.
/// An edit sorts many of these, so the numbers have 32 bits.
#[derive(Clone, Copy)]
pub struct Turn {
    pub line: u32,
    pub word: u32,
    pub low: u64,
    pub high: u64,
}

/// A number that orders turns by line and word.
fn key(turn: &Turn) -> u128
    ensures { result ≡ turn_key turn.now }
{
    turn.line as u128 * (1 << 64) + turn.word as u128
}

/// Whether two turns are of one word of one line.
fn is_same_word(first: &Turn, second: &Turn) -> bool
    ensures line { result ≡ true → first.now.line ≡ second.now.line }
    ensures word { result ≡ true → first.now.word ≡ second.now.word }
    ensures other { result ≡ false → turn_key first.now ≢ turn_key second.now }
{
    let word = first.word;
    let other = second.word;
    first.line == second.line && word == other
}

/// The number of a line or a word in 32 bits. One that needs more, and no other, is answered as out of memory.
fn in_32_bits(number: usize) -> Result<u32, AllocError>
    ensures same { IfOk result (λ n. n ≡ number) }
    ensures beyond { OnErr result (2 ^ 32 ≤ number) }
{
    match u32::try_from(number) {
        Ok(n) => Ok(n),
        Err(_) => Err(AllocError),
    }
}

/// The turn of a step: 1 for each target that it let appear, and 3 for each that it let go.
fn turn_of(step: &Step) -> Result<Turn, AllocError>
    ensures { IfOk result (λ turn. (l t : ℕ) → balance_of turn l t ≡ turned_by step.now l t) }
{
    Ok(Turn {
        line: in_32_bits(step.line)?,
        word: in_32_bits(step.word)?,
        low: step.turned,
        high: if step.up { 0 } else { step.turned },
    })
}

/// The turns of steps, in their order.
fn turns_of<A: Allocator>(alloc: A, log: &[Step]) -> Result<Vec<Turn, A>, AllocError>
    ensures { IfOk result (λ v. (l t : ℕ) → balance_at v.items l t ≡ turned_in log.now l t) }
{
    let mut turns = Vec::with_capacity(alloc, log.len())?;
    for step in log {
        if step.turned != 0 {
            turns.push(turn_of(step)?)?;
        }
    }
    Ok(turns)
}

/// Sorts turns by line and word. The steps of a rule change words in this order, so the turns stand in runs, which are merged.
fn sort<A: Allocator>(alloc: A, turns: &mut [Turn]) -> Result<(), AllocError>
    ensures sorted { OnOk result (IsNonDecreasingBy turn_key turns.new) }
    ensures turned { (l t : ℕ) → balance_at turns.new l t ≡ balance_at turns.old l t }
{
    turns.sort_by_key(alloc, |turn| key(turn))
}

/// Two turns of one word in one.
fn both(first: &Turn, second: &Turn) -> Turn
    requires line { first.now.line ≡ second.now.line }
    requires word { first.now.word ≡ second.now.word }
    ensures key { turn_key result ≡ turn_key first.now }
    ensures sum { (l t : ℕ) → balance_of result l t % 4 ≡ (balance_of first.now l t + balance_of second.now l t) % 4 }
{
    let carry = first.low & second.low;
    Turn {
        line: first.line,
        word: first.word,
        low: first.low ^ second.low,
        high: first.high ^ second.high ^ carry,
    }
}

/// One turn for each word.
fn merge<A: Allocator>(alloc: A, turns: &[Turn]) -> Result<Vec<Turn, A>, AllocError>
    requires { IsNonDecreasingBy turn_key turns.now }
    ensures order { IfOk result (λ v. Ascends turn_key 0 v.items) }
    ensures turned { IfOk result (λ v. (l t : ℕ) → balance_at v.items l t % 4 ≡ balance_at turns.now l t % 4) }
{
    let mut merged = Vec::with_capacity(alloc, turns.len().saturating_add(1))?;
    let mut current = Turn {
        line: 0,
        word: 0,
        low: 0,
        high: 0,
    };
    for turn in turns {
        if is_same_word(&current, turn) {
            current = both(&current, turn);
        } else {
            merged.push(current)?;
            current = *turn;
        }
    }
    merged.push(current)?;
    Ok(merged)
}

/// How often steps let the targets of each word appear, less how often they let them go, modulo 4, by line and word.
pub fn net_turns<A: Allocator + Copy>(alloc: A, log: &[Step]) -> Result<Vec<Turn, A>, AllocError>
    ensures order { IfOk result (λ v. Ascends turn_key 0 v.items) }
    ensures turned { IfOk result (λ v. (l t : ℕ) → balance_at v.items l t % 4 ≡ turned_in log.now l t % 4) }
{
    let mut turns = turns_of(alloc, log)?;
    sort(alloc, &mut turns)?;
    merge(alloc, &turns)
}
