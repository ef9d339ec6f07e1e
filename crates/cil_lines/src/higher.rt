//! The higher binary digits of the counters of a line, the lowest of them first.

ghost use Rattle.std.specs.Prelude.{◌≡◌, ◌≢◌, ◌+◌, ◌-◌, ◌<◌, ◌≤◌, ◌^◌, ◌++◌, ℕ, List, length, min, IfOk, OnOk};
ghost use Rattle.std.specs.Int.{bit_at};
ghost use Rattle.cil_lines.specs.Digit.{Words, IsNext};
ghost use Rattle.cil_lines.specs.Limit.{limit};
ghost use Rattle.cil_lines.specs.Line.{total, value, HasRoom};

use crate::digit::Digit;
use std::alloc::{AllocError, Allocator};

/// The counter of a bit, or the greatest `u64` where it is greater.
pub fn count<A: Allocator>(digits: &[Digit<A>], word: usize, bit: u32) -> u64
    requires { bit < 64 }
    ensures { result ≡ min (value digits.now word bit) (2 ^ 64 - 1) }
{
    let mut count: u64 = 0;
    let mut i = digits.len();
    while i > 0 {
        i -= 1;
        let bits = digits[i].bits(word);
        count = count.saturating_mul(2).saturating_add((bits >> bit) & 1);
    }
    count
}

/// The bits whose counters are at least 1.
pub fn present<A: Allocator>(digits: &[Digit<A>], word: usize) -> u64
    ensures { (b : ℕ) → bit_at result b ≡ min 1 (value digits.now word b) }
{
    let mut present = 0;
    let mut i = digits.len();
    while i > 0 {
        i -= 1;
        present |= digits[i].bits(word);
    }
    present
}

/// The first word from one on that has a place in some digit.
pub fn next_place<A: Allocator>(digits: &[Digit<A>], from: usize) -> Option<usize>
    ensures { IsNext (total digits.now) from result }
{
    let mut next = None;
    let mut i = digits.len();
    while i > 0 {
        i -= 1;
        next = earlier(digits[i].next_place(from), next);
    }
    next
}

/// A word from which on none has a place in any digit.
pub fn end<A: Allocator>(digits: &[Digit<A>]) -> usize
    ensures { (w : ℕ) → result ≤ w → total digits.now w ≡ 0 }
{
    let mut end = 0;
    let mut i = digits.len();
    while i > 0 {
        i -= 1;
        end = digits[i].end().max(end);
    }
    end
}

/// The lower of two words, where there are two.
pub fn earlier(first: Option<usize>, second: Option<usize>) -> Option<usize>
    ensures { (f g : ℕ → ℕ) (from : ℕ) → IsNext f from first → IsNext g from second → IsNext (λ w. f w + g w) from result }
{
    match (first, second) {
        (Some(first), Some(second)) => Some(first.min(second)),
        (first, None) => first,
        (None, second) => second,
    }
}

/// Digits with the same bits and places.
pub fn copied<A: Allocator + Copy>(
    digits: &[Digit<A>],
    alloc: A,
) -> Result<Vec<Digit<A>, A>, AllocError>
    ensures { IfOk result (λ copies. copies.items ≡ digits.now) }
{
    let mut copies = Vec::with_capacity(alloc, digits.len())?;
    for i in 0..digits.len() {
        let copy = digits[i].copied(alloc)?;
        copies.push(copy)?;
    }
    Ok(copies)
}

/// Makes places for what a mask carries into each digit, and answers what it carries out of the last.
fn make_places<A: Allocator + Copy>(
    digits: &mut [Digit<A>],
    alloc: A,
    word: usize,
    mask: u64,
) -> Result<u64, AllocError>
    requires { word < 2 ^ 58 }
    ensures len { length digits.new ≡ length digits.old }
    ensures room { IfOk result (λ carry. (rest : List Words) → HasRoom rest word carry → HasRoom (digits.new ++ rest) word mask) }
    ensures now { (w b : ℕ) → value digits.new w b ≡ value digits.old w b }
    ensures limits { (w : ℕ) → limit digits.old w ≤ limit digits.new w }
{
    let mut carry = mask;
    for i in 0..digits.len() {
        if carry == 0 {
            return Ok(0);
        }
        let digit = &mut digits[i];
        digit.make_place(alloc, word)?;
        carry &= digit.bits(word);
    }
    Ok(carry)
}

/// Makes room for one more at each bit of a mask, so that `add` takes no memory. Every counter stays.
pub fn make_room<A: Allocator + Copy>(
    digits: &mut Vec<Digit<A>, A>,
    alloc: A,
    word: usize,
    mask: u64,
) -> Result<(), AllocError>
    requires { word < 2 ^ 58 }
    ensures room { OnOk result (HasRoom digits.new.items word mask) }
    ensures now { (w b : ℕ) → value digits.new.items w b ≡ value digits.old.items w b }
    ensures limits { (w : ℕ) → limit digits.old.items w ≤ limit digits.new.items w }
{
    let carry = make_places(digits, alloc, word, mask)?;
    if carry != 0 {
        let mut digit = Digit::new(alloc);
        digit.make_place(alloc, word)?;
        digits.reserve_exact(1)?;
        digits.push(digit)?;
    }
    Ok(())
}

/// Adds 1 at each bit of a mask.
pub fn add<A: Allocator>(digits: &mut [Digit<A>], word: usize, mask: u64)
    requires { HasRoom digits.old word mask }
    ensures len { length digits.new ≡ length digits.old }
    ensures sum { (b : ℕ) → value digits.new word b ≡ value digits.old word b + bit_at mask b }
    ensures others { (w b : ℕ) → w ≢ word → value digits.new w b ≡ value digits.old w b }
    ensures limits { (w : ℕ) → limit digits.old w ≤ limit digits.new w }
{
    let mut carry = mask;
    for i in 0..digits.len() {
        if carry == 0 {
            return;
        }
        let digit = &mut digits[i];
        let bits = digit.bits(word);
        digit.put(word, bits ^ carry);
        carry &= bits;
    }
}

/// Takes 1 away at each bit of a mask.
pub fn subtract<A: Allocator>(digits: &mut [Digit<A>], word: usize, mask: u64)
    requires above { (b : ℕ) → bit_at mask b ≤ value digits.old word b }
    requires below { (b : ℕ) → value digits.old word b < limit digits.old word }
    ensures len { length digits.new ≡ length digits.old }
    ensures difference { (b : ℕ) → value digits.new word b + bit_at mask b ≡ value digits.old word b }
    ensures others { (w b : ℕ) → w ≢ word → value digits.new w b ≡ value digits.old w b }
    ensures limits { (w : ℕ) → limit digits.old w ≤ limit digits.new w }
{
    let mut borrow = mask;
    for i in 0..digits.len() {
        if borrow == 0 {
            return;
        }
        let digit = &mut digits[i];
        let bits = digit.bits(word) ^ borrow;
        digit.put(word, bits);
        borrow &= bits;
    }
}

/// Gives up the places of a word whose counters are all 0.
pub fn give_up<A: Allocator>(digits: &mut [Digit<A>], word: usize)
    requires { (b : ℕ) → value digits.old word b ≡ 0 }
    ensures len { length digits.new ≡ length digits.old }
    ensures now { (w b : ℕ) → value digits.new w b ≡ value digits.old w b }
    ensures limits { (w : ℕ) → w ≢ word → limit digits.old w ≤ limit digits.new w }
{
    for i in 0..digits.len() {
        let digit = &mut digits[i];
        digit.give_up(word);
    }
}
