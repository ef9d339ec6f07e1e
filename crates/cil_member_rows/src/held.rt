//! Words of one of several rows of bits.

ghost use Rattle.std.specs.Prelude.{◌≡◌, ℕ, ◌<◌, ◌≤◌, length, min, slice_index, IfOk, OnOk};
ghost use Rattle.cil_member_rows.specs.Common.{bits_at, words_of};

use crate::bit_row::BitRow;
use std::alloc::{AllocError, Allocator};

/// The bits of a word of a row; none behind the last row.
pub fn bits<A: Allocator>(rows: &[BitRow<A>], row: usize, word: usize) -> u64
    ensures { result ≡ bits_at rows.now row word }
{
    if row < rows.len() {
        rows[row].word(word)
    } else {
        0
    }
}

/// The bits of the first so many words of a row, or of all its words where there are fewer.
pub fn first_words<A: Allocator + Copy>(
    rows: &[BitRow<A>],
    alloc: A,
    row: usize,
    count: usize,
) -> Result<Vec<u64, A>, AllocError>
    ensures len { IfOk result (λ words. length words.items ≡ min (words_of rows.now row) count) }
    ensures words { IfOk result (λ words. (w : ℕ) → w < count
        → slice_index words.items w ≡ bits_at rows.now row w) }
{
    if row < rows.len() {
        rows[row].first_words(alloc, count)
    } else {
        Ok(Vec::new(alloc))
    }
}

/// Adds a row without words behind the last one, unless there are more rows than so many. No bit changes.
pub fn add_row<A: Allocator>(
    rows: &mut Vec<BitRow<A>, A>,
    alloc: A,
    len: usize,
) -> Result<(), AllocError>
    requires { len ≤ length rows.old.items }
    ensures rows { length rows.old.items ≤ length rows.new.items }
    ensures room { OnOk result (len < length rows.new.items) }
    ensures words { (r : ℕ) → words_of rows.new.items r ≡ words_of rows.old.items r }
    ensures bits { (r w : ℕ) → bits_at rows.new.items r w ≡ bits_at rows.old.items r w }
{
    if rows.len() == len {
        rows.push(BitRow::new(alloc))?;
    }
    Ok(())
}

/// Makes a row at least so many words long. No bit changes.
pub fn lengthen<A: Allocator>(
    rows: &mut Vec<BitRow<A>, A>,
    row: usize,
    len: usize,
) -> Result<(), AllocError>
    requires { row < length rows.old.items }
    ensures rows { length rows.new.items ≡ length rows.old.items }
    ensures room { OnOk result (len ≤ words_of rows.new.items row) }
    ensures words { (r : ℕ) → words_of rows.old.items r ≤ words_of rows.new.items r }
    ensures bits { (r w : ℕ) → bits_at rows.new.items r w ≡ bits_at rows.old.items r w }
{
    let at = &mut rows[row];
    at.lengthen(len)
}

/// Changes the bits of a word of a row. Behind the end nothing changes.
pub fn put<A: Allocator>(rows: &mut Vec<BitRow<A>, A>, row: usize, word: usize, bits: u64)
    ensures rows { length rows.new.items ≡ length rows.old.items }
    ensures words { (r : ℕ) → words_of rows.new.items r ≡ words_of rows.old.items r }
    ensures here { word < words_of rows.old.items row → bits_at rows.new.items row word ≡ bits }
    ensures others { (r w : ℕ) → (r ≡ row → w ≡ word → ⊥) → bits_at rows.new.items r w ≡ bits_at rows.old.items r w }
{
    if row < rows.len() {
        let at = &mut rows[row];
        at.put(word, bits);
    }
}
