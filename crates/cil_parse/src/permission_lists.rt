//! The distinct lists of permissions that a module's statements name.

ghost use Rattle.std.specs.Prelude.{◌≡◌, ◌++◌, [], length, map, drop, IfOk, OnOk};
ghost use Rattle.cil_parse.specs.Common.{seen, AreNumbersOf, permission_words, permission_texts, AreListed};

use crate::copied::copies;
use crate::lists::Lists;
use crate::row::{NumberedWord, Row, StatementKind};
use cil_names::{Seed, in_32_bits};
use indexmap::IndexSet;
use std::alloc::{AllocError, Allocator, Global};

/// For each statement the number of the permissions that it names, and the distinct lists by the numbers of their texts.
#[derive(Drop)]
pub struct PermissionLists<A: Allocator = Global> {
    pub numbers: Vec<u32, A>,
    pub lists: Lists<u32, A>,
}

/// The words behind so many.
fn behind(words: &[NumberedWord], n: usize) -> &[NumberedWord]
    ensures { result.now ≡ drop n words.now }
{
    if n < words.len() {
        &words[n..]
    } else {
        &words[words.len()..]
    }
}

/// The permissions among the words of a statement of a kind.
pub fn permission_words(kind: StatementKind, words: &[NumberedWord]) -> &[NumberedWord]
    ensures { result.now ≡ permission_words kind words.now }
{
    match kind {
        StatementKind::Common | StatementKind::Class => behind(words, 1),
        StatementKind::Rule(_) => behind(words, 3),
        StatementKind::ClassPermissionSet | StatementKind::RuleToSelf(_) => behind(words, 2),
        _ => behind(words, words.len()),
    }
}

/// Puts the texts of words at the end of the open list.
fn push_texts<A: Allocator + Copy>(
    lists: &mut Lists<u32, A>,
    words: &[NumberedWord],
) -> Result<(), AllocError>
    ensures { OnOk result (lists.new ≡ (lists.old.0, lists.old.1 ++ map (λ w. w.text) words.now)) }
{
    for word in words {
        lists.push(word.text)?;
    }
    Ok(())
}

/// For each statement the texts of its permissions.
fn listed<A: Allocator + Copy>(
    alloc: A,
    rows: &[Row],
    words: &Lists<NumberedWord, A>,
) -> Result<Lists<u32, A>, AllocError>
    requires { length words.now.0 ≡ length rows.now }
    ensures { IfOk result (λ lists. lists ≡ (permission_texts rows.now words.now.0, [])) }
{
    let mut lists = Lists::with_capacity(alloc, rows.len(), 0)?;
    for i in 0..rows.len() {
        push_texts(&mut lists, permission_words(rows[i].kind, words.get(i)))?;
        lists.close()?;
    }
    Ok(lists)
}

/// The number of each list among the distinct ones. Those that are new come behind them.
fn numbered<'l, A: Allocator + Copy>(
    alloc: A,
    lists: &'l Lists<u32, A>,
    distinct: &mut IndexSet<&'l [u32], Seed, A>,
) -> Result<Vec<u32, A>, AllocError>
    ensures { IfOk result (λ numbers. AreNumbersOf (seen distinct.new.keys) numbers.items lists.now.0) }
{
    let mut numbers = Vec::with_capacity(alloc, lists.len())?;
    for i in 0..lists.len() {
        let (n, _new) = distinct.insert_full(lists.get(i))?;
        numbers.push(in_32_bits(n)?)?;
    }
    Ok(numbers)
}

/// The lists, each once, and the number of each.
fn each_once<A: Allocator + Copy>(
    alloc: A,
    seed: Seed,
    lists: &Lists<u32, A>,
) -> Result<PermissionLists<A>, AllocError>
    ensures { IfOk result (λ p. AreNumbersOf p.lists.0 p.numbers.items lists.now.0) }
{
    let mut distinct = IndexSet::with_hasher(alloc, seed);
    let numbers = numbered(alloc, lists, &mut distinct)?;
    Ok(PermissionLists {
        lists: copies(alloc, distinct.as_slice())?,
        numbers,
    })
}

impl<A: Allocator + Copy> PermissionLists<A> {
    /// Those of statements with these words.
    pub fn of(
        alloc: A,
        seed: Seed,
        rows: &[Row],
        words: &Lists<NumberedWord, A>,
    ) -> Result<Self, AllocError>
        requires { length words.now.0 ≡ length rows.now }
        ensures { IfOk result (λ p. AreListed p rows.now words.now.0) }
    {
        let lists = listed(alloc, rows, words)?;
        each_once(alloc, seed, &lists)
    }
}
