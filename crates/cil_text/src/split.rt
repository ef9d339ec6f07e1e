//! Trees from the front on, as the forms of statements ask for them.

ghost use Rattle.std.specs.Prelude.{◌≡◌, ◌≢◌, false, IfOk, IsTrue, MatchOption};
ghost use Rattle.cil_text.specs.Common.{Trees, none, are_lists, IsListThen, put_word, tree_then, trees_of, word_of, is_one};
ghost use Rattle.cil_specs.specs.Names.{Word as SpecWord};
ghost use Rattle.cil_text.specs.Split.{AreWords, AreWordList, AreWordAndList};

use cil_reader::{Tree, TreeSlice, Word};
use std::alloc::{AllocError, Allocator};

/// The word in front, and the trees behind it.
pub fn split_word<'t, 'a>(trees: TreeSlice<'t, 'a>) -> Option<(Word<'a>, TreeSlice<'t, 'a>)>
    ensures { MatchOption result
        ((word : SpecWord) (rest : Trees) → trees_of trees.entry ≢ put_word word rest)
        (λ found. trees_of trees.entry ≡ put_word (word_of found.0) (trees_of found.1)) }
{
    let (first, rest) = trees.split_first()?;
    let Tree::Word(word) = first else {
        return None;
    };
    Some((word, rest))
}

/// The trees of the list in front, and the trees behind it.
fn split_list<'t, 'a>(trees: TreeSlice<'t, 'a>) -> Option<(TreeSlice<'t, 'a>, TreeSlice<'t, 'a>)>
    ensures { MatchOption result
        ((items rest : Trees) → IsListThen (trees_of trees.entry) items rest → ⊥)
        (λ found. IsListThen (trees_of trees.entry) (trees_of found.0) (trees_of found.1)) }
{
    let (first, rest) = trees.split_first()?;
    let Tree::List { items, .. } = first else {
        return None;
    };
    Some((items, rest))
}

/// A tree and nothing else.
pub fn only_tree<'t, 'a>(trees: TreeSlice<'t, 'a>) -> Option<Tree<'t, 'a>>
    ensures { MatchOption result (is_one (trees_of trees.entry) ≡ false)
        (λ tree. trees_of trees.entry ≡ tree_then tree none) }
{
    let (tree, rest) = trees.split_first()?;
    if !rest.is_empty() {
        return None;
    }
    Some(tree)
}

/// A word and nothing else.
pub fn only_word<'a>(trees: TreeSlice<'_, 'a>) -> Option<Word<'a>>
    ensures { MatchOption result ((word : SpecWord) → trees_of trees.entry ≢ put_word word none)
        (λ word. trees_of trees.entry ≡ put_word (word_of word) none) }
{
    let (word, rest) = split_word(trees)?;
    if !rest.is_empty() {
        return None;
    }
    Some(word)
}

/// Two words and nothing else.
pub fn two_words<'a>(trees: TreeSlice<'_, 'a>) -> Option<(Word<'a>, Word<'a>)>
    ensures { MatchOption result
        ((first second : SpecWord) → trees_of trees.entry ≢ put_word first (put_word second none))
        (λ found.
        trees_of trees.entry ≡ put_word (word_of found.0) (put_word (word_of found.1) none)) }
{
    let (first, rest) = split_word(trees)?;
    Some((first, only_word(rest)?))
}

/// The trees of a list, with nothing behind it.
pub fn only_list<'t, 'a>(trees: TreeSlice<'t, 'a>) -> Option<TreeSlice<'t, 'a>>
    ensures { MatchOption result
        ((items : Trees) → IsListThen (trees_of trees.entry) items none → ⊥)
        (λ items. IsListThen (trees_of trees.entry) (trees_of items) none) }
{
    let (items, rest) = split_list(trees)?;
    if !rest.is_empty() {
        return None;
    }
    Some(items)
}

/// Whether each of the trees is a list.
fn are_lists(trees: TreeSlice<'_, '_>) -> bool
    ensures { result ≡ are_lists (trees_of trees.entry) }
{
    let mut rest = trees;
    while let Some((tree, behind)) = rest.split_first() {
        if !matches!(tree, Tree::List { .. }) {
            return false;
        }
        rest = behind;
    }
    true
}

/// A word, and lists behind it.
pub fn word_and_lists<'t, 'a>(trees: TreeSlice<'t, 'a>) -> Option<(Word<'a>, TreeSlice<'t, 'a>)>
    ensures { MatchOption result
        ((word : SpecWord) (lists : Trees)
        → trees_of trees.entry ≡ put_word word lists → are_lists lists ≡ false)
        (λ found. (trees_of trees.entry ≡ put_word (word_of found.0) (trees_of found.1))
        × IsTrue (are_lists (trees_of found.1))) }
{
    let (word, lists) = split_word(trees)?;
    if !are_lists(lists) {
        return None;
    }
    Some((word, lists))
}

/// Words and nothing else.
pub fn words<'a, A: Allocator + Copy>(
    alloc: A,
    trees: TreeSlice<'_, 'a>,
) -> Result<Option<Vec<Word<'a>, A>>, AllocError>
    ensures { IfOk result (AreWords (trees_of trees.entry)) }
{
    let mut words = Vec::with_capacity(alloc, trees.len())?;
    let mut rest = trees;
    while let Some((tree, behind)) = rest.split_first() {
        let Tree::Word(word) = tree else {
            return Ok(None);
        };
        words.push(word)?;
        rest = behind;
    }
    Ok(Some(words))
}

/// A list of words and nothing else.
pub fn word_list<'a, A: Allocator + Copy>(
    alloc: A,
    trees: TreeSlice<'_, 'a>,
) -> Result<Option<Vec<Word<'a>, A>>, AllocError>
    ensures { IfOk result (AreWordList (trees_of trees.entry)) }
{
    match only_list(trees) {
        Some(items) => words(alloc, items),
        None => Ok(None),
    }
}

/// A word, a list of words and nothing else.
pub fn word_and_list<'a, A: Allocator + Copy>(
    alloc: A,
    trees: TreeSlice<'_, 'a>,
) -> Result<Option<(Word<'a>, Vec<Word<'a>, A>)>, AllocError>
    ensures { IfOk result (AreWordAndList (trees_of trees.entry)) }
{
    let Some((word, rest)) = split_word(trees) else {
        return Ok(None);
    };
    match word_list(alloc, rest)? {
        Some(words) => Ok(Some((word, words))),
        None => Ok(None),
    }
}
