//! The values of conditions.

ghost use Rattle.std.specs.Prelude.{◌≡◌, IfOk, Some};
ghost use Rattle.cil_specs.specs.Trees.{Trees};
ghost use Rattle.cil_reader.specs.Common.{tree_then, trees_of};
ghost use Rattle.cil_projection.specs.Conditions.{AddsValues, applied, combined, first_value, list_value, opposite, settings_of, values};

use crate::booleans::Booleans;
use crate::words::is_among;
use cil_reader::{Tree, TreeSlice};
use std::alloc::{AllocError, Allocator};

/// The value of an operator of one operand.
fn opposite(operator: &[u8], x: bool) -> Option<bool>
    ensures { result ≡ opposite operator.now x }
{
    (operator == b"not".as_slice()).then_some(!x)
}

/// The value of an operator of two operands.
fn combined(operator: &[u8], x: bool, y: bool) -> Option<bool>
    ensures { result ≡ combined operator.now x y }
{
    if operator == b"and".as_slice() {
        Some(x && y)
    } else if operator == b"or".as_slice() {
        Some(x || y)
    } else if is_among(&[b"xor", b"neq"], operator) {
        Some(x != y)
    } else if operator == b"eq".as_slice() {
        Some(x == y)
    } else {
        None
    }
}

/// The value of a list that begins with a word and goes on with operands of these values. `named` is the word's as a name.
fn applied(word: &[u8], named: Option<bool>, operands: &[bool]) -> Option<bool>
    ensures { result ≡ applied word.now named (Some operands.now) }
{
    match operands {
        [] => named,
        [x] => opposite(word, *x),
        [x, y] => combined(word, *x, *y),
        _ => None,
    }
}

/// The value of a condition that is a list of these trees (CIL Reference Guide, "booleanif"). A list of one list has that list's.
#[cycle(condition)]
pub fn list_value<A: Allocator + Copy>(
    alloc: A,
    booleans: &Booleans<'_, A>,
    items: TreeSlice<'_, '_>,
) -> Result<Option<bool>, AllocError>
    ensures { IfOk result (λ found.
        found ≡ list_value (settings_of booleans.now).value (trees_of items.entry)) }
{
    let Some((first, behind)) = items.split_first() else {
        return Ok(None);
    };
    match first {
        Tree::Word(word) => {
            let found = applied_value(alloc, booleans, word.text, behind)?;
            Ok(found)
        }
        Tree::List { items, .. } if behind.is_empty() => {
            let found = list_value(alloc, booleans, items)?;
            Ok(found)
        }
        _ => Ok(None),
    }
}

/// The value of a list that begins with this word and goes on with operands.
#[cycle(condition)]
fn applied_value<A: Allocator + Copy>(
    alloc: A,
    booleans: &Booleans<'_, A>,
    word: &[u8],
    operands: TreeSlice<'_, '_>,
) -> Result<Option<bool>, AllocError>
    ensures { IfOk result (λ found. found ≡ applied word.now
        ((settings_of booleans.now).value word.now)
        (values (settings_of booleans.now).value (trees_of operands.entry))) }
{
    let mut values = Vec::new(alloc);
    if !add_values(&mut values, alloc, booleans, operands)? {
        return Ok(None);
    }
    Ok(applied(word, booleans.value(word), values.as_slice()))
}

/// The value of a condition, which is this tree.
#[cycle(condition)]
fn value<A: Allocator + Copy>(
    alloc: A,
    booleans: &Booleans<'_, A>,
    tree: Tree<'_, '_>,
) -> Result<Option<bool>, AllocError>
    ensures { IfOk result (λ found. (rest : Trees)
        → found ≡ first_value (settings_of booleans.now).value (tree_then tree.entry rest)) }
{
    match tree {
        Tree::Word(word) => Ok(booleans.value(word.text)),
        Tree::String(_) => Ok(None),
        Tree::List { items, .. } => {
            let found = list_value(alloc, booleans, items)?;
            Ok(found)
        }
    }
}

/// Adds the values of conditions one after the other.
#[cycle(condition)]
fn add_values<A: Allocator + Copy>(
    found: &mut Vec<bool, A>,
    alloc: A,
    booleans: &Booleans<'_, A>,
    trees: TreeSlice<'_, '_>,
) -> Result<bool, AllocError>
    ensures { IfOk result (λ fits. AddsValues found.old.items found.new.items fits
        (values (settings_of booleans.now).value (trees_of trees.entry))) }
{
    let mut rest = trees;
    while let Some((tree, behind)) = rest.split_first() {
        let Some(first) = value(alloc, booleans, tree)? else {
            return Ok(false);
        };
        found.push(first)?;
        rest = behind;
    }
    Ok(true)
}
