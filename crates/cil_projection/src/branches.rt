//! The branches of conditional statements.

ghost use Rattle.std.specs.Prelude.{◌≡◌, bytes_eq, codes, cond, option_map};
ghost use Rattle.cil_specs.specs.Trees.{are_lists};
ghost use Rattle.cil_reader.specs.Common.{trees_of};
ghost use Rattle.cil_projection.specs.Conditions.{are_branches, branch_for, branch_value, differ};

use crate::declaration::truth;
use crate::split::{split_list, split_word};
use cil_reader::{Tree, TreeSlice};

/// Whether each of the trees is a list.
fn are_lists(trees: TreeSlice<'_, '_>) -> bool
    ensures { result ≡ are_lists (trees_of trees.entry) }
{
    let mut rest = trees;
    while let Some((_items, behind)) = split_list(rest) {
        rest = behind;
    }
    rest.is_empty()
}

/// The value that the first word of a branch is, where there are lists behind it, one at least, and nothing else.
fn branch_value(items: TreeSlice<'_, '_>) -> Option<bool>
    ensures { result ≡ branch_value (trees_of items.entry) }
{
    let Some((word, inner)) = split_word(items) else {
        return None;
    };
    if inner.is_empty() {
        return None;
    }
    if !are_lists(inner) {
        return None;
    }
    truth(word.text)
}

/// Whether two values are there, and differ.
fn differ(x: Option<bool>, y: Option<bool>) -> bool
    ensures { result ≡ differ x y }
{
    match (x, y) {
        (Some(x), Some(y)) => x != y,
        _ => false,
    }
}

/// Whether trees are the branches of a conditional statement (CIL Reference Guide, "booleanif"): one, or one for each value.
pub fn are_branches(trees: TreeSlice<'_, '_>) -> bool
    ensures { result ≡ are_branches (trees_of trees.entry) }
{
    let Some((items, rest)) = split_list(trees) else {
        return false;
    };
    let first = branch_value(items);
    if rest.is_empty() {
        return first.is_some();
    }
    let Some((items, behind)) = split_list(rest) else {
        return false;
    };
    if !behind.is_empty() {
        return false;
    }
    differ(first, branch_value(items))
}

/// Whether a branch with this first word is the one for a value.
pub fn is_for(holds: bool, branch: &[u8]) -> bool
    ensures { result ≡ bytes_eq branch.now (cond holds (codes "true") (codes "false")) }
{
    if holds {
        branch == b"true".as_slice()
    } else {
        branch == b"false".as_slice()
    }
}

/// What stands behind the first word of the first branch for a value.
pub fn branch_for<'t, 'a>(holds: bool, branches: TreeSlice<'t, 'a>) -> Option<TreeSlice<'t, 'a>>
    ensures { option_map (λ inner. trees_of inner) result
        ≡ branch_for holds (trees_of branches.entry) }
{
    let mut rest = branches;
    while let Some((tree, behind)) = rest.split_first() {
        if let Tree::List { items, .. } = tree {
            if let Some((branch, inner)) = split_word(items) {
                if is_for(holds, branch.text) {
                    return Some(inner);
                }
            }
        }
        rest = behind;
    }
    None
}
