//! Classes and their permissions.

ghost use Rattle.std.specs.Prelude.{IfOk};
ghost use Rattle.cil_reader.specs.Common.{trees_of};
ghost use Rattle.cil_projection.specs.Forms.{Adds, class_permissions, classes_in, listed};

use crate::names::add_expression;
use crate::operand::Operand;
use crate::piece::{Piece, add_piece};
use crate::split::{split_list, split_word};
use cil_reader::{Tree, TreeSlice, Word};
use std::alloc::{AllocError, Allocator};

/// Adds classes, where trees are them and nothing else.
pub fn add_classes<'a, A: Allocator>(
    pieces: &mut Vec<Piece<'a>, A>,
    trees: TreeSlice<'_, 'a>,
) -> Result<bool, AllocError>
    ensures { IfOk result (λ fits.
        Adds pieces.old.items pieces.new.items fits (classes_in (trees_of trees.entry))) }
{
    let mut rest = trees;
    while let Some((tree, behind)) = rest.split_first() {
        let Tree::Word(word) = tree else {
            return Ok(false);
        };
        add_piece(pieces, Piece::Class { name: word.text })?;
        rest = behind;
    }
    Ok(true)
}

/// Adds a class with the permissions among these trees and in lists among them, where there is no string.
fn add_listed<'a, A: Allocator>(
    pieces: &mut Vec<Piece<'a>, A>,
    class: Word<'a>,
    items: TreeSlice<'_, 'a>,
) -> Result<bool, AllocError>
    ensures { IfOk result (λ fits. Adds pieces.old.items pieces.new.items fits
        (listed class.entry.text.now (trees_of items.entry))) }
{
    add_piece(pieces, Piece::Opened { class: class.text })?;
    if !add_expression(pieces, Operand::Permission, items)? {
        return Ok(false);
    }
    add_piece(pieces, Piece::Closed)?;
    Ok(true)
}

/// Adds a class and its permissions, where trees are a class and a list of permissions, with lists among them.
pub fn add_class_permissions<'a, A: Allocator>(
    pieces: &mut Vec<Piece<'a>, A>,
    trees: TreeSlice<'_, 'a>,
) -> Result<bool, AllocError>
    ensures { IfOk result (λ fits.
        Adds pieces.old.items pieces.new.items fits (class_permissions (trees_of trees.entry))) }
{
    let Some((class, rest)) = split_word(trees) else {
        return Ok(false);
    };
    let Some((items, behind)) = split_list(rest) else {
        return Ok(false);
    };
    if !behind.is_empty() {
        return Ok(false);
    }
    add_listed(pieces, class, items)
}
