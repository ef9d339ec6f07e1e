//! The names and the permissions in trees.

ghost use Rattle.std.specs.Prelude.{◌≡◌, ◌++◌, IfOk, OnOk};
ghost use Rattle.cil_reader.specs.Common.{trees_of};
ghost use Rattle.cil_projection.specs.Pieces.{pieces_of};
ghost use Rattle.cil_projection.specs.Forms.{Adds, expression_needs, has_no_string, listed_names, name_or_operator, of_operand, operands_in, permission_or_operator};

use crate::operand::Operand;
use crate::piece::{Piece, add_piece};
use crate::table::Table;
use crate::words::is_among;
use cil_reader::{Tree, TreeSlice, Word};
use std::alloc::{AllocError, Allocator};

/// The words that are no names in expressions and in conditions.
pub const OPERATORS: [&[u8]; 8] = [
    b"and", b"or", b"xor", b"not", b"all", b"eq", b"neq", b"range",
];

/// The words that are no permissions in expressions of them.
const PERMISSION_OPERATORS: [&[u8]; 5] = [b"and", b"or", b"xor", b"not", b"all"];

/// Adds a name that is needed, where the word is one and no operator.
pub fn add_name<'a, A: Allocator>(
    pieces: &mut Vec<Piece<'a>, A>,
    table: Table,
    word: Word<'a>,
) -> Result<(), AllocError>
    ensures { OnOk result (pieces_of pieces.new.items
        ≡ pieces_of pieces.old.items ++ name_or_operator table word.entry.text.now) }
{
    if is_among(&OPERATORS, word.text) {
        return Ok(());
    }
    let needed = Piece::Needed {
        table,
        name: word.text,
    };
    add_piece(pieces, needed)
}

/// Adds a permission that is needed, where the word is one and no operator.
fn add_permission<'a, A: Allocator>(
    pieces: &mut Vec<Piece<'a>, A>,
    word: Word<'a>,
) -> Result<(), AllocError>
    ensures { OnOk result (pieces_of pieces.new.items
        ≡ pieces_of pieces.old.items ++ permission_or_operator word.entry.text.now) }
{
    if is_among(&PERMISSION_OPERATORS, word.text) {
        return Ok(());
    }
    add_piece(pieces, Piece::Permission { name: word.text })
}

/// Adds an operand of an expression, where the word is one and no operator.
fn add_operand<'a, A: Allocator>(
    pieces: &mut Vec<Piece<'a>, A>,
    operand: Operand,
    word: Word<'a>,
) -> Result<(), AllocError>
    ensures { OnOk result (pieces_of pieces.new.items
        ≡ pieces_of pieces.old.items ++ of_operand operand word.entry.text.now) }
{
    match operand {
        Operand::Name(table) => add_name(pieces, table, word),
        Operand::Permission => add_permission(pieces, word),
    }
}

/// Adds the operands that are needed in trees, and in the lists among them.
#[cycle(operands)]
pub fn add_operands<'a, A: Allocator>(
    pieces: &mut Vec<Piece<'a>, A>,
    operand: Operand,
    trees: TreeSlice<'_, 'a>,
) -> Result<(), AllocError>
    ensures { OnOk result (pieces_of pieces.new.items
        ≡ pieces_of pieces.old.items ++ operands_in operand (trees_of trees.entry)) }
{
    let mut rest = trees;
    while let Some((tree, behind)) = rest.split_first() {
        match tree {
            Tree::Word(word) => add_operand(pieces, operand, word)?,
            Tree::String(_) => {}
            Tree::List { items, .. } => add_operands(pieces, operand, items)?,
        }
        rest = behind;
    }
    Ok(())
}

/// Whether there is no string in trees, nor in the lists among them.
#[cycle(strings)]
fn has_no_string(trees: TreeSlice<'_, '_>) -> bool
    ensures { result ≡ has_no_string (trees_of trees.entry) }
{
    let mut rest = trees;
    while let Some((tree, behind)) = rest.split_first() {
        match tree {
            Tree::Word(_) => {}
            Tree::String(_) => return false,
            Tree::List { items, .. } => {
                if !has_no_string(items) {
                    return false;
                }
            }
        }
        rest = behind;
    }
    true
}

/// Adds the operands of an expression, where there is no string in it.
pub fn add_expression<'a, A: Allocator>(
    pieces: &mut Vec<Piece<'a>, A>,
    operand: Operand,
    trees: TreeSlice<'_, 'a>,
) -> Result<bool, AllocError>
    ensures { IfOk result (λ fits. Adds pieces.old.items pieces.new.items fits
        (expression_needs operand (trees_of trees.entry))) }
{
    if !has_no_string(trees) {
        return Ok(false);
    }
    add_operands(pieces, operand, trees)?;
    Ok(true)
}

/// Adds names, where trees are them and nothing else.
pub fn add_listed<'a, A: Allocator>(
    pieces: &mut Vec<Piece<'a>, A>,
    table: Table,
    trees: TreeSlice<'_, 'a>,
) -> Result<bool, AllocError>
    ensures { IfOk result (λ fits. Adds pieces.old.items pieces.new.items fits
        (listed_names table (trees_of trees.entry))) }
{
    let mut rest = trees;
    while let Some((tree, behind)) = rest.split_first() {
        let Tree::Word(word) = tree else {
            return Ok(false);
        };
        let needed = Piece::Needed {
            table,
            name: word.text,
        };
        add_piece(pieces, needed)?;
        rest = behind;
    }
    Ok(true)
}
