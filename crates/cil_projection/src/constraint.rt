//! The names of constraints.

ghost use Rattle.std.specs.Prelude.{◌≡◌, IfOk};
ghost use Rattle.cil_reader.specs.Common.{trees_of};
ghost use Rattle.cil_projection.specs.Forms.{Adds, compared, comparison, constraint, constraints, variable};

use crate::names::add_listed;
use crate::piece::{Piece, add_piece};
use crate::split::split_word;
use crate::table::Table;
use crate::words::is_among;
use cil_reader::{Tree, TreeSlice, Word};
use std::alloc::{AllocError, Allocator};

const TYPE_VARIABLES: [&[u8]; 3] = [b"t1", b"t2", b"t3"];

const ROLE_VARIABLES: [&[u8]; 3] = [b"r1", b"r2", b"r3"];

const USER_VARIABLES: [&[u8]; 3] = [b"u1", b"u2", b"u3"];

const LEVEL_VARIABLES: [&[u8]; 4] = [b"l1", b"l2", b"h1", b"h2"];

const CONNECTIVES: [&[u8]; 3] = [b"and", b"or", b"not"];

const COMPARISONS: [&[u8]; 5] = [b"eq", b"neq", b"dom", b"domby", b"incomp"];

/// The table of the names that a variable is compared with.
fn table_of(word: &[u8]) -> Option<Table>
    ensures { result ≡ variable word.now }
{
    if is_among(&TYPE_VARIABLES, word) {
        return Some(Table::Types);
    }
    if is_among(&ROLE_VARIABLES, word) {
        return Some(Table::Roles);
    }
    if is_among(&USER_VARIABLES, word) {
        return Some(Table::Users);
    }
    None
}

/// Adds the name that a variable of a table is compared with, where it is no variable.
fn add_compared<'a, A: Allocator>(
    pieces: &mut Vec<Piece<'a>, A>,
    table: Option<Table>,
    word: Word<'a>,
) -> Result<bool, AllocError>
    ensures { IfOk result (λ fits.
        Adds pieces.old.items pieces.new.items fits (compared table word.entry.text.now)) }
{
    let Some(table) = table else {
        return Ok(false);
    };
    if table_of(word.text).is_none() {
        let needed = Piece::Needed {
            table,
            name: word.text,
        };
        add_piece(pieces, needed)?;
    }
    Ok(true)
}

/// Adds the names of a comparison's operands. Levels are compared with each other alone.
fn add_comparison<'a, A: Allocator>(
    pieces: &mut Vec<Piece<'a>, A>,
    operands: TreeSlice<'_, 'a>,
) -> Result<bool, AllocError>
    ensures { IfOk result (λ fits.
        Adds pieces.old.items pieces.new.items fits (comparison (trees_of operands.entry))) }
{
    let Some((left, rest)) = split_word(operands) else {
        return Ok(false);
    };
    let Some((right, behind)) = rest.split_first() else {
        return Ok(false);
    };
    if !behind.is_empty() {
        return Ok(false);
    }
    let table = table_of(left.text);
    match right {
        Tree::Word(word) if is_among(&LEVEL_VARIABLES, left.text) => {
            Ok(is_among(&LEVEL_VARIABLES, word.text))
        }
        Tree::Word(word) => add_compared(pieces, table, word),
        Tree::String(_) => Ok(false),
        Tree::List { items, .. } => {
            let Some(table) = table else {
                return Ok(false);
            };
            add_listed(pieces, table, items)
        }
    }
}

/// Adds the names of the constraint that a list of these trees is (CIL Reference Guide, "constrain").
#[cycle(constraint)]
pub fn add_constraint<'a, A: Allocator>(
    pieces: &mut Vec<Piece<'a>, A>,
    items: TreeSlice<'_, 'a>,
) -> Result<bool, AllocError>
    ensures { IfOk result (λ fits.
        Adds pieces.old.items pieces.new.items fits (constraint (trees_of items.entry))) }
{
    let Some((operator, operands)) = split_word(items) else {
        return Ok(false);
    };
    if is_among(&CONNECTIVES, operator.text) {
        return add_constraints(pieces, operands);
    }
    if is_among(&COMPARISONS, operator.text) {
        return add_comparison(pieces, operands);
    }
    Ok(false)
}

/// Adds the names of constraints one after the other.
#[cycle(constraint)]
fn add_constraints<'a, A: Allocator>(
    pieces: &mut Vec<Piece<'a>, A>,
    trees: TreeSlice<'_, 'a>,
) -> Result<bool, AllocError>
    ensures { IfOk result (λ fits.
        Adds pieces.old.items pieces.new.items fits (constraints (trees_of trees.entry))) }
{
    let mut rest = trees;
    while let Some((tree, behind)) = rest.split_first() {
        let Tree::List { items, .. } = tree else {
            return Ok(false);
        };
        if !add_constraint(pieces, items)? {
            return Ok(false);
        }
        rest = behind;
    }
    Ok(true)
}
