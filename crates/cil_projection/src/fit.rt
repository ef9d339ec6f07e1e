//! Arguments that fit the forms of statements.

ghost use Rattle.std.specs.Prelude.{◌≡◌, IfOk, option_map};
ghost use Rattle.cil_projection.specs.Pieces.{pieces_of};
ghost use Rattle.cil_specs.specs.Trees.{Trees};
ghost use Rattle.cil_reader.specs.Common.{tree_then, trees_of};
ghost use Rattle.cil_projection.specs.Forms.{Adds, fit, inner_parts, level, of_first, of_list, of_word};

use crate::class::{add_class_permissions, add_classes};
use crate::constraint::add_constraint;
use crate::declaration::truth;
use crate::names::{add_expression, add_listed, add_name};
use crate::operand::Operand;
use crate::part::Part;
use crate::piece::{Piece, add_piece};
use crate::split::split_word;
use crate::table::Table;
use cil_reader::{Tree, TreeSlice, Word};
use std::alloc::{AllocError, Allocator};

/// A user, a role, a type and a range (CIL Reference Guide, "context").
const CONTEXT: [Part; 4] = [
    Part::Name(Table::Users),
    Part::Name(Table::Roles),
    Part::Name(Table::Types),
    Part::Range,
];

/// The levels of a range (CIL Reference Guide, "levelrange").
const RANGE: [Part; 2] = [Part::Level, Part::Level];

/// The kind, the class and the numbers of extended permissions (CIL Reference Guide, "permissionx").
const EXTENDED_PERMISSION: [Part; 3] = [Part::Ignored, Part::Class, Part::Ignored];

/// What the trees of a list are that is such an argument.
fn inner_parts(part: Part) -> &'static [Part]
    ensures { result.now ≡ inner_parts part }
{
    match part {
        Part::Context | Part::PerhapsContext => &CONTEXT,
        Part::Range => &RANGE,
        Part::ExtendedPermission => &EXTENDED_PERMISSION,
        _ => &[],
    }
}

/// Adds the name of an argument that is a word, where it fits.
fn add_word<'a, A: Allocator>(
    pieces: &mut Vec<Piece<'a>, A>,
    part: Part,
    word: Word<'a>,
) -> Result<bool, AllocError>
    ensures { IfOk result (λ fits.
        Adds pieces.old.items pieces.new.items fits (of_word part word.entry.text.now)) }
{
    let name = word.text;
    let piece = match part {
        Part::Declared(table) => Piece::Declared { table, name },
        Part::Class | Part::Classes => Piece::Class { name },
        Part::ClassPermissions => Piece::PermissionSet { name },
        Part::Expression(table) => {
            add_name(pieces, table, word)?;
            return Ok(true);
        }
        Part::Truth => return Ok(truth(name).is_some()),
        Part::Target if name == b"self".as_slice() => return Ok(true),
        Part::Ignored => return Ok(true),
        Part::Name(_) if name == b"self".as_slice() => return Ok(false),
        Part::Constraint => return Ok(false),
        Part::Name(table) | Part::Names(table) => Piece::Needed { table, name },
        Part::Target => Piece::Needed {
            table: Table::Types,
            name,
        },
        Part::Context | Part::PerhapsContext => Piece::Needed {
            table: Table::Contexts,
            name,
        },
        Part::Range => Piece::Needed {
            table: Table::Ranges,
            name,
        },
        Part::Level => Piece::Needed {
            table: Table::Levels,
            name,
        },
        Part::Address => Piece::Needed {
            table: Table::Addresses,
            name,
        },
        Part::ExtendedPermission => Piece::Needed {
            table: Table::ExtendedPermissions,
            name,
        },
    };
    add_piece(pieces, piece)?;
    Ok(true)
}

/// Adds a sensitivity and categories (CIL Reference Guide, "level").
fn add_level<'a, A: Allocator>(
    pieces: &mut Vec<Piece<'a>, A>,
    items: TreeSlice<'_, 'a>,
) -> Result<bool, AllocError>
    ensures { IfOk result (λ fits.
        Adds pieces.old.items pieces.new.items fits (level (trees_of items.entry))) }
{
    let Some((sensitivity, categories)) = split_word(items) else {
        return Ok(false);
    };
    let needed = Piece::Needed {
        table: Table::Sensitivities,
        name: sensitivity.text,
    };
    add_piece(pieces, needed)?;
    add_expression(pieces, Operand::Name(Table::Categories), categories)
}

/// Adds the names of an argument that is a list of these trees.
#[cycle(fit)]
fn add_list<'a, A: Allocator>(
    pieces: &mut Vec<Piece<'a>, A>,
    part: Part,
    items: TreeSlice<'_, 'a>,
) -> Result<bool, AllocError>
    ensures { IfOk result (λ fits. Adds pieces.old.items pieces.new.items fits
        (of_list part (trees_of items.entry) (fit (inner_parts part) (trees_of items.entry)))) }
{
    match part {
        Part::Expression(table) => add_expression(pieces, Operand::Name(table), items),
        Part::Names(table) => add_listed(pieces, table, items),
        Part::Ignored | Part::Address => Ok(true),
        Part::Classes => add_classes(pieces, items),
        Part::ClassPermissions => add_class_permissions(pieces, items),
        Part::Level => add_level(pieces, items),
        Part::Constraint => add_constraint(pieces, items),
        Part::PerhapsContext if items.is_empty() => Ok(true),
        Part::Context | Part::PerhapsContext | Part::Range | Part::ExtendedPermission => {
            fit(pieces, inner_parts(part), items)
        }
        Part::Declared(_) | Part::Name(_) | Part::Target | Part::Truth | Part::Class => Ok(false),
    }
}

/// Adds the names of an argument, which is this tree.
#[cycle(fit)]
fn add_part<'a, A: Allocator>(
    pieces: &mut Vec<Piece<'a>, A>,
    part: Part,
    tree: Tree<'_, 'a>,
) -> Result<bool, AllocError>
    ensures { IfOk result (λ fits. (rest : Trees) → Adds pieces.old.items pieces.new.items fits
        (of_first part (tree_then tree.entry rest))) }
{
    match tree {
        Tree::Word(word) => add_word(pieces, part, word),
        Tree::String(_) => Ok(matches!(part, Part::Ignored)),
        Tree::List { items, .. } => add_list(pieces, part, items),
    }
}

/// Adds the names that arguments declare and need, where they fit the parts of a form, one for each.
#[cycle(fit)]
pub fn fit<'a, A: Allocator>(
    pieces: &mut Vec<Piece<'a>, A>,
    parts: &[Part],
    trees: TreeSlice<'_, 'a>,
) -> Result<bool, AllocError>
    ensures { IfOk result (λ fits.
        Adds pieces.old.items pieces.new.items fits (fit parts.now (trees_of trees.entry))) }
{
    let [part, more @ ..] = parts else {
        return Ok(trees.is_empty());
    };
    let Some((tree, behind)) = trees.split_first() else {
        return Ok(false);
    };
    if !add_part(pieces, *part, tree)? {
        return Ok(false);
    }
    let fits = fit(pieces, more, behind)?;
    Ok(fits)
}

/// The names that arguments declare and need, where they fit the parts of a form.
pub fn fitted<'a, A: Allocator>(
    alloc: A,
    parts: &[Part],
    trees: TreeSlice<'_, 'a>,
) -> Result<Option<Vec<Piece<'a>, A>>, AllocError>
    ensures { IfOk result (λ found.
        option_map (λ pieces. pieces_of pieces.items) found ≡ fit parts.now (trees_of trees.entry)) }
{
    let mut pieces = Vec::new(alloc);
    if !fit(&mut pieces, parts, trees)? {
        return Ok(None);
    }
    Ok(Some(pieces))
}
