//! Statements that hold no others.

ghost use Rattle.std.specs.Prelude.{◌≡◌, ◌++◌, ◌∷◌, [], OnOk};
ghost use Rattle.cil_projection.specs.Pieces.{copied, pieces_of};

use crate::booleans::Booleans;
use crate::branches::are_branches;
use crate::by_names::{Span, by_names};
use crate::condition::list_value;
use crate::names::{add_name, add_operands};
use crate::needs::Choice;
use crate::operand::Operand;
use crate::piece::{Piece, add_piece};
use crate::table::Table;
use cil_reader::{Tree, TreeSlice, Word};
use std::alloc::{AllocError, Allocator};

/// What statements are projected by.
#[derive(Clone, Copy)]
pub struct Projector<'w, 'm, A: Allocator> {
    pub alloc: A,
    pub booleans: &'w Booleans<'m, A>,
}

/// Adds a statement as it is.
pub fn add_copied<'a, A: Allocator>(
    pieces: &mut Vec<Piece<'a>, A>,
    span: Span,
) -> Result<(), AllocError>
    ensures { OnOk result (pieces_of pieces.new.items
        ≡ pieces_of pieces.old.items ++ copied span.from span.to ∷ []) }
{
    let copied = Piece::Copied {
        from: span.from,
        to: span.to,
    };
    add_piece(pieces, copied)
}

impl<'w, 'm, A: Allocator + Copy> Projector<'w, 'm, A> {
    ghost use Rattle.std.specs.Prelude.{◌≡◌, ◌++◌, IfOk, OnOk, Some, option_map};
    ghost use Rattle.cil_reader.specs.Common.{tree_then, trees_of};
    ghost use Rattle.cil_projection.specs.Pieces.{pieces_of};
    ghost use Rattle.cil_projection.specs.Conditions.{settings_of};
    ghost use Rattle.cil_projection.specs.Statements.{chosen, condition_names, condition_value, conditional, or_copied, statement};
    ghost use Rattle.cil_specs.specs.Trees.{Trees};

    /// Adds the names of a condition, which is this tree, and finds its value. The names are of this table.
    pub fn add_condition<'a>(
        &self,
        names: &mut Vec<Piece<'a>, A>,
        table: Table,
        tree: Tree<'_, 'a>,
    ) -> Result<Option<bool>, AllocError>
        ensures names { OnOk result ((rest : Trees) → pieces_of names.new.items ≡ pieces_of names.old.items
            ++ condition_names table (tree_then tree.entry rest)) }
        ensures value { IfOk result (λ found. (rest : Trees) → found
            ≡ condition_value (settings_of self.now.booleans.now) (tree_then tree.entry rest)) }
    {
        match tree {
            Tree::Word(word) => {
                add_name(names, table, word)?;
                Ok(self.booleans.value(word.text))
            }
            Tree::String(_) => Ok(None),
            Tree::List { items, .. } => {
                add_operands(names, Operand::Name(table), items)?;
                list_value(self.alloc, self.booleans, items)
            }
        }
    }

    /// The pieces of a conditional statement whose condition has a value (CIL Reference Guide, "booleanif").
    fn chosen<'a>(
        &self,
        span: Span,
        holds: bool,
        names: Vec<Piece<'a>, A>,
        branches: TreeSlice<'_, 'a>,
    ) -> Result<Option<Vec<Piece<'a>, A>>, AllocError>
        ensures { IfOk result (λ found. option_map (λ pieces. pieces_of pieces.items) found
            ≡ chosen (settings_of self.now.booleans.now) span.from span.to (Some holds)
            (pieces_of names.entry.items) (trees_of branches.entry)) }
    {
        if !are_branches(branches) {
            return Ok(None);
        }
        let choice = Choice {
            booleans: self.booleans,
            holds,
        };
        let mut names = names;
        let mut pieces = Vec::new(self.alloc);
        choice.add_kept(&mut pieces, span.from, branches, span.to)?;
        let taken = Piece::Taken {
            keyword: b"booleanif",
        };
        add_piece(&mut pieces, taken)?;
        pieces.append(&mut names)?;
        if !choice.add_branches(&mut pieces, self.alloc, branches)? {
            return Ok(None);
        }
        Ok(Some(pieces))
    }

    /// The pieces of a conditional statement with these arguments.
    fn conditional<'a>(
        &self,
        span: Span,
        arguments: TreeSlice<'_, 'a>,
    ) -> Result<Option<Vec<Piece<'a>, A>>, AllocError>
        ensures { IfOk result (λ found. option_map (λ pieces. pieces_of pieces.items) found
            ≡ conditional (settings_of self.now.booleans.now) span.from span.to
            (trees_of arguments.entry)) }
    {
        let Some((condition, branches)) = arguments.split_first() else {
            return Ok(None);
        };
        let mut names = Vec::new(self.alloc);
        let Some(holds) = self.add_condition(&mut names, Table::Booleans, condition)? else {
            return Ok(None);
        };
        self.chosen(span, holds, names, branches)
    }

    /// The pieces of a statement with this first word that holds no others, where it is taken by its names.
    fn foreign<'a>(
        &self,
        span: Span,
        word: Word<'a>,
        arguments: TreeSlice<'_, 'a>,
    ) -> Result<Option<Vec<Piece<'a>, A>>, AllocError>
        ensures { IfOk result (λ found. option_map (λ pieces. pieces_of pieces.items) found
            ≡ statement (settings_of self.now.booleans.now) span.from span.to word.entry.text.now
            (trees_of arguments.entry)) }
    {
        if word.text == b"booleanif".as_slice() {
            return self.conditional(span, arguments);
        }
        by_names(self.alloc, span, word, arguments)
    }

    /// Adds the pieces of a statement with this first word that holds no others.
    pub fn add_statement<'a>(
        &self,
        pieces: &mut Vec<Piece<'a>, A>,
        span: Span,
        word: Word<'a>,
        arguments: TreeSlice<'_, 'a>,
    ) -> Result<(), AllocError>
        ensures { OnOk result (pieces_of pieces.new.items ≡ pieces_of pieces.old.items
            ++ or_copied span.from span.to (statement (settings_of self.now.booleans.now)
            span.from span.to word.entry.text.now (trees_of arguments.entry))) }
    {
        let Some(mut found) = self.foreign(span, word, arguments)? else {
            return add_copied(pieces, span);
        };
        pieces.append(&mut found)?;
        Ok(())
    }
}
