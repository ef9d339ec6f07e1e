//! Statements one after the other, and those that hold others.

ghost use Rattle.std.specs.Prelude.{◌≡◌};
ghost use Rattle.cil_projection.specs.Pieces.{piece_of};
ghost use Rattle.cil_projection.specs.Statements.{between};

use crate::body::holds_others;
use crate::branches::{are_branches, branch_for};
use crate::by_names::Span;
use crate::piece::{Piece, add_piece};
use crate::split::split_word;
use crate::statement::{Projector, add_copied};
use crate::table::Table;
use cil_reader::{Tree, TreeSlice};
use std::alloc::{AllocError, Allocator};

/// What stands between statements: it stays, or it is blanked.
fn between<'a>(stays: bool, from: u32, to: u32) -> Piece<'a>
    ensures { piece_of result ≡ between stays from to }
{
    if stays {
        Piece::Copied { from, to }
    } else {
        Piece::Blanked { from, to }
    }
}

impl<'w, 'm, A: Allocator + Copy> Projector<'w, 'm, A> {
    ghost use Rattle.std.specs.Prelude.{◌≡◌, ◌++◌, OnOk};
    ghost use Rattle.cil_reader.specs.Common.{trees_of};
    ghost use Rattle.cil_projection.specs.Pieces.{pieces_of};
    ghost use Rattle.cil_projection.specs.Conditions.{settings_of};
    ghost use Rattle.cil_projection.specs.Statements.{body_projected, branch_projected, one_projected, projected, tunable_projected};

    /// Adds the pieces of statements one after the other, from an offset on up to another, with what stands between them, which stays or is
    /// blanked.
    #[cycle(statements)]
    pub fn add_statements<'a>(
        &self,
        pieces: &mut Vec<Piece<'a>, A>,
        span: Span,
        stays: bool,
        trees: TreeSlice<'_, 'a>,
    ) -> Result<(), AllocError>
        ensures { OnOk result (pieces_of pieces.new.items ≡ pieces_of pieces.old.items
            ++ projected (settings_of self.now.booleans.now) stays span.from
            (trees_of trees.entry) span.to) }
    {
        let mut from = span.from;
        let mut rest = trees;
        while let Some((tree, behind)) = rest.split_first() {
            if let Tree::List { at, end, items } = tree {
                add_piece(pieces, between(stays, from, at.offset))?;
                let inner = Span {
                    from: at.offset,
                    to: end,
                };
                self.add_one(pieces, inner, items)?;
                from = end;
            }
            rest = behind;
        }
        add_piece(pieces, between(stays, from, span.to))
    }

    /// Adds the pieces of the statement that a list of these trees is.
    #[cycle(statements)]
    fn add_one<'a>(
        &self,
        pieces: &mut Vec<Piece<'a>, A>,
        span: Span,
        items: TreeSlice<'_, 'a>,
    ) -> Result<(), AllocError>
        ensures { OnOk result (pieces_of pieces.new.items ≡ pieces_of pieces.old.items
            ++ one_projected (settings_of self.now.booleans.now) span.from span.to
            (trees_of items.entry)) }
    {
        let Some((word, arguments)) = split_word(items) else {
            return add_copied(pieces, span);
        };
        if holds_others(word.text) {
            return self.add_body(pieces, span, arguments);
        }
        if word.text == b"tunableif".as_slice() {
            return self.add_tunable(pieces, span, arguments);
        }
        self.add_statement(pieces, span, word, arguments)
    }

    /// Adds the pieces of a block or an optional with these arguments.
    #[cycle(statements)]
    fn add_body<'a>(
        &self,
        pieces: &mut Vec<Piece<'a>, A>,
        span: Span,
        arguments: TreeSlice<'_, 'a>,
    ) -> Result<(), AllocError>
        ensures { OnOk result (pieces_of pieces.new.items ≡ pieces_of pieces.old.items
            ++ body_projected (settings_of self.now.booleans.now) span.from span.to
            (trees_of arguments.entry)) }
    {
        let Some((_id, body)) = split_word(arguments) else {
            return add_copied(pieces, span);
        };
        self.add_statements(pieces, span, true, body)
    }

    /// Adds the pieces of a conditional statement of tunables with these arguments (CIL Reference Guide, "tunableif"): the statements of
    /// the branch that holds where they stand, and behind them the names of the condition.
    #[cycle(statements)]
    fn add_tunable<'a>(
        &self,
        pieces: &mut Vec<Piece<'a>, A>,
        span: Span,
        arguments: TreeSlice<'_, 'a>,
    ) -> Result<(), AllocError>
        ensures { OnOk result (pieces_of pieces.new.items ≡ pieces_of pieces.old.items
            ++ tunable_projected (settings_of self.now.booleans.now) span.from span.to
            (trees_of arguments.entry)) }
    {
        let Some((condition, branches)) = arguments.split_first() else {
            return add_copied(pieces, span);
        };
        if !are_branches(branches) {
            return add_copied(pieces, span);
        }
        let mut names = Vec::new(self.alloc);
        let Some(holds) = self.add_condition(&mut names, Table::Tunables, condition)? else {
            return add_copied(pieces, span);
        };
        self.add_branch(pieces, span, holds, branches)?;
        let taken = Piece::Taken {
            keyword: b"tunableif",
        };
        add_piece(pieces, taken)?;
        pieces.append(&mut names)?;
        Ok(())
    }

    /// Adds the statements of the branch for a value, where there is one, and all else blanked.
    #[cycle(statements)]
    fn add_branch<'a>(
        &self,
        pieces: &mut Vec<Piece<'a>, A>,
        span: Span,
        holds: bool,
        branches: TreeSlice<'_, 'a>,
    ) -> Result<(), AllocError>
        ensures { OnOk result (pieces_of pieces.new.items ≡ pieces_of pieces.old.items
            ++ branch_projected (settings_of self.now.booleans.now) holds span.from span.to
            (trees_of branches.entry)) }
    {
        let Some(inner) = branch_for(holds, branches) else {
            let blanked = Piece::Blanked {
                from: span.from,
                to: span.to,
            };
            add_piece(pieces, blanked)?;
            return Ok(());
        };
        self.add_statements(pieces, span, false, inner)
    }
}
