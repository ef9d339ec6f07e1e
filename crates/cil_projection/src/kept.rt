//! The rules of conditional statements that stay where they are.

ghost use Rattle.std.specs.Prelude.{◌≡◌, ◌++◌, OnOk};
ghost use Rattle.cil_reader.specs.Common.{trees_of};
ghost use Rattle.cil_projection.specs.Pieces.{pieces_of};
ghost use Rattle.cil_projection.specs.Statements.{kept_rules};

use crate::needs::{Choice, begins_rule};
use crate::piece::{Piece, add_piece};
use crate::split::split_word;
use cil_reader::{Tree, TreeSlice};
use std::alloc::{AllocError, Allocator};

/// Adds the pieces from an offset up to another: access vector rules as they are, and all else blanked.
fn add_kept_rules<'a, A: Allocator>(
    pieces: &mut Vec<Piece<'a>, A>,
    from: u32,
    rules: TreeSlice<'_, 'a>,
    to: u32,
) -> Result<(), AllocError>
    ensures { OnOk result (pieces_of pieces.new.items
        ≡ pieces_of pieces.old.items ++ kept_rules from (trees_of rules.entry) to) }
{
    let mut from = from;
    let mut rest = rules;
    while let Some((tree, behind)) = rest.split_first() {
        if let Tree::List { at, end, items } = tree {
            if let Some((word, _)) = split_word(items) {
                if begins_rule(word.text) {
                    let blanked = Piece::Blanked {
                        from,
                        to: at.offset,
                    };
                    add_piece(pieces, blanked)?;
                    let copied = Piece::Copied {
                        from: at.offset,
                        to: end,
                    };
                    add_piece(pieces, copied)?;
                    from = end;
                }
            }
        }
        rest = behind;
    }
    add_piece(pieces, Piece::Blanked { from, to })
}

impl<'w, 'm, A: Allocator + Copy> Choice<'w, 'm, A> {
    ghost use Rattle.std.specs.Prelude.{◌≡◌, ◌++◌, OnOk};
    ghost use Rattle.cil_reader.specs.Common.{trees_of};
    ghost use Rattle.cil_projection.specs.Pieces.{pieces_of};
    ghost use Rattle.cil_projection.specs.Conditions.{settings_of};
    ghost use Rattle.cil_projection.specs.Statements.{kept_branches};

    /// Adds the pieces from an offset up to another: the access vector rules of the branches that are taken, and all else blanked.
    pub fn add_kept<'a>(
        self,
        pieces: &mut Vec<Piece<'a>, A>,
        from: u32,
        branches: TreeSlice<'_, 'a>,
        to: u32,
    ) -> Result<(), AllocError>
        ensures { OnOk result (pieces_of pieces.new.items ≡ pieces_of pieces.old.items
            ++ kept_branches (settings_of self.entry.booleans.now) self.entry.holds from
            (trees_of branches.entry) to) }
    {
        let mut from = from;
        let mut rest = branches;
        while let Some((tree, behind)) = rest.split_first() {
            if let Tree::List { end, items, .. } = tree {
                if let Some((branch, rules)) = split_word(items) {
                    if self.takes(branch.text) {
                        add_kept_rules(pieces, from, rules, end)?;
                        from = end;
                    }
                }
            }
            rest = behind;
        }
        add_piece(pieces, Piece::Blanked { from, to })
    }
}
