//! The declarations of booleans and tunables.

ghost use Rattle.std.specs.Prelude.{◌≡◌, ◌≤◌, length, IfErr, OnOk};
ghost use Rattle.cil_reader.specs.Common.{FaultIs, IsReadingFault, trees_of};
ghost use Rattle.cil_projection.specs.Conditions.{Collects, declarations, declared_behind_condition, declared_by, declared_inside, noted_all};

use crate::body::holds_others;
use crate::booleans::Booleans;
use crate::declaration::declaration;
use crate::split::split_word;
use cil_reader::{TextFault, Tree, TreeSlice, read};
use std::alloc::{AllocError, Allocator};

/// Notes the declarations in trees, in blocks, optionals and the branches of `tunableif` too.
#[cycle(notes)]
fn note_trees<'m, A: Allocator>(
    booleans: &mut Booleans<'m, A>,
    trees: TreeSlice<'_, 'm>,
) -> Result<(), AllocError>
    ensures { OnOk result
        (booleans.new ≡ noted_all booleans.old (declarations (trees_of trees.entry))) }
{
    let mut rest = trees;
    while let Some((tree, behind)) = rest.split_first() {
        if let Tree::List { items, .. } = tree {
            note_statement(booleans, items)?;
        }
        rest = behind;
    }
    Ok(())
}

/// Notes the declarations by the statement with these trees.
#[cycle(notes)]
fn note_statement<'m, A: Allocator>(
    booleans: &mut Booleans<'m, A>,
    items: TreeSlice<'_, 'm>,
) -> Result<(), AllocError>
    ensures { OnOk result
        (booleans.new ≡ noted_all booleans.old (declared_by (trees_of items.entry))) }
{
    let Some((word, arguments)) = split_word(items) else {
        return Ok(());
    };
    if holds_others(word.text) {
        return note_inside(booleans, arguments);
    }
    if word.text == b"tunableif".as_slice() {
        return note_behind_condition(booleans, arguments);
    }
    if let Some((name, value)) = declaration(items) {
        booleans.note(name, value)?;
    }
    Ok(())
}

/// Notes the declarations in statements behind a word.
#[cycle(notes)]
fn note_inside<'m, A: Allocator>(
    booleans: &mut Booleans<'m, A>,
    trees: TreeSlice<'_, 'm>,
) -> Result<(), AllocError>
    ensures { OnOk result
        (booleans.new ≡ noted_all booleans.old (declared_inside (trees_of trees.entry))) }
{
    let Some((_word, inner)) = split_word(trees) else {
        return Ok(());
    };
    note_trees(booleans, inner)
}

/// Notes the declarations in the branches behind a condition.
#[cycle(notes)]
fn note_behind_condition<'m, A: Allocator>(
    booleans: &mut Booleans<'m, A>,
    arguments: TreeSlice<'_, 'm>,
) -> Result<(), AllocError>
    ensures { OnOk result (booleans.new
        ≡ noted_all booleans.old (declared_behind_condition (trees_of arguments.entry))) }
{
    let Some((_condition, branches)) = arguments.split_first() else {
        return Ok(());
    };
    let mut rest = branches;
    while let Some((branch, behind)) = rest.split_first() {
        if let Tree::List { items, .. } = branch {
            note_inside(booleans, items)?;
        }
        rest = behind;
    }
    Ok(())
}

impl<'m, A: Allocator + Copy> Booleans<'m, A> {
    /// Notes the values that a text declares booleans and tunables with (CIL Reference Guide, "Conditional Statements"), in blocks,
    /// optionals and the branches of `tunableif` too.
    ///
    /// # Errors
    ///
    /// The reading fault of the text, and out of memory. After that some declarations may be noted.
    pub fn collect(&mut self, alloc: A, text: &'m [u8]) -> Result<(), TextFault<'m>>
        requires { length text.now ≤ 16777216 }
        ensures ok { OnOk result (Collects text.now self.old self.new) }
        ensures err { IfErr result (λ fault. FaultIs fault (IsReadingFault text.now)) }
    {
        let forest = read(alloc, text)?;
        note_trees(self, forest.trees())?;
        Ok(())
    }
}
