//! The names that the rules of conditional statements need.

ghost use Rattle.std.specs.Prelude.{◌≡◌, IfOk, option_map};
ghost use Rattle.cil_reader.specs.Common.{trees_of};
ghost use Rattle.cil_projection.specs.Pieces.{pieces_of};
ghost use Rattle.cil_projection.specs.Forms.{Adds};
ghost use Rattle.cil_projection.specs.Statements.{rule_needs, rules, rules_need, type_rule_needs};
ghost use Rattle.cil_specs.specs.Shape.{is_among};

use crate::booleans::Booleans;
use crate::branches::is_for;
use crate::fit::{fit, fitted};
use crate::part::Part;
use crate::piece::{Piece, add_piece};
use crate::split::split_word;
use crate::table::Table;
use crate::words::is_among;
use cil_reader::{Tree, TreeSlice};
use std::alloc::{AllocError, Allocator};

const RULES: [&[u8]; 4] = [b"allow", b"auditallow", b"dontaudit", b"neverallow"];

const TYPE_RULES: [&[u8]; 3] = [b"typetransition", b"typechange", b"typemember"];

/// The arguments of an access vector rule (CIL Reference Guide, "Access Vector Rules").
const RULE: [Part; 3] = [
    Part::Name(Table::Types),
    Part::Target,
    Part::ClassPermissions,
];

/// The arguments of a type rule (CIL Reference Guide, "Type Statements").
const TYPE_RULE: [Part; 4] = [
    Part::Name(Table::Types),
    Part::Target,
    Part::Class,
    Part::Name(Table::Types),
];

/// The arguments of a transition with the name of an object.
const NAMED_TYPE_RULE: [Part; 5] = [
    Part::Name(Table::Types),
    Part::Target,
    Part::Class,
    Part::Ignored,
    Part::Name(Table::Types),
];

/// Whether a word begins an access vector rule.
pub fn begins_rule(word: &[u8]) -> bool
    ensures { result ≡ is_among rules word.now }
{
    is_among(&RULES, word)
}

/// The names that a type rule needs.
fn type_rule_needs<'a, A: Allocator + Copy>(
    alloc: A,
    arguments: TreeSlice<'_, 'a>,
) -> Result<Option<Vec<Piece<'a>, A>>, AllocError>
    ensures { IfOk result (λ found. option_map (λ pieces. pieces_of pieces.items) found
        ≡ type_rule_needs (trees_of arguments.entry)) }
{
    if let Some(pieces) = fitted(alloc, &TYPE_RULE, arguments)? {
        return Ok(Some(pieces));
    }
    fitted(alloc, &NAMED_TYPE_RULE, arguments)
}

/// Adds the names that a rule in a branch needs beside those that it names where it stands.
fn add_rule_needs<'a, A: Allocator + Copy>(
    pieces: &mut Vec<Piece<'a>, A>,
    alloc: A,
    stays: bool,
    word: &'a [u8],
    arguments: TreeSlice<'_, 'a>,
) -> Result<bool, AllocError>
    ensures { IfOk result (λ fits. Adds pieces.old.items pieces.new.items fits
        (rule_needs stays word.now (trees_of arguments.entry))) }
{
    if begins_rule(word) {
        if stays {
            return Ok(true);
        }
        return fit(pieces, &RULE, arguments);
    }
    if !is_among(&TYPE_RULES, word) {
        return Ok(false);
    }
    let Some(mut needs) = type_rule_needs(alloc, arguments)? else {
        return Ok(false);
    };
    add_piece(pieces, Piece::Taken { keyword: word })?;
    pieces.append(&mut needs)?;
    Ok(true)
}

/// Adds the names that the rules of a branch need.
fn add_rules<'a, A: Allocator + Copy>(
    pieces: &mut Vec<Piece<'a>, A>,
    alloc: A,
    stay: bool,
    rules: TreeSlice<'_, 'a>,
) -> Result<bool, AllocError>
    ensures { IfOk result (λ fits. Adds pieces.old.items pieces.new.items fits
        (rules_need stay (trees_of rules.entry))) }
{
    let mut rest = rules;
    while let Some((tree, behind)) = rest.split_first() {
        let Tree::List { items, .. } = tree else {
            return Ok(false);
        };
        let Some((word, arguments)) = split_word(items) else {
            return Ok(false);
        };
        if !add_rule_needs(pieces, alloc, stay, word.text, arguments)? {
            return Ok(false);
        }
        rest = behind;
    }
    Ok(true)
}

/// What is known where the names of branches are added: the values, and that of the condition.
#[derive(Clone, Copy)]
pub struct Choice<'w, 'm, A: Allocator> {
    pub booleans: &'w Booleans<'m, A>,
    pub holds: bool,
}

impl<'w, 'm, A: Allocator + Copy> Choice<'w, 'm, A> {
    ghost use Rattle.std.specs.Prelude.{◌≡◌, IfOk};
    ghost use Rattle.cil_specs.specs.Trees.{Trees};
    ghost use Rattle.cil_reader.specs.Common.{tree_then, trees_of};
    ghost use Rattle.cil_projection.specs.Forms.{Adds};
    ghost use Rattle.cil_projection.specs.Conditions.{settings_of};
    ghost use Rattle.cil_projection.specs.Statements.{branch_needs, branches_need, is_taken, of_first_list};

    /// Whether the rules of a branch are taken.
    pub fn takes(self, branch: &[u8]) -> bool
        ensures { result ≡ is_taken (settings_of self.entry.booleans.now) self.entry.holds branch.now }
    {
        if self.booleans.takes_both() {
            return true;
        }
        is_for(self.holds, branch)
    }

    /// Adds the names that a branch needs, which is this tree.
    fn add_branch<'a>(
        self,
        pieces: &mut Vec<Piece<'a>, A>,
        alloc: A,
        tree: Tree<'_, 'a>,
    ) -> Result<bool, AllocError>
        ensures { IfOk result (λ fits. (rest : Trees) → Adds pieces.old.items pieces.new.items fits
            (of_first_list (branch_needs (settings_of self.entry.booleans.now) self.entry.holds)
            (tree_then tree.entry rest))) }
    {
        let Tree::List { items, .. } = tree else {
            return Ok(false);
        };
        let Some((branch, rules)) = split_word(items) else {
            return Ok(false);
        };
        if !is_among(&[b"true", b"false"], branch.text) {
            return Ok(false);
        }
        add_rules(pieces, alloc, self.takes(branch.text), rules)
    }

    /// Adds the names that the rules of branches need, but for those that stay where they are.
    pub fn add_branches<'a>(
        self,
        pieces: &mut Vec<Piece<'a>, A>,
        alloc: A,
        branches: TreeSlice<'_, 'a>,
    ) -> Result<bool, AllocError>
        ensures { IfOk result (λ fits. Adds pieces.old.items pieces.new.items fits
            (branches_need (settings_of self.entry.booleans.now) self.entry.holds
            (trees_of branches.entry))) }
    {
        let mut rest = branches;
        while let Some((tree, behind)) = rest.split_first() {
            if !self.add_branch(pieces, alloc, tree)? {
                return Ok(false);
            }
            rest = behind;
        }
        Ok(true)
    }
}
