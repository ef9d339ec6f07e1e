//! Recognising expressions of types and of permissions.

ghost use Rattle.std.specs.Prelude.{◌≡◌, ℕ, IfOk, MatchOption, bytes_eq, codes};
ghost use Rattle.cil_text.specs.Common.{a_list, HasNoOperator, trees_of, tree_then, operator_word, AreExpressionList, SpellsExpr, SpellsBoxed, SpellsElements, SpellsOperation, SpellsOne, SpellsTwo, BeginsOperation};
ghost use Rattle.cil_specs.specs.Place.{Place as SpecPlace};

use crate::split::{only_list, only_tree, split_word};
use crate::statement::Expr;
use crate::words::look_up;
use cil_reader::{Tree, TreeSlice};
use std::alloc::{AllocError, Allocator};

/// The words that are operators where they stand first in a list.
#[derive(Clone, Copy, PartialEq, Eq)]
enum Operator {
    And,
    Or,
    Xor,
    Not,
    All,
}

// The operators, by how many bytes they have.
const OF_2: [(&[u8], Operator); 1] = [(b"or", Operator::Or)];

const OF_3: [(&[u8], Operator); 4] = [
    (b"and", Operator::And),
    (b"xor", Operator::Xor),
    (b"not", Operator::Not),
    (b"all", Operator::All),
];

impl Operator {
    ghost use Rattle.std.specs.Prelude.{◌≡◌, MatchOption, false};
    ghost use Rattle.cil_specs.specs.Shape.{is_among};
    ghost use Rattle.cil_specs.specs.Expr.{operators};
    ghost use Rattle.cil_text.specs.Expr.{operator_word};

    /// The operator that a word is.
    fn find(text: &[u8]) -> Option<Operator>
        ensures { MatchOption result (is_among operators text.now ≡ false)
            (λ operator. text.now ≡ operator_word operator) }
    {
        match text.len() {
            2 => look_up(&OF_2, text),
            3 => look_up(&OF_3, text),
            _ => None,
        }
    }
}

/// Whether it is the word that stands for all types or permissions.
#[inline(always)]
fn is_all(word: &[u8]) -> bool
    ensures { result ≡ bytes_eq word.now (codes "all") }
{
    matches!(word, [b'a', b'l', b'l'])
}

/// The expression that a tree spells, if it spells one (CIL Reference Guide, "Expressions" and
/// "typeattributeset"). That `all` and `()` are expressions too is this project's own choice.
#[cycle(expression)]
pub fn expression<'a, A: Allocator + Copy>(
    alloc: A,
    tree: Tree<'_, 'a>,
) -> Result<Option<Expr<'a, A>>, AllocError>
    ensures { IfOk result (SpellsExpr (tree_then tree.entry)) }
{
    match tree {
        Tree::Word(word) => {
            if is_all(word.text) {
                Ok(Some(Expr::All))
            } else {
                Ok(Some(Expr::Name(word)))
            }
        }
        Tree::String(_) => Ok(None),
        Tree::List { items, .. } => list_expression(alloc, items),
    }
}

/// The operator that stands first in a list, and its operands.
fn split_operator<'t, 'a>(items: TreeSlice<'t, 'a>) -> Option<(Operator, TreeSlice<'t, 'a>)>
    ensures { MatchOption result (HasNoOperator (trees_of items.entry))
        (λ found. BeginsOperation (trees_of items.entry) found.0 (trees_of found.1)) }
{
    let (word, operands) = split_word(items)?;
    Some((Operator::find(word.text)?, operands))
}

/// The expression that a list of these trees spells.
#[cycle(expression)]
fn list_expression<'a, A: Allocator + Copy>(
    alloc: A,
    items: TreeSlice<'_, 'a>,
) -> Result<Option<Expr<'a, A>>, AllocError>
    ensures { IfOk result (λ found. (at : SpecPlace) (end : ℕ)
        → SpellsExpr (a_list at end (trees_of items.entry)) found) }
{
    if let Some((operator, operands)) = split_operator(items) {
        return operation(alloc, operator, operands);
    }
    match elements(alloc, items)? {
        Some(elements) => Ok(Some(Expr::Union(elements))),
        None => Ok(None),
    }
}

/// The expression that one list and nothing else spells.
pub fn expression_list<'a, A: Allocator + Copy>(
    alloc: A,
    trees: TreeSlice<'_, 'a>,
) -> Result<Option<Expr<'a, A>>, AllocError>
    ensures { IfOk result (AreExpressionList (trees_of trees.entry)) }
{
    match only_list(trees) {
        Some(items) => list_expression(alloc, items),
        None => Ok(None),
    }
}

/// The expressions that trees spell one after the other.
#[cycle(expression)]
fn elements<'a, A: Allocator + Copy>(
    alloc: A,
    trees: TreeSlice<'_, 'a>,
) -> Result<Option<Vec<Expr<'a, A>, A>>, AllocError>
    ensures { IfOk result (SpellsElements (trees_of trees.entry)) }
{
    let mut elements = Vec::with_capacity(alloc, trees.len())?;
    let mut rest = trees;
    while let Some((tree, behind)) = rest.split_first() {
        match expression(alloc, tree)? {
            Some(element) => elements.push(element)?,
            None => return Ok(None),
        }
        rest = behind;
    }
    Ok(Some(elements))
}

/// The expression of an operator and these operands.
#[cycle(expression)]
fn operation<'a, A: Allocator + Copy>(
    alloc: A,
    operator: Operator,
    operands: TreeSlice<'_, 'a>,
) -> Result<Option<Expr<'a, A>>, AllocError>
    ensures { IfOk result (SpellsOperation (operator_word operator) (trees_of operands.entry)) }
{
    match operator {
        Operator::All => Ok(operands.is_empty().then_some(Expr::All)),
        Operator::Not => match one_operand(alloc, operands)? {
            Some(x) => Ok(Some(Expr::Not(x))),
            None => Ok(None),
        },
        Operator::And => match two_operands(alloc, operands)? {
            Some((x, y)) => Ok(Some(Expr::And(x, y))),
            None => Ok(None),
        },
        Operator::Or => match two_operands(alloc, operands)? {
            Some((x, y)) => Ok(Some(Expr::Or(x, y))),
            None => Ok(None),
        },
        Operator::Xor => match two_operands(alloc, operands)? {
            Some((x, y)) => Ok(Some(Expr::Xor(x, y))),
            None => Ok(None),
        },
    }
}

/// An expression in a box.
fn boxed<'a, A: Allocator + Copy>(
    alloc: A,
    expr: Expr<'a, A>,
) -> Result<Box<Expr<'a, A>, A>, AllocError>
    ensures { IfOk result (λ made. made.value ≡ expr.entry) }
{
    Ok(Box::new(alloc, expr)?)
}

/// The expression that a tree spells, in a box, if it spells one.
#[cycle(expression)]
fn operand<'a, A: Allocator + Copy>(
    alloc: A,
    tree: Tree<'_, 'a>,
) -> Result<Option<Box<Expr<'a, A>, A>>, AllocError>
    ensures { IfOk result (SpellsBoxed (tree_then tree.entry)) }
{
    match expression(alloc, tree)? {
        Some(expr) => Ok(Some(boxed(alloc, expr)?)),
        None => Ok(None),
    }
}

#[cycle(expression)]
fn one_operand<'a, A: Allocator + Copy>(
    alloc: A,
    operands: TreeSlice<'_, 'a>,
) -> Result<Option<Box<Expr<'a, A>, A>>, AllocError>
    ensures { IfOk result (SpellsOne (trees_of operands.entry)) }
{
    let Some(x) = only_tree(operands) else {
        return Ok(None);
    };
    operand(alloc, x)
}

#[cycle(expression)]
fn two_operands<'a, A: Allocator + Copy>(
    alloc: A,
    operands: TreeSlice<'_, 'a>,
) -> Result<Option<(Box<Expr<'a, A>, A>, Box<Expr<'a, A>, A>)>, AllocError>
    ensures { IfOk result (SpellsTwo (trees_of operands.entry)) }
{
    let Some((x, rest)) = operands.split_first() else {
        return Ok(None);
    };
    let Some(y) = only_tree(rest) else {
        return Ok(None);
    };
    let Some(x) = operand(alloc, x)? else {
        return Ok(None);
    };
    let Some(y) = operand(alloc, y)? else {
        return Ok(None);
    };
    Ok(Some((x, y)))
}
