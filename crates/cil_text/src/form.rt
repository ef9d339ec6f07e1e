//! Fitting the operands of a statement's first word to its form (CIL Reference Guide, under the
//! word of each).

ghost use Rattle.std.specs.Prelude.{◌≡◌, ◌≢◌, false, IfOk};
ghost use Rattle.cil_text.specs.Common.{Trees, put_word, IsTargetThen, place_of, word_of, trees_of, target_of, FitsAs, IsWithoutUnordered, AreClasses, AreClassAndPermissions, ArePermissionsOf, IsAttributeAndSet};
ghost use Rattle.cil_text.specs.Keyword.{opens};

use crate::expr::{expression, expression_list};
use crate::keyword::Keyword;
use crate::split::{only_list, only_tree, only_word, split_word, two_words, word_and_list, words};
use crate::statement::{ClassPermissions, Expr, RuleKind, Statement, Target};
use cil_reader::{Place, TreeSlice, Word};
use std::alloc::{AllocError, Allocator};

fn type_name<'a, A: Allocator>(at: Place, operands: TreeSlice<'_, 'a>) -> Option<Statement<'a, A>>
    ensures { FitsAs (place_of at) Keyword.TypeName (trees_of operands.entry) result }
{
    let id = only_word(operands)?;
    Some(Statement::TypeName { at, id })
}

fn type_alias<'a, A: Allocator>(at: Place, operands: TreeSlice<'_, 'a>) -> Option<Statement<'a, A>>
    ensures { FitsAs (place_of at) Keyword.TypeAlias (trees_of operands.entry) result }
{
    let id = only_word(operands)?;
    Some(Statement::TypeAlias { at, id })
}

fn type_alias_actual<'a, A: Allocator>(
    at: Place,
    operands: TreeSlice<'_, 'a>,
) -> Option<Statement<'a, A>>
    ensures { FitsAs (place_of at) Keyword.TypeAliasActual (trees_of operands.entry) result }
{
    let (alias, actual) = two_words(operands)?;
    Some(Statement::TypeAliasActual { at, alias, actual })
}

fn type_attribute<'a, A: Allocator>(
    at: Place,
    operands: TreeSlice<'_, 'a>,
) -> Option<Statement<'a, A>>
    ensures { FitsAs (place_of at) Keyword.TypeAttribute (trees_of operands.entry) result }
{
    let id = only_word(operands)?;
    Some(Statement::TypeAttribute { at, id })
}

/// An attribute and an expression of types.
fn attribute_and_set<'a, A: Allocator + Copy>(
    alloc: A,
    operands: TreeSlice<'_, 'a>,
) -> Result<Option<(Word<'a>, Expr<'a, A>)>, AllocError>
    ensures { IfOk result (IsAttributeAndSet (trees_of operands.entry)) }
{
    let Some((attribute, rest)) = split_word(operands) else {
        return Ok(None);
    };
    let Some(set) = only_tree(rest) else {
        return Ok(None);
    };
    match expression(alloc, set)? {
        Some(expr) => Ok(Some((attribute, expr))),
        None => Ok(None),
    }
}

fn type_attribute_set<'a, A: Allocator + Copy>(
    alloc: A,
    at: Place,
    operands: TreeSlice<'_, 'a>,
) -> Result<Option<Statement<'a, A>>, AllocError>
    ensures { IfOk result (FitsAs (place_of at) Keyword.TypeAttributeSet (trees_of operands.entry)) }
{
    match attribute_and_set(alloc, operands)? {
        Some((attribute, expr)) => Ok(Some(Statement::TypeAttributeSet {
            at,
            attribute,
            expr,
        })),
        None => Ok(None),
    }
}

fn common<'a, A: Allocator + Copy>(
    alloc: A,
    at: Place,
    operands: TreeSlice<'_, 'a>,
) -> Result<Option<Statement<'a, A>>, AllocError>
    ensures { IfOk result (FitsAs (place_of at) Keyword.Common (trees_of operands.entry)) }
{
    match word_and_list(alloc, operands)? {
        Some((id, permissions)) => Ok(Some(Statement::Common {
            at,
            id,
            permissions,
        })),
        None => Ok(None),
    }
}

fn class<'a, A: Allocator + Copy>(
    alloc: A,
    at: Place,
    operands: TreeSlice<'_, 'a>,
) -> Result<Option<Statement<'a, A>>, AllocError>
    ensures { IfOk result (FitsAs (place_of at) Keyword.Class (trees_of operands.entry)) }
{
    match word_and_list(alloc, operands)? {
        Some((id, permissions)) => Ok(Some(Statement::Class {
            at,
            id,
            permissions,
        })),
        None => Ok(None),
    }
}

fn class_common<'a, A: Allocator>(
    at: Place,
    operands: TreeSlice<'_, 'a>,
) -> Option<Statement<'a, A>>
    ensures { FitsAs (place_of at) Keyword.ClassCommon (trees_of operands.entry) result }
{
    let (class, common) = two_words(operands)?;
    Some(Statement::ClassCommon { at, class, common })
}

/// The trees behind the keyword `unordered`, or all of them where another tree stands first.
fn without_unordered<'t, 'a>(trees: TreeSlice<'t, 'a>) -> TreeSlice<'t, 'a>
    ensures { IsWithoutUnordered (trees_of trees.entry) (trees_of result) }
{
    let Some((first, rest)) = split_word(trees) else {
        return trees;
    };
    if first.text != b"unordered".as_slice() {
        return trees;
    }
    rest
}

/// The classes of a list, with or without the keyword `unordered` in front.
fn class_list<'a, A: Allocator + Copy>(
    alloc: A,
    operands: TreeSlice<'_, 'a>,
) -> Result<Option<Vec<Word<'a>, A>>, AllocError>
    ensures { IfOk result (AreClasses (trees_of operands.entry)) }
{
    match only_list(operands) {
        Some(items) => words(alloc, without_unordered(items)),
        None => Ok(None),
    }
}

fn class_order<'a, A: Allocator + Copy>(
    alloc: A,
    at: Place,
    operands: TreeSlice<'_, 'a>,
) -> Result<Option<Statement<'a, A>>, AllocError>
    ensures { IfOk result (FitsAs (place_of at) Keyword.ClassOrder (trees_of operands.entry)) }
{
    match class_list(alloc, operands)? {
        Some(classes) => Ok(Some(Statement::ClassOrder { at, classes })),
        None => Ok(None),
    }
}

/// A rule's target: each source itself, or what the word names.
fn target_at(word: Word) -> Target
    ensures { (rest : Trees)
        → IsTargetThen (put_word (word_of word.entry) rest) (target_of result) rest }
{
    if word.text == b"self".as_slice() {
        Target::Itself
    } else {
        Target::Named(word)
    }
}

/// A class and the expression of permissions of it, which is a list.
fn class_and_permissions<'a, A: Allocator + Copy>(
    alloc: A,
    trees: TreeSlice<'_, 'a>,
) -> Result<Option<(Word<'a>, Expr<'a, A>)>, AllocError>
    ensures { IfOk result (AreClassAndPermissions (trees_of trees.entry)) }
{
    let Some(items) = only_list(trees) else {
        return Ok(None);
    };
    let Some((class, rest)) = split_word(items) else {
        return Ok(None);
    };
    match expression_list(alloc, rest)? {
        Some(permissions) => Ok(Some((class, permissions))),
        None => Ok(None),
    }
}

fn class_permission<'a, A: Allocator>(
    at: Place,
    operands: TreeSlice<'_, 'a>,
) -> Option<Statement<'a, A>>
    ensures { FitsAs (place_of at) Keyword.ClassPermission (trees_of operands.entry) result }
{
    let id = only_word(operands)?;
    Some(Statement::ClassPermission { at, id })
}

fn class_permission_set<'a, A: Allocator + Copy>(
    alloc: A,
    at: Place,
    operands: TreeSlice<'_, 'a>,
) -> Result<Option<Statement<'a, A>>, AllocError>
    ensures { IfOk result
        (FitsAs (place_of at) Keyword.ClassPermissionSet (trees_of operands.entry)) }
{
    let Some((set, rest)) = split_word(operands) else {
        return Ok(None);
    };
    match class_and_permissions(alloc, rest)? {
        Some((class, permissions)) => Ok(Some(Statement::ClassPermissionSet {
            at,
            set,
            class,
            permissions,
        })),
        None => Ok(None),
    }
}

/// The permissions of a rule: those of a class in a list, or those of the permission set that a word
/// names.
fn rule_permissions<'a, A: Allocator + Copy>(
    alloc: A,
    trees: TreeSlice<'_, 'a>,
) -> Result<Option<ClassPermissions<'a, A>>, AllocError>
    ensures { IfOk result (ArePermissionsOf (trees_of trees.entry)) }
{
    if let Some(set) = only_word(trees) {
        return Ok(Some(ClassPermissions::Named(set)));
    }
    match class_and_permissions(alloc, trees)? {
        Some((class, permissions)) => Ok(Some(ClassPermissions::Anonymous { class, permissions })),
        None => Ok(None),
    }
}

fn rule<'a, A: Allocator + Copy>(
    alloc: A,
    at: Place,
    kind: RuleKind,
    operands: TreeSlice<'_, 'a>,
) -> Result<Option<Statement<'a, A>>, AllocError>
    ensures { IfOk result (FitsAs (place_of at) (Keyword.Rule kind) (trees_of operands.entry)) }
{
    let Some((source, rest)) = split_word(operands) else {
        return Ok(None);
    };
    let Some((target, rest)) = split_word(rest) else {
        return Ok(None);
    };
    match rule_permissions(alloc, rest)? {
        Some(permissions) => Ok(Some(Statement::Rule {
            at,
            kind,
            source,
            target: target_at(target),
            permissions,
        })),
        None => Ok(None),
    }
}

/// The statement whose form the operands of a keyword fit. It holds no others.
pub fn fit<'a, A: Allocator + Copy>(
    alloc: A,
    at: Place,
    keyword: Keyword,
    operands: TreeSlice<'_, 'a>,
) -> Result<Option<Statement<'a, A>>, AllocError>
    requires leaf { opens keyword ≡ false }
    ensures { IfOk result (FitsAs (place_of at) keyword (trees_of operands.entry)) }
{
    match keyword {
        Keyword::Block | Keyword::Optional => unreachable!("a statement that holds others"),
        Keyword::TypeName => Ok(type_name(at, operands)),
        Keyword::TypeAlias => Ok(type_alias(at, operands)),
        Keyword::TypeAliasActual => Ok(type_alias_actual(at, operands)),
        Keyword::TypeAttribute => Ok(type_attribute(at, operands)),
        Keyword::TypeAttributeSet => type_attribute_set(alloc, at, operands),
        Keyword::Common => common(alloc, at, operands),
        Keyword::Class => class(alloc, at, operands),
        Keyword::ClassCommon => Ok(class_common(at, operands)),
        Keyword::ClassOrder => class_order(alloc, at, operands),
        Keyword::ClassPermission => Ok(class_permission(at, operands)),
        Keyword::ClassPermissionSet => class_permission_set(alloc, at, operands),
        Keyword::Rule(kind) => rule(alloc, at, kind, operands),
    }
}
