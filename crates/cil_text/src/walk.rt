//! Recognising the statements that trees spell.

ghost use Rattle.std.specs.Prelude.{◌≡◌, ◌&&◌, ◌||◌, Bool, false, not, IfOk, IfErr, OnOk, IsTrue};
ghost use Rattle.cil_specs.specs.Names.{Word as SpecWord};
ghost use Rattle.cil_specs.specs.Place.{Place as SpecPlace};
ghost use Rattle.cil_text.specs.Common.{are_lists, is_optional, words_of, word_of, is_among, outside_optionals, put_word, Shapes, IsFirstShapeFault, place_of, trees_of, statements_of, FaultIs, forest_of, form_of, scope_form, AreGood, BeginsAs, IsOpener, IsLeafWord, IsHeading, IsHeadingFault, IsScope, IsStatement, IsNext, IsFirstOf, IsFirstAmong};
ghost use Rattle.cil_text.specs.Keyword.{spelling};

use crate::check::{check_statement, check_word, fault_at};
use crate::form::fit;
use crate::keyword::Keyword;
use crate::module::Module;
use crate::name::Role;
use crate::split::{split_word, word_and_lists};
use crate::statement::Statement;
use cil_reader::{Forest, Place, ShownWord, TextFault, TextFaultKind, Tree, TreeSlice, Word};
use std::alloc::Allocator;

/// Whether a statement with this first word may stand there.
fn may_stand(inside: bool, keyword: Keyword) -> bool
    ensures { result ≡ not (inside && is_among outside_optionals (spelling keyword)) }
{
    !(inside && keyword.stands_outside_optionals())
}

/// Finds whether a statement with this first word may not stand there, and then what is wrong with its words, but for those of the
/// statements inside it.
fn check_heading<'a, A: Allocator>(
    inside: bool,
    keyword: Keyword,
    first: Word<'a>,
    statement: &Statement<'a, A>,
) -> Result<(), TextFault<'a>>
    ensures allowed { OnOk result (IsTrue inside → is_among outside_optionals (spelling keyword) ≡ false) }
    ensures good { OnOk result (AreGood (words_of (form_of statement.now))) }
    ensures err { IfErr result (IsHeadingFault inside keyword first.entry (form_of statement.now)) }
{
    if !may_stand(inside, keyword) {
        return Err(fault_at(TextFaultKind::NotInOptional, first));
    }
    check_statement(statement)?;
    Ok(())
}

/// The word in front of a list, the keyword that it is, and the trees behind it.
fn first_keyword<'t, 'a>(
    at: Place,
    items: TreeSlice<'t, 'a>,
) -> Result<(Word<'a>, Keyword, TreeSlice<'t, 'a>), TextFault<'a>>
    ensures ok { IfOk result
        (λ found. BeginsAs (trees_of items.entry) found.0 found.1 (trees_of found.2)) }
    ensures err { IfErr result (λ fault. (inside : Bool)
        → FaultIs fault (IsFirstOf inside (place_of at) (trees_of items.entry))) }
{
    let Some((first, operands)) = split_word(items) else {
        return Err(TextFault::Found {
            kind: TextFaultKind::Misshapen,
            at,
            word: ShownWord::Text(b"("),
        });
    };
    let Some(keyword) = Keyword::find(first.text) else {
        return Err(fault_at(TextFaultKind::Unsupported, first));
    };
    Ok((first, keyword, operands))
}

/// The statement of a keyword and its operands that holds no others.
fn leaf<'a, A: Allocator + Copy>(
    alloc: A,
    inside: bool,
    at: Place,
    keyword: Keyword,
    first: Word<'a>,
    operands: TreeSlice<'_, 'a>,
) -> Result<Statement<'a, A>, TextFault<'a>>
    requires leaf { IsLeafWord keyword first }
    ensures ok { IfOk result
        (IsStatement inside (place_of at) (put_word (word_of first.entry) (trees_of operands.entry))) }
    ensures err { IfErr result (λ fault. FaultIs fault
        (IsFirstOf inside (place_of at) (put_word (word_of first.entry) (trees_of operands.entry)))) }
{
    match fit(alloc, at, keyword, operands) {
        Ok(Some(statement)) => match check_heading(inside, keyword, first, &statement) {
            Ok(()) => Ok(statement),
            Err(fault) => {
                // One call to prove, in place of a drop for each variant.
                drop(statement);
                Err(fault)
            }
        },
        Ok(None) => Err(fault_at(TextFaultKind::Misshapen, first)),
        Err(error) => Err(TextFault::from(error)),
    }
}

/// The name of a block or an optional, and the trees of the statements inside it.
fn scope_heading<'t, 'a>(
    inside: bool,
    keyword: Keyword,
    first: Word<'a>,
    operands: TreeSlice<'t, 'a>,
) -> Result<(Word<'a>, TreeSlice<'t, 'a>), TextFault<'a>>
    requires opener { IsOpener keyword first }
    ensures ok { IfOk result (λ found.
        IsHeading inside (put_word (word_of first.entry) (trees_of operands.entry))
        (scope_form keyword (word_of found.0)) (trees_of found.1)) }
    ensures err { IfErr result (λ fault. (at : SpecPlace) → FaultIs fault
        (IsFirstOf inside at (put_word (word_of first.entry) (trees_of operands.entry)))) }
{
    let Some((id, inner)) = word_and_lists(operands) else {
        return Err(fault_at(TextFaultKind::Misshapen, first));
    };
    if !may_stand(inside, keyword) {
        return Err(fault_at(TextFaultKind::NotInOptional, first));
    }
    check_word(Role::Declared, id)?;
    Ok((id, inner))
}

/// Whether the statements inside a block or an optional stand in an optional, at whatever depth.
fn is_inside(inside: bool, keyword: Keyword) -> bool
    ensures { (id : SpecWord) → result ≡ (inside || is_optional (scope_form keyword id)) }
{
    inside || matches!(keyword, Keyword::Optional)
}

/// The name of a block or an optional, and the statements inside it.
#[cycle(walk)]
fn scope<'a, A: Allocator + Copy>(
    alloc: A,
    inside: bool,
    keyword: Keyword,
    first: Word<'a>,
    operands: TreeSlice<'_, 'a>,
) -> Result<(Word<'a>, Vec<Statement<'a, A>, A>), TextFault<'a>>
    requires opener { IsOpener keyword first }
    ensures ok { IfOk result (λ found.
        IsScope inside (put_word (word_of first.entry) (trees_of operands.entry))
        (scope_form keyword (word_of found.0)) (statements_of found.1.items)) }
    ensures err { IfErr result (λ fault. (at : SpecPlace) → FaultIs fault
        (IsFirstOf inside at (put_word (word_of first.entry) (trees_of operands.entry)))) }
{
    let (id, inner) = scope_heading(inside, keyword, first, operands)?;
    let body = statements(alloc, is_inside(inside, keyword), inner)?;
    Ok((id, body))
}

/// The statement that a list of these trees spells.
#[cycle(walk)]
fn statement<'a, A: Allocator + Copy>(
    alloc: A,
    inside: bool,
    at: Place,
    items: TreeSlice<'_, 'a>,
) -> Result<Statement<'a, A>, TextFault<'a>>
    ensures ok { IfOk result (IsStatement inside (place_of at) (trees_of items.entry)) }
    ensures err { IfErr result
        (λ fault. FaultIs fault (IsFirstOf inside (place_of at) (trees_of items.entry))) }
{
    let (first, keyword, operands) = first_keyword(at, items)?;
    match keyword {
        Keyword::Block => match scope(alloc, inside, keyword, first, operands) {
            Ok((id, body)) => Ok(Statement::Block { at, id, body }),
            Err(fault) => Err(fault),
        },
        Keyword::Optional => match scope(alloc, inside, keyword, first, operands) {
            Ok((id, body)) => Ok(Statement::Optional { at, id, body }),
            Err(fault) => Err(fault),
        },
        _ => leaf(alloc, inside, at, keyword, first, operands),
    }
}

/// The statements that lists spell one after the other, inside an optional or not.
#[cycle(walk)]
fn statements<'a, A: Allocator + Copy>(
    alloc: A,
    inside: bool,
    trees: TreeSlice<'_, 'a>,
) -> Result<Vec<Statement<'a, A>, A>, TextFault<'a>>
    requires lists { IsTrue (are_lists (trees_of trees)) }
    ensures ok { IfOk result
        (λ found. Shapes inside (trees_of trees.entry) (statements_of found.items)) }
    ensures err { IfErr result
        (λ fault. FaultIs fault (IsFirstAmong inside (trees_of trees.entry))) }
{
    let mut found = Vec::with_capacity(alloc, trees.len())?;
    let mut rest = trees;
    while let Some((tree, behind)) = rest.split_first() {
        let Tree::List { at, items, .. } = tree else {
            unreachable!("a tree that is no list");
        };
        match statement(alloc, inside, at, items) {
            Ok(statement) => found.push(statement)?,
            Err(fault) => return Err(fault),
        }
        rest = behind;
    }
    Ok(found)
}

/// The statement that the first of some lists spells, and the lists behind it; none where no list is left. It is for one who needs no
/// statement any longer once the next one is there.
pub fn next_statement<'t, 'a, A: Allocator + Copy>(
    alloc: A,
    trees: TreeSlice<'t, 'a>,
) -> Result<Option<(Statement<'a, A>, TreeSlice<'t, 'a>)>, TextFault<'a>>
    requires lists { IsTrue (are_lists (trees_of trees)) }
    ensures ok { IfOk result (IsNext (trees_of trees.entry)) }
    ensures err { IfErr result (λ fault. FaultIs fault (IsFirstAmong false (trees_of trees.entry))) }
{
    let Some((tree, behind)) = trees.split_first() else {
        return Ok(None);
    };
    let Tree::List { at, items, .. } = tree else {
        unreachable!("a tree that is no list");
    };
    match statement(alloc, false, at, items) {
        Ok(statement) => Ok(Some((statement, behind))),
        Err(fault) => Err(fault),
    }
}

/// The statements that the trees spell, or the first shape fault.
///
/// The forms are those of the CIL Reference Guide under the seventeen words that it knows. The faults
/// are this project's own choice: `Misshapen` at a list without a first word, `Unsupported` at a
/// first word that is none of the seventeen, `Misshapen` at that of a list that doesn't fit its form,
/// `NotInOptional` at a `block`, `class`, `common`, `classcommon` or `classorder` inside an optional
/// at any depth, `BadName` and `Reserved` at a word in the place of a name. Of several faults the one
/// at the least offset is answered, and of two there the one of lesser code.
pub fn shape<'a, A: Allocator + Copy>(
    alloc: A,
    forest: Forest<'a, A>,
) -> Result<Module<'a, A>, TextFault<'a>>
    ensures ok { IfOk result (λ found.
        Shapes false (forest_of forest.entry) (statements_of found.statements.items)) }
    ensures err { IfErr result
        (λ fault. FaultIs fault (IsFirstShapeFault (forest_of forest.entry))) }
{
    let statements = statements(alloc, false, forest.trees())?;
    Ok(Module { statements })
}
