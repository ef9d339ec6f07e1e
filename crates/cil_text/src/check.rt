//! Whether the words of a statement are spelt and free as their places ask.

ghost use Rattle.std.specs.Prelude.{◌≡◌, [], ◌∷◌, ◌++◌, map};
ghost use Rattle.cil_text.specs.Common.{leaves, as_declared, as_referred, target_words, permission_words, words_of, word_of, expr_of, target_of, permissions_of, role_of, exprs_of, form_of, in_role, Checks};

use crate::name::{Role, name_fault};
use crate::statement::{ClassPermissions, Expr, Statement, Target};
use cil_reader::{ShownWord, TextFault, TextFaultKind, Word};
use std::alloc::Allocator;

/// The fault of this kind at a word.
pub fn fault_at(kind: TextFaultKind, word: Word) -> TextFault
    ensures { result ≡ TextFault.Found kind word.entry.at (ShownWord.Text word.entry.text) }
{
    TextFault::Found {
        kind,
        at: word.at,
        word: ShownWord::Text(word.text),
    }
}

/// Finds what is wrong with a word in this role.
#[inline(always)]
pub fn check_word(role: Role, word: Word) -> Result<(), TextFault>
    ensures { Checks ((role_of role, word_of word.entry) ∷ []) result }
{
    match name_fault(role, word.text) {
        Some(kind) => Err(fault_at(kind, word)),
        None => Ok(()),
    }
}

fn check_words<'a>(role: Role, words: &[Word<'a>]) -> Result<(), TextFault<'a>>
    ensures { Checks (in_role (role_of role) (map word_of words.now)) result }
{
    for word in words {
        check_word(role, *word)?;
    }
    Ok(())
}

#[cycle(check)]
fn check_elements<'a, A: Allocator>(
    role: Role,
    elements: &[Expr<'a, A>],
) -> Result<(), TextFault<'a>>
    ensures { Checks (in_role (role_of role) (leaves (exprs_of elements.now))) result }
{
    for element in elements {
        check_element(role, element)?;
    }
    Ok(())
}

/// Finds the first word of an element that is not as this role asks. Most elements are names.
#[cycle(check)]
#[inline(always)]
fn check_element<'a, A: Allocator>(role: Role, element: &Expr<'a, A>) -> Result<(), TextFault<'a>>
    ensures { Checks (in_role (role_of role) (leaves (expr_of element.now))) result }
{
    match element {
        Expr::Name(word) => check_word(role, *word),
        _ => check_expr(role, element),
    }
}

#[cycle(check)]
fn check_operands<'a, A: Allocator>(
    role: Role,
    x: &Expr<'a, A>,
    y: &Expr<'a, A>,
) -> Result<(), TextFault<'a>>
    ensures { Checks (in_role (role_of role) (leaves (expr_of x.now) ++ leaves (expr_of y.now)))
        result }
{
    check_expr(role, x)?;
    check_expr(role, y)
}

/// Finds the first of an expression's words that is not as this role asks.
#[cycle(check)]
fn check_expr<'a, A: Allocator>(role: Role, expr: &Expr<'a, A>) -> Result<(), TextFault<'a>>
    ensures { Checks (in_role (role_of role) (leaves (expr_of expr.now))) result }
{
    match expr {
        Expr::All => Ok(()),
        Expr::Name(word) => check_word(role, *word),
        Expr::Not(x) => check_expr(role, x),
        Expr::And(x, y) => check_operands(role, x, y),
        Expr::Or(x, y) => check_operands(role, x, y),
        Expr::Xor(x, y) => check_operands(role, x, y),
        Expr::Union(elements) => check_elements(role, elements),
    }
}

fn check_target(target: Target) -> Result<(), TextFault>
    ensures { Checks (map as_referred (target_words (target_of target.entry))) result }
{
    match target {
        Target::Itself => Ok(()),
        Target::Named(word) => check_word(Role::Referred, word),
    }
}

fn check_pair<'a>(first: Word<'a>, second: Word<'a>) -> Result<(), TextFault<'a>>
    ensures { Checks (as_referred (word_of first.entry) ∷ as_referred (word_of second.entry) ∷ [])
        result }
{
    check_word(Role::Referred, first)?;
    check_word(Role::Referred, second)
}

fn check_set<'a, A: Allocator>(attribute: Word<'a>, expr: &Expr<'a, A>) -> Result<(), TextFault<'a>>
    ensures { Checks (as_referred (word_of attribute.entry)
        ∷ map as_referred (leaves (expr_of expr.now))) result }
{
    check_word(Role::Referred, attribute)?;
    check_expr(Role::Referred, expr)
}

fn check_permissions<'a>(id: Word<'a>, permissions: &[Word<'a>]) -> Result<(), TextFault<'a>>
    ensures { Checks (as_declared (word_of id.entry)
        ∷ map as_declared (map word_of permissions.now)) result }
{
    check_word(Role::Declared, id)?;
    check_words(Role::Declared, permissions)
}

fn check_class_permissions<'a, A: Allocator>(
    class: Word<'a>,
    permissions: &Expr<'a, A>,
) -> Result<(), TextFault<'a>>
    ensures { Checks (as_referred (word_of class.entry)
        ∷ map as_declared (leaves (expr_of permissions.now))) result }
{
    check_word(Role::Referred, class)?;
    check_expr(Role::Declared, permissions)
}

fn check_permission_set<'a, A: Allocator>(
    set: Word<'a>,
    class: Word<'a>,
    permissions: &Expr<'a, A>,
) -> Result<(), TextFault<'a>>
    ensures { Checks (as_referred (word_of set.entry)
        ∷ as_referred (word_of class.entry)
        ∷ map as_declared (leaves (expr_of permissions.now))) result }
{
    check_word(Role::Referred, set)?;
    check_class_permissions(class, permissions)
}

fn check_rule_permissions<'a, A: Allocator>(
    permissions: &ClassPermissions<'a, A>,
) -> Result<(), TextFault<'a>>
    ensures { Checks (permission_words (permissions_of permissions.now)) result }
{
    match permissions {
        ClassPermissions::Anonymous { class, permissions } => {
            check_class_permissions(*class, permissions)
        }
        ClassPermissions::Named(set) => check_word(Role::Referred, *set),
    }
}

fn check_rule<'a, A: Allocator>(
    source: Word<'a>,
    target: Target<'a>,
    permissions: &ClassPermissions<'a, A>,
) -> Result<(), TextFault<'a>>
    ensures { Checks (as_referred (word_of source.entry)
        ∷ (map as_referred (target_words (target_of target.entry))
        ++ permission_words (permissions_of permissions.now))) result }
{
    check_word(Role::Referred, source)?;
    check_target(target)?;
    check_rule_permissions(permissions)
}

/// Finds the first word of a statement that is not as its place asks, but for those of the
/// statements inside it.
pub fn check_statement<'a, A: Allocator>(statement: &Statement<'a, A>) -> Result<(), TextFault<'a>>
    ensures { Checks (words_of (form_of statement.now)) result }
{
    match statement {
        Statement::Block { id, .. } => check_word(Role::Declared, *id),
        Statement::Optional { id, .. } => check_word(Role::Declared, *id),
        Statement::TypeName { id, .. } => check_word(Role::Declared, *id),
        Statement::TypeAlias { id, .. } => check_word(Role::Declared, *id),
        Statement::TypeAttribute { id, .. } => check_word(Role::Declared, *id),
        Statement::TypeAliasActual { alias, actual, .. } => check_pair(*alias, *actual),
        Statement::TypeAttributeSet {
            attribute,
            expr,
            ..
        } => check_set(*attribute, expr),
        Statement::Common {
            id,
            permissions,
            ..
        } => check_permissions(*id, permissions),
        Statement::Class {
            id,
            permissions,
            ..
        } => check_permissions(*id, permissions),
        Statement::ClassCommon { class, common, .. } => check_pair(*class, *common),
        Statement::ClassOrder { classes, .. } => check_words(Role::Referred, classes),
        Statement::ClassPermission { id, .. } => check_word(Role::Declared, *id),
        Statement::ClassPermissionSet {
            set,
            class,
            permissions,
            ..
        } => check_permission_set(*set, *class, permissions),
        Statement::Rule {
            source,
            target,
            permissions,
            ..
        } => check_rule(*source, *target, permissions),
    }
}
