//! Rules of two policies that say the same, by the numbers of their names.

ghost use Rattle.std.specs.Prelude.{◌≡◌, ◌↔◌, IsTrue, slice_get};
ghost use Rattle.cil_expression.specs.Expression.{expr_in};
ghost use Rattle.cil_expression.specs.Same.{all_same, are_same};
ghost use Rattle.cil_resolve.specs.Numbers.{is_no_list, is_no_list_with, keeps_no_list};
ghost use Rattle.cil_matching.specs.Content.{is_number_of, is_element_by, is_type, number_in, is_target_by, is_head_by, is_written_by, are_permissions_by, SayTheSame};

use crate::numbers::{Numbers, is_number};
use cil_expression::{Element, Expression};
use cil_resolve::{NumberedPermissions, NumberedRule, ResolvedPermissions, ResolvedTarget};
use std::alloc::Allocator;

/// Whether what a name leads to is a type.
#[inline(always)]
fn is_type(x: Element) -> bool
    ensures { result ≡ is_type x }
{
    matches!(x, Element::Type(_))
}

/// The number of what a name leads to.
#[inline(always)]
fn number_in(x: Element) -> usize
    ensures { result ≡ number_in x }
{
    match x {
        Element::Type(a) => a as usize,
        Element::Attribute(a) => a as usize,
    }
}

/// Whether two numbers lead to types of one name, or to attributes of one name.
#[inline(always)]
pub fn is_element(numbers: &Numbers<'_>, x: Element, y: Element) -> bool
    ensures { result ≡ is_element_by numbers.now x y }
{
    is_type(x) == is_type(y) && is_number(numbers, number_in(x), number_in(y))
}

/// Whether two targets are the same.
#[inline(always)]
fn is_target(numbers: &Numbers<'_>, x: ResolvedTarget, y: ResolvedTarget) -> bool
    ensures { result ≡ is_target_by numbers.now x y }
{
    match (x, y) {
        (ResolvedTarget::Itself, ResolvedTarget::Itself) => true,
        (ResolvedTarget::Element(a), ResolvedTarget::Element(b)) => is_element(numbers, a, b),
        _ => false,
    }
}

/// Whether two rules say the same but for their permissions.
#[inline(always)]
fn is_same_head<A: Allocator>(
    numbers: &Numbers<'_>,
    rule: &NumberedRule<A>,
    other: &NumberedRule<A>,
) -> bool
    ensures { result ≡ is_head_by numbers.now rule.now other.now }
{
    rule.kind == other.kind
        && is_element(numbers, rule.source, other.source)
        && is_target(numbers, rule.target, other.target)
}

/// Whether as many permissions are the same, in their order.
#[inline(always)]
fn is_same_list(numbers: &Numbers<'_>, permissions: &[usize], others: &[usize]) -> bool
    ensures { result ≡ all_same (is_number_of numbers.now) permissions.now others.now }
{
    if permissions.len() != others.len() {
        return false;
    }
    for (i, permission) in permissions.iter().enumerate() {
        if !is_number(numbers, *permission, others[i]) {
            return false;
        }
    }
    true
}

/// Whether two expressions of permissions are the same. Few are asked for, so it isn't inlined where plain lists are compared.
#[inline(never)]
fn is_same_expression<A: Allocator>(
    numbers: &Numbers<'_>,
    expression: &Expression<usize, A>,
    other: &Expression<usize, A>,
) -> bool
    ensures { result ≡ are_same (is_number_of numbers.now)
        (expr_in expression.now) (expr_in other.now) }
{
    expression.is_same(
        other,
        |a, b|
            ensures { result ≡ is_number_of numbers.entry.now a b }
        { is_number(numbers, a, b) },
    )
}

/// Whether permissions of a class are written the same. Those that keep no expression are a plain list, and none that keep one are.
#[inline(always)]
fn are_written_same<A: Allocator>(
    numbers: &Numbers<'_>,
    permissions: &NumberedPermissions<A>,
    other: &NumberedPermissions<A>,
) -> bool
    requires permissions { IsTrue (is_no_list permissions.now.written) }
    requires other { IsTrue (is_no_list other.now.written) }
    ensures { result ≡ is_written_by numbers.now permissions.now other.now }
{
    match (&permissions.written, &other.written) {
        (Some(written), Some(others)) => is_same_expression(numbers, written, others),
        (None, None) => is_same_list(
            numbers,
            permissions.given.as_slice(),
            other.given.as_slice(),
        ),
        _ => false,
    }
}

/// Whether the permissions of two rules are the same: of one class and written the same, or those of one permission set.
#[inline(always)]
fn are_same_permissions<A: Allocator>(
    numbers: &Numbers<'_>,
    permissions: &ResolvedPermissions<A>,
    other: &ResolvedPermissions<A>,
) -> bool
    requires permissions { IsTrue (is_no_list_with permissions.now) }
    requires other { IsTrue (is_no_list_with other.now) }
    ensures { result ≡ are_permissions_by numbers.now permissions.now other.now }
{
    match (permissions, other) {
        (ResolvedPermissions::OfClass(given), ResolvedPermissions::OfClass(others)) => {
            is_number(numbers, given.class, others.class)
                && are_written_same(numbers, given, others)
        }
        (ResolvedPermissions::OfSet(given), ResolvedPermissions::OfSet(others)) => {
            is_number(numbers, given.set, others.set)
        }
        _ => false,
    }
}

/// Whether a rule of the old policy says what one of the new policy says, by the numbers that the new policy gives the old one's names. It
/// is inlined where rules are gone along in pairs.
#[inline(always)]
pub fn is_same_content<A: Allocator>(
    numbers: &Numbers<'_>,
    rule: &NumberedRule<A>,
    other: &NumberedRule<A>,
) -> bool
    requires rule { IsTrue (keeps_no_list rule.now) }
    requires other { IsTrue (keeps_no_list other.now) }
    ensures { IsTrue result ↔ SayTheSame numbers.now rule.now other.now }
{
    if !is_same_head(numbers, rule, other) {
        return false;
    }
    are_same_permissions(numbers, &rule.permissions, &other.permissions)
}
