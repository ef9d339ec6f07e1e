//! The permits of a rule by symbols.

ghost use Rattle.std.specs.Prelude.{◌≡◌, ◌<◌, ◌&&◌, ℕ, IsTrue, true, false, length, map, nat_lt, slice_index, IfOk};
ghost use Rattle.std.specs.List.{list_all};
ghost use Rattle.cil_resolve.specs.Below.{are_permissions_below, is_permission_below, is_rule_below};
ghost use Rattle.cil_resolve.specs.Numbers.{given_in};
ghost use Rattle.cil_rule_shifts.specs.Permits.{has_permit, AreInOrder};
ghost use Rattle.cil_rule_shifts.specs.Reach.{reaches};
ghost use Rattle.cil_rule_reach.specs.Reaches.{permit_by, permits_by};

use cil_resolve::{ClassPermission, NumberedRule, ResolvedPermissions};
use cil_rule_shifts::{Permit, Reach, put_in_order};
use cil_symbols::Numbering;
use std::alloc::{AllocError, Allocator};

/// The symbol of a name of the policy.
pub fn symbol_of<A: Allocator>(numbering: &Numbering<A>, local: usize) -> usize
    requires { local < length numbering.now.symbols }
    ensures is { result ≡ slice_index numbering.now.symbols local }
    ensures below { result < numbering.now.count }
{
    numbering.symbol(local).unwrap()
}

/// Permissions of a class, as they are listed.
fn class_permits<A: Allocator + Copy>(
    alloc: A,
    numbering: &Numbering<A>,
    class: usize,
    permissions: &[usize],
) -> Result<Vec<Permit, A>, AllocError>
    requires { IsTrue (list_all (λ p. nat_lt p (length numbering.now.symbols)) permissions.now) }
    ensures { IfOk result (λ list. list.items ≡ map
        (λ p. record { class = class; permission = slice_index numbering.now.symbols p })
        permissions.now) }
{
    let mut list = Vec::with_capacity(alloc, permissions.len())?;
    for local in permissions {
        let permission = symbol_of(numbering, *local);
        list.push(Permit { class, permission })?;
    }
    Ok(list)
}

/// Permissions of several classes, as they are listed.
fn set_permits<A: Allocator + Copy>(
    alloc: A,
    numbering: &Numbering<A>,
    given: &[ClassPermission],
) -> Result<Vec<Permit, A>, AllocError>
    requires { IsTrue (list_all (is_permission_below (length numbering.now.symbols)) given.now) }
    ensures { IfOk result (λ list. list.items ≡ map
        (permit_by numbering.now.symbols) given.now) }
{
    let mut list = Vec::with_capacity(alloc, given.len())?;
    for local in given {
        list.push(Permit {
            class: symbol_of(numbering, local.class),
            permission: symbol_of(numbering, local.permission),
        })?;
    }
    Ok(list)
}

/// What a rule's permissions give, as it is listed.
fn listed_permits<A: Allocator + Copy>(
    alloc: A,
    numbering: &Numbering<A>,
    permissions: &ResolvedPermissions<A>,
) -> Result<Vec<Permit, A>, AllocError>
    requires { IsTrue (are_permissions_below (length numbering.now.symbols) permissions.now) }
    ensures { IfOk result (λ list. list.items ≡ map
        (permit_by numbering.now.symbols) (given_in permissions.now)) }
{
    match permissions {
        ResolvedPermissions::OfClass(of) => {
            let class = symbol_of(numbering, of.class);
            class_permits(alloc, numbering, class, of.given.as_slice())
        }
        ResolvedPermissions::OfSet(of) => set_permits(alloc, numbering, of.as_slice()),
    }
}

/// What a rule permits by the symbols of its names, each permit once, in their order.
pub fn rule_permits<A: Allocator + Copy>(
    alloc: A,
    numbering: &Numbering<A>,
    rule: &NumberedRule<A>,
) -> Result<Vec<Permit, A>, AllocError>
    requires { IsTrue (is_rule_below (length numbering.now.symbols) rule.now) }
    ensures order { IfOk result (λ list. AreInOrder list.items) }
    ensures same { IfOk result (λ list. (c p : ℕ)
        → has_permit list.items c p ≡ permits_by numbering.now.symbols rule.now c p) }
{
    let mut list = listed_permits(alloc, numbering, &rule.permissions)?;
    put_in_order(&mut list);
    Ok(list)
}

/// Whether a rule reaches nothing: it has no source, or no source has a target.
fn is_idle<A: Allocator>(reach: &Reach<A>) -> bool
    ensures { result ≡ true → (s t : ℕ) → reaches reach.now s t ≡ false }
{
    let source = reach.sources.next_word(0);
    let target = reach.targets.next_word(0, 0);
    source.is_none() | target.is_none()
}

/// What a rule permits where it reaches something; of what it permits without reaching anything
/// nothing is told. So the permits of a permission set, which may be many, are worked out only for
/// rules that give an access by each of them.
pub fn reached_permits<A: Allocator + Copy>(
    alloc: A,
    numbering: &Numbering<A>,
    rule: &NumberedRule<A>,
    reach: &Reach<A>,
) -> Result<Vec<Permit, A>, AllocError>
    requires { IsTrue (is_rule_below (length numbering.now.symbols) rule.now) }
    ensures order { IfOk result (λ list. AreInOrder list.items) }
    ensures same { IfOk result (λ list. (s t c p : ℕ)
        → (reaches reach.now s t && has_permit list.items c p)
        ≡ (reaches reach.now s t && permits_by numbering.now.symbols rule.now c p)) }
{
    if is_idle(reach) {
        return Ok(Vec::new(alloc));
    }
    rule_permits(alloc, numbering, rule)
}
