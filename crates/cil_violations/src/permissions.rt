//! The permissions that rules give, each with its class.

ghost use Rattle.std.specs.Prelude.{◌≡◌, ◌++◌, ◌-◌, ◌<◌, ◌≤◌, IfOk, OnOk, drop, length, map, take};
ghost use Rattle.cil_resolve.specs.Numbers.{given_in};
ghost use Rattle.cil_violations.specs.Common.{is_among, AreInOrder, AreOrdered, given_at, IsOrdered, of_class, or_else, permission_cmp, set_gives, share, shared};
ghost use Rattle.std.specs.Ordering.{nat_cmp};

use cil_parse::Lists;
use cil_resolve::{ClassPermission, NumberedRule, ResolvedPermissions};
use std::alloc::{AllocError, Allocator};
use std::cmp::Ordering;

/// Puts numbers in order, each once. It takes no memory.
pub fn put_in_order<A: Allocator>(numbers: &mut Vec<usize, A>)
    ensures { IsOrdered nat_cmp numbers.old.items numbers.new.items }
{
    numbers.sort_unstable();
    numbers.dedup();
}

/// Puts permissions in order, by class and permission, each once. It takes no memory.
fn order<A: Allocator>(permissions: &mut Vec<ClassPermission, A>)
    ensures { IsOrdered permission_cmp permissions.old.items permissions.new.items }
{
    permissions.sort_unstable();
    permissions.dedup();
}

/// Appends permissions of a class.
fn push_of_class<A: Allocator>(
    list: &mut Vec<ClassPermission, A>,
    class: usize,
    permissions: &[usize],
) -> Result<(), AllocError>
    ensures { OnOk result (list.new.items ≡ list.old.items
        ++ map (λ n. record { class = class; permission = n }) permissions.now) }
{
    for permission in permissions {
        list.push(ClassPermission {
            class,
            permission: *permission,
        })?;
    }
    Ok(())
}

/// Puts in a list, in place of what is in it, what a rule of a class gives, in order. It stays empty where the rule is one of a set, whose
/// permissions are in order.
fn list_given<A: Allocator>(
    list: &mut Vec<ClassPermission, A>,
    permissions: &ResolvedPermissions<A>,
) -> Result<(), AllocError>
    ensures { OnOk result (IsOrdered permission_cmp (given_in permissions.now)
        (or_else list.new.items (set_gives permissions.now))) }
{
    list.clear();
    match permissions {
        ResolvedPermissions::OfClass(p) => {
            push_of_class(list, p.class, p.given.as_slice())?;
            order(list);
        }
        ResolvedPermissions::OfSet(_) => {}
    }
    Ok(())
}

/// What each rule of a class gives, in order and each permission once, and an empty list for each rule of a set.
pub fn ordered_permissions<A: Allocator + Copy>(
    alloc: A,
    rules: &[NumberedRule<A>],
) -> Result<Lists<ClassPermission, A>, AllocError>
    ensures { IfOk result (λ lists. AreOrdered rules.now lists.0) }
{
    let mut lists = Lists::with_capacity(alloc, rules.len(), rules.len())?;
    let mut list = Vec::new(alloc);
    for rule in rules {
        list_given(&mut list, &rule.permissions)?;
        lists.extend(&list)?;
        lists.close()?;
    }
    Ok(lists)
}

/// What the rule at a place gives, in order and each permission once: what is listed for it, or what its set gives. Most rules are of a
/// class, and aren't looked at.
pub fn given_at<'r, A: Allocator>(
    rules: &'r [NumberedRule<A>],
    lists: &'r Lists<ClassPermission, A>,
    place: usize,
) -> &'r [ClassPermission]
    requires place { place < length rules.now }
    requires lists { length lists.now.0 ≡ length rules.now }
    ensures { result.now ≡ given_at rules.now lists.now.0 place }
{
    let listed = lists.get(place);
    if !listed.is_empty() {
        return listed;
    }
    match &rules[place].permissions {
        ResolvedPermissions::OfClass(_) => listed,
        ResolvedPermissions::OfSet(set) => set.as_slice(),
    }
}

/// Whether a permission is among some in order.
pub fn is_among(permission: ClassPermission, others: &[ClassPermission]) -> bool
    requires { AreInOrder others.now }
    ensures { result ≡ is_among others.now permission }
{
    others.binary_search(&permission).is_ok()
}

/// Whether one of some permissions is among others in order.
fn is_one_among(permissions: &[ClassPermission], others: &[ClassPermission]) -> bool
    requires { AreInOrder others.now }
    ensures { result ≡ share permissions.now others.now }
{
    for permission in permissions {
        if is_among(*permission, others) {
            return true;
        }
    }
    false
}

/// Whether two lists in order share a permission. It goes along both at once.
fn share_along(first: &[ClassPermission], second: &[ClassPermission]) -> bool
    requires first { AreInOrder first.now }
    requires second { AreInOrder second.now }
    ensures { result ≡ share first.now second.now }
{
    let mut at = 0;
    let mut other = 0;
    while at < first.len() && other < second.len() {
        match first[at].cmp(&second[other]) {
            Ordering::Equal => return true,
            Ordering::Less => at += 1,
            Ordering::Greater => other += 1,
        }
    }
    false
}

/// How many times as long a list has to be so that the permissions of the other are looked up in it.
const LONG: usize = 8;

/// Whether two lists in order share a permission.
pub fn share(first: &[ClassPermission], second: &[ClassPermission]) -> bool
    requires first { AreInOrder first.now }
    requires second { AreInOrder second.now }
    ensures { result ≡ share first.now second.now }
{
    if first.len() / LONG > second.len() {
        is_one_among(second, first)
    } else if second.len() / LONG > first.len() {
        is_one_among(first, second)
    } else {
        share_along(first, second)
    }
}

/// The permissions from one offset up to another.
fn part(permissions: &[ClassPermission], start: usize, end: usize) -> &[ClassPermission]
    requires low { start ≤ end }
    requires high { end ≤ length permissions.now }
    ensures { result.now ≡ take (end - start) (drop start permissions.now) }
{
    &permissions[start..end]
}

/// Those of a class, of some in order.
pub fn of_class(permissions: &[ClassPermission], class: usize) -> &[ClassPermission]
    requires { AreInOrder permissions.now }
    ensures { result.now ≡ of_class class permissions.now }
{
    let start = permissions.partition_point(|permission| permission.class < class);
    let end = permissions.partition_point(|permission| permission.class <= class);
    part(permissions, start, end)
}

/// The classes in which permissions are among others in order: in order, each once.
pub fn shared_classes<A: Allocator + Copy>(
    alloc: A,
    permissions: &[ClassPermission],
    others: &[ClassPermission],
) -> Result<Vec<usize, A>, AllocError>
    requires { AreInOrder others.now }
    ensures { IfOk result (λ list. IsOrdered nat_cmp (map (λ g. g.class) (shared permissions.now others.now)) list.items) }
{
    let mut list = Vec::new(alloc);
    for permission in permissions {
        if is_among(*permission, others) {
            list.push(permission.class)?;
        }
    }
    put_in_order(&mut list);
    Ok(list)
}
