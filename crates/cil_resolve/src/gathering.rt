//! Gathers what the statements of permission sets give.

ghost use Rattle.std.specs.Prelude.{◌≡◌, ◌++◌, List, [], map, length, slice_get, Contains, Some, IfNone, IfOk, IfSome, OnOk};
ghost use Rattle.std.specs.List.Sorted.{IsStrictlySortedBy};
ghost use Rattle.std.specs.Ordering.{nat_cmp};
ghost use Rattle.std.specs.Rc.{rc_value};
ghost use Rattle.cil_resolve.specs.Numbers.{given_with};
ghost use Rattle.cil_resolve.specs.SetPermissions.{IsOrdered};
ghost use Rattle.cil_resolve.specs.GivenSets.{AreGathered, ArePutInOrder, AreSetNumbers, GivesSets, set_gives};
ghost use Rattle.cil_resolve.specs.declared.numbered.NumberedPermissionSet.{NumberedPermissionSet};

use crate::given_sets::GivenSets;
use crate::numbered::{NumberedPermissionSet, NumberedPermissions};
use crate::set_permissions::{ClassPermission, SetPermissions};
use std::alloc::{AllocError, Allocator};

/// The numbers of the sets of statements.
fn sets_in<A: Allocator + Copy>(
    alloc: A,
    statements: &[NumberedPermissionSet<A>],
) -> Result<Vec<usize, A>, AllocError>
    ensures { IfOk result (λ numbers. numbers.items ≡ map (λ s. s.set) statements.now) }
{
    statements
        .iter()
        .map(|statement| statement.set)
        .collect(alloc)
}

/// The numbers of the sets that have statements, in order and each once.
fn set_numbers<A: Allocator + Copy>(
    alloc: A,
    statements: &[NumberedPermissionSet<A>],
) -> Result<Vec<usize, A>, AllocError>
    ensures { IfOk result (λ numbers. AreSetNumbers statements.now numbers.items) }
{
    let mut numbers = sets_in(alloc, statements)?;
    numbers.sort_unstable();
    numbers.dedup();
    Ok(numbers)
}

/// An empty list for each number.
fn empty_lists<A: Allocator + Copy>(
    alloc: A,
    numbers: &[usize],
) -> Result<Vec<Vec<ClassPermission, A>, A>, AllocError>
    ensures { IfOk result (λ lists. AreGathered [] numbers.now lists.items) }
{
    let mut lists = Vec::with_capacity(alloc, numbers.len())?;
    for _ in 0..numbers.len() {
        lists.push(Vec::new(alloc))?;
    }
    Ok(lists)
}

/// The place of a number, if it is among some.
fn place_of(numbers: &[usize], number: usize) -> Option<usize>
    requires { IsStrictlySortedBy nat_cmp numbers.now }
    ensures some { IfSome result (λ place. slice_get numbers.now place ≡ Some number) }
    ensures none { IfNone result (Contains numbers.now number → ⊥) }
{
    numbers.binary_search(&number).ok()
}

/// Puts in the permissions that a statement gives.
fn add<A: Allocator>(
    list: &mut Vec<ClassPermission, A>,
    permissions: &NumberedPermissions<A>,
) -> Result<(), AllocError>
    ensures { OnOk result (list.new.items ≡ list.old.items ++ given_with permissions.now) }
{
    for permission in permissions.given.as_slice() {
        list.push(ClassPermission {
            class: permissions.class,
            permission: *permission,
        })?;
    }
    Ok(())
}

/// For each number what the statements of its set give, in the order of the statements.
fn gathered<A: Allocator + Copy>(
    alloc: A,
    numbers: &[usize],
    statements: &[NumberedPermissionSet<A>],
) -> Result<Vec<Vec<ClassPermission, A>, A>, AllocError>
    requires { AreSetNumbers statements.now numbers.now }
    ensures { IfOk result (λ lists. AreGathered statements.now numbers.now lists.items) }
{
    let mut lists = empty_lists(alloc, numbers)?;
    for statement in statements {
        if let Some(place) = place_of(numbers, statement.set) {
            add(&mut lists[place], &statement.permissions)?;
        }
    }
    Ok(lists)
}

/// For each number the permissions of its list, in order and each once.
fn put_in_order<A: Allocator + Copy>(
    alloc: A,
    numbers: &[usize],
    lists: &[Vec<ClassPermission, A>],
) -> Result<Vec<SetPermissions<A>, A>, AllocError>
    requires { length lists.now ≡ length numbers.now }
    ensures { IfOk result (λ sets. ArePutInOrder numbers.now lists.now sets.items) }
{
    let mut sets = Vec::with_capacity(alloc, numbers.len())?;
    for place in 0..numbers.len() {
        sets.push(SetPermissions::of(alloc, numbers[place], &lists[place])?)?;
    }
    Ok(sets)
}

impl<A: Allocator + Copy> GivenSets<A> {
    /// What the sets of statements give, each set's worked out once.
    pub fn of(alloc: A, statements: &[NumberedPermissionSet<A>]) -> Result<Self, AllocError>
        ensures { IfOk result (GivesSets statements.now) }
    {
        let numbers = set_numbers(alloc, statements)?;
        let lists = gathered(alloc, &numbers, statements)?;
        let sets = put_in_order(alloc, &numbers, &lists)?;
        Ok(GivenSets {
            numbers,
            sets,
            none: SetPermissions::of(alloc, 0, &[])?,
        })
    }
}

impl<A: Allocator> GivenSets<A> {
    /// What the set of a number gives, for one more rule. Its time goes with the logarithm of the number of sets.
    pub fn find(&self, set: usize) -> Result<SetPermissions<A>, AllocError>
        ensures set { IfOk result (λ s. s.set ≡ set) }
        ensures given { IfOk result (λ s. (statements : List (NumberedPermissionSet A)) → GivesSets statements self.now
            → IsOrdered (set_gives statements set) (rc_value s.given).items) }
    {
        match place_of(&self.numbers, set) {
            Some(place) => self.sets[place].share(set),
            None => self.none.share(set),
        }
    }
}
