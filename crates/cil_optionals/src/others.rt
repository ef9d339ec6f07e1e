//! What the statements in optionals need, and the optionals inside others.

ghost use Rattle.std.specs.Prelude.{◌≡◌, ◌≢◌, ◌<◌, ◌+◌, ◌&&◌, ℕ, List, Some, length, slice_get, IfOk, IsTrue, OnOk};
ghost use Rattle.cil_optionals.specs.Common.{Placed, restricted, NamedModule, are_found, are_there, optional_at, Asks, AreOthers, AreOthersTo, HasUnmet, HavePermissions, IsReady};
ghost use Rattle.cil_specs.specs.Lookup.{references as references_of, named_permissions};
ghost use Rattle.cil_optionals.specs.Given.{permissions_in, IsInverse};

use crate::listed::Listed;
use crate::modules::module_of;
use crate::permissions::{Permissions, no_questions};
use crate::references::{add_need, references};
use cil_bind::{Joined, Policy};
use cil_needs::Need;
use std::alloc::{AllocError, Allocator};

/// Puts what an optional inside another needs behind others: that.
fn around<A: Allocator + Copy>(
    policy: &Policy<'_, A>,
    i: usize,
    needs: &mut Vec<Need, A>,
) -> Result<(), AllocError>
    requires ready { (parsed : List (NamedModule _)) × (all : List Placed) × IsReady policy.now parsed all }
    requires within { i < length policy.now.rows.items }
    ensures { OnOk result ((parsed : List (NamedModule _)) (all : List Placed) → IsReady policy.now parsed all → AreOthersTo all policy.now.rows.items i i needs.old.items → AreOthersTo all policy.now.rows.items i (i + 1) needs.new.items) }
{
    let row = policy.rows[i];
    if row.is_optional {
        add_need(i + 1, Some(row.optional as usize), needs)?;
    }
    Ok(())
}

/// Puts what the names of the statement at a place need behind others, and what nothing meets where its class lacks a permission.
fn asked<'m, A: Allocator + Copy>(
    alloc: A,
    joined: &Joined<'m, A>,
    policy: &Policy<'m, A>,
    permissions: &mut Permissions<'_, 'm, A>,
    i: usize,
    needs: &mut Vec<Need, A>,
) -> Result<(), AllocError>
    requires ready { (all : List Placed) × IsReady policy.now joined.now.modules.items all }
    requires within { i < length policy.now.rows.items }
    requires same { permissions.old.joined.now ≡ joined.now }
    ensures listed { OnOk result (permissions.new.listed ≡ permissions.old.listed) }
    ensures joined { OnOk result (permissions.new.joined ≡ permissions.old.joined) }
    ensures asks { OnOk result ((all : List Placed) (s : Placed) → IsReady policy.now joined.now.modules.items all → HavePermissions all (permissions_in permissions.old.listed.now) → slice_get all i ≡ Some s
        → Asks all (optional_at policy.now i) (λ set. are_found (restricted set all) s.namespace (references_of s.form) && are_there (restricted set all) s.namespace (named_permissions s.form)) needs.old.items needs.new.items) }
{
    let module = module_of(joined, policy, i);
    references(joined, policy, module, i, needs)?;
    if !permissions.are_there(alloc, policy, i)? {
        add_need(policy.rows[i].optional as usize, None, needs)?;
    }
    Ok(())
}

/// Whether the last need is one of this optional, and nothing meets it. The optional drops then, whatever else its statements need.
fn has_unmet(needs: &[Need], optional: usize) -> bool
    ensures { IsTrue result → HasUnmet needs.now optional }
{
    match needs.last() {
        Some(last) => last.optional == optional && last.first.is_none() && last.second.is_none(),
        None => false,
    }
}

/// Puts what the statement at a place needs behind others.
fn need_at<'m, A: Allocator + Copy>(
    alloc: A,
    joined: &Joined<'m, A>,
    policy: &Policy<'m, A>,
    permissions: &mut Permissions<'_, 'm, A>,
    i: usize,
    needs: &mut Vec<Need, A>,
) -> Result<(), AllocError>
    requires ready { (all : List Placed) × IsReady policy.now joined.now.modules.items all }
    requires within { i < length policy.now.rows.items }
    requires same { permissions.old.joined.now ≡ joined.now }
    ensures listed { OnOk result (permissions.new.listed ≡ permissions.old.listed) }
    ensures joined { OnOk result (permissions.new.joined ≡ permissions.old.joined) }
    ensures others { OnOk result ((all : List Placed) → IsReady policy.now joined.now.modules.items all → HavePermissions all (permissions_in permissions.old.listed.now)
        → AreOthersTo all policy.now.rows.items i i needs.old.items → AreOthersTo all policy.now.rows.items (i + 1) (i + 1) needs.new.items) }
{
    let row = policy.rows[i];
    if row.optional == 0 {
        return Ok(());
    }
    around(policy, i, needs)?;
    if has_unmet(needs.as_slice(), row.optional as usize) {
        return Ok(());
    }
    asked(alloc, joined, policy, permissions, i, needs)?;
    Ok(())
}

/// What the statements in optionals need, and the optionals inside others, by the permissions of the policy's classes.
fn others_by<'m, A: Allocator + Copy>(
    alloc: A,
    joined: &Joined<'m, A>,
    policy: &Policy<'m, A>,
    permissions: &mut Permissions<'_, 'm, A>,
) -> Result<Vec<Need, A>, AllocError>
    requires ready { (all : List Placed) × IsReady policy.now joined.now.modules.items all }
    requires same { permissions.old.joined.now ≡ joined.now }
    ensures { IfOk result (λ needs. (all : List Placed) → IsReady policy.now joined.now.modules.items all → HavePermissions all (permissions_in permissions.old.listed.now)
        → AreOthers all policy.now.rows.items needs.items) }
{
    let mut needs = Vec::new(alloc);
    for i in 0..policy.rows.len() {
        need_at(alloc, joined, policy, permissions, i, &mut needs)?;
    }
    Ok(needs)
}

/// What the statements in optionals need, and the optionals inside others, by what the policy's statements list and give.
pub fn others<'m, A: Allocator + Copy>(
    alloc: A,
    joined: &Joined<'m, A>,
    policy: &Policy<'m, A>,
    listed: &Listed<'m, A>,
) -> Result<Vec<Need, A>, AllocError>
    requires ready { (all : List Placed) × IsReady policy.now joined.now.modules.items all }
    requires inverse { IsInverse listed.now }
    ensures { IfOk result (λ needs. (all : List Placed) → IsReady policy.now joined.now.modules.items all → HavePermissions all (permissions_in listed.now)
        → AreOthers all policy.now.rows.items needs.items) }
{
    let recent = no_questions(alloc)?;
    let mut permissions = Permissions::of(alloc, recent, listed, joined);
    others_by(alloc, joined, policy, &mut permissions)
}
