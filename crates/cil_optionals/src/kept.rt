//! The optionals that a policy keeps.

ghost use Rattle.std.specs.Prelude.{◌≡◌, ◌+◌, ℕ, List, true, false, not, length, replicate, slice_index_or, IfOk, OnOk};
ghost use Rattle.cil_optionals.specs.Common.{list_all, Placed, AreApart, AreNeeds, IsReady};
ghost use Rattle.cil_bind.specs.Policy.{IsBoundTo};
ghost use Rattle.cil_bind.specs.Nested.{AreNested};
ghost use Rattle.cil_optionals.specs.Nested.{ShowsKept};
ghost use Rattle.cil_optionals.specs.Providers.{AreProviders};
ghost use Rattle.cil_optionals.specs.Given.{IsInverse, IsUpTo};

use crate::listed::Listed;
use crate::others::others;
use crate::told::tell_all;
use cil_bind::{Joined, Policy, Row};
use cil_names::counted_in_32_bits;
use cil_needs::{Need, greatest_set};
use std::alloc::{AllocError, Allocator};

/// Whether no row is an optional.
fn none_is_optional(rows: &[Row]) -> bool
    ensures { result ≡ list_all (λ row. not row.is_optional) rows.now }
{
    rows.iter().all(|row| !row.is_optional)
}

/// Marks for so many numbers, all of them marked.
fn all_marked<A: Allocator + Copy>(alloc: A, count: usize) -> Result<Vec<bool, A>, AllocError>
    ensures { IfOk result (λ marks. marks.items ≡ replicate count true) }
{
    let marks = vec![in alloc; true; count]?;
    Ok(marks)
}

/// Takes up what a policy's statements list and give, and puts what the names and the statements in its optionals need behind others,
/// where there are none.
fn push_told<'m, A: Allocator + Copy>(
    alloc: A,
    joined: &Joined<'m, A>,
    policy: &Policy<'m, A>,
    listed: &mut Listed<'m, A>,
    needs: &mut Vec<Need, A>,
) -> Result<(), AllocError>
    requires ready { (all : List Placed) × IsReady policy.now joined.now.modules.items all }
    requires first { (all : List Placed) → IsReady policy.now joined.now.modules.items all
        → AreProviders all policy.now.rows.items 0 needs.old.items }
    requires none { (all : List Placed) → IsReady policy.now joined.now.modules.items all
        → IsUpTo all 0 listed.old }
    requires inverse { IsInverse listed.old }
    ensures { OnOk result ((all : List Placed) → IsReady policy.now joined.now.modules.items all
        → AreNeeds all policy.now.rows.items needs.new.items) }
{
    tell_all(alloc, joined, policy, listed, needs)?;
    let more = others(alloc, joined, policy, listed)?;
    needs.extend(more)?;
    Ok(())
}

/// Puts what the names and the statements in a policy's optionals need behind others, where there are none.
fn push_needs<'m, A: Allocator + Copy>(
    alloc: A,
    joined: &Joined<'m, A>,
    policy: &Policy<'m, A>,
    needs: &mut Vec<Need, A>,
) -> Result<(), AllocError>
    requires ready { (all : List Placed) × IsReady policy.now joined.now.modules.items all }
    requires first { (all : List Placed) → IsReady policy.now joined.now.modules.items all
        → AreProviders all policy.now.rows.items 0 needs.old.items }
    ensures { OnOk result ((all : List Placed) → IsReady policy.now joined.now.modules.items all
        → AreNeeds all policy.now.rows.items needs.new.items) }
{
    let mut listed = Listed::new(alloc, joined.seed);
    push_told(alloc, joined, policy, &mut listed, needs)
}

/// What the names and the statements in a policy's optionals need.
fn all_needs<'m, A: Allocator + Copy>(
    alloc: A,
    joined: &Joined<'m, A>,
    policy: &Policy<'m, A>,
) -> Result<Vec<Need, A>, AllocError>
    requires ready { (all : List Placed) × IsReady policy.now joined.now.modules.items all }
    ensures { IfOk result (λ needs. (all : List Placed) → IsReady policy.now joined.now.modules.items all → AreNeeds all policy.now.rows.items needs.items) }
{
    let mut needs = Vec::new(alloc);
    push_needs(alloc, joined, policy, &mut needs)?;
    Ok(needs)
}

/// A mark for each number of an optional whether the policy keeps it, by what the optionals need.
fn kept_by_needs<'m, A: Allocator + Copy>(
    alloc: A,
    joined: &Joined<'m, A>,
    policy: &Policy<'m, A>,
) -> Result<Vec<bool, A>, AllocError>
    requires ready { (all : List Placed) × IsReady policy.now joined.now.modules.items all }
    ensures len { IfOk result (λ kept. length kept.items ≡ length policy.now.rows.items + 1) }
    ensures none { IfOk result (λ kept. slice_index_or kept.items 0 false ≡ true) }
    ensures kept { IfOk result (λ kept. (all : List Placed) → IsReady policy.now joined.now.modules.items all → ShowsKept all policy.now.rows.items kept.items) }
{
    let count = policy.rows.len();
    let needs = all_needs(alloc, joined, policy)?;
    let mut kept = greatest_set(alloc, count + count, &needs)?;
    kept.truncate(count + 1);
    Ok(kept)
}

/// A mark for each number of an optional, its place and 1 more, whether the policy keeps it. 0, which stands for none, is marked, and the
/// marks of other statements have no meaning. A policy whose places have more than 32 bits is answered as out of memory.
pub fn kept_optionals<'m, A: Allocator + Copy>(
    alloc: A,
    joined: &Joined<'m, A>,
    policy: &Policy<'m, A>,
) -> Result<Vec<bool, A>, AllocError>
    requires { (all : List Placed) × IsBoundTo policy.now joined.now.modules.items all × AreNested policy.now.rows.items all × AreApart all }
    ensures len { IfOk result (λ kept. length kept.items ≡ length policy.now.rows.items + 1) }
    ensures none { IfOk result (λ kept. slice_index_or kept.items 0 false ≡ true) }
    ensures kept { IfOk result (λ kept. (all : List Placed) → IsBoundTo policy.now joined.now.modules.items all → AreNested policy.now.rows.items all → AreApart all
        → ShowsKept all policy.now.rows.items kept.items) }
{
    let count = policy.rows.len();
    counted_in_32_bits(count)?;
    if none_is_optional(policy.rows.as_slice()) {
        return all_marked(alloc, count + 1);
    }
    kept_by_needs(alloc, joined, policy)
}
