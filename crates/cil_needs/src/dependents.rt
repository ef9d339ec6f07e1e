//! Which needs each node can meet.

ghost use Rattle.std.specs.Prelude.{◌≡◌, ◌<◌, ◌++◌, ℕ, length, IfOk, OnOk};
ghost use Rattle.std.specs.List.Sorted.{IsNonDecreasingBy, IsPermutation};
ghost use Rattle.cil_needs.specs.Dependents.{dependents_of_node, node_of, AreDependents, AreReopened, IsDependent};

use crate::greatest::Need;
use std::alloc::{AllocError, Allocator};

/// A node, and a need that it can meet, by its place.
#[derive(Clone, Copy)]
pub struct Dependent {
    pub node: usize,
    pub need: usize,
}

/// Puts the need of a place behind others, for a node that can meet it, if there is one.
fn push<A: Allocator>(
    dependents: &mut Vec<Dependent, A>,
    node: Option<usize>,
    need: usize,
) -> Result<(), AllocError>
    ensures { OnOk result (dependents.new.items ≡ dependents.old.items ++ dependents_of_node node need) }
{
    if let Some(node) = node {
        dependents.push(Dependent { node, need })?;
    }
    Ok(())
}

/// The needs that nodes can meet, need by need.
fn by_need<A: Allocator + Copy>(alloc: A, needs: &[Need]) -> Result<Vec<Dependent, A>, AllocError>
    ensures within { IfOk result (λ dependents. (o i : ℕ) → IsDependent dependents.items o i → i < length needs.now) }
    ensures each { IfOk result (λ dependents. AreDependents dependents.items needs.now) }
{
    let mut dependents = Vec::with_capacity(alloc, needs.len())?;
    for (i, need) in needs.iter().enumerate() {
        push(&mut dependents, need.first, i)?;
        push(&mut dependents, need.second, i)?;
    }
    Ok(dependents)
}

/// Sorts them by their nodes. They often stand in runs already, which are merged.
fn sort<A: Allocator + Copy>(dependents: &mut Vec<Dependent, A>) -> Result<(), AllocError>
    ensures sorted { OnOk result (IsNonDecreasingBy node_of dependents.new.items) }
    ensures permutation { IsPermutation dependents.old.items dependents.new.items }
{
    dependents.sort_by_key(|dependent| dependent.node)
}

/// The needs that nodes can meet, node by node.
pub fn dependents<A: Allocator + Copy>(
    alloc: A,
    needs: &[Need],
) -> Result<Vec<Dependent, A>, AllocError>
    ensures sorted { IfOk result (λ dependents. IsNonDecreasingBy node_of dependents.items) }
    ensures within { IfOk result (λ dependents. (o i : ℕ) → IsDependent dependents.items o i → i < length needs.now) }
    ensures each { IfOk result (λ dependents. AreDependents dependents.items needs.now) }
{
    let mut dependents = by_need(alloc, needs)?;
    sort(&mut dependents)?;
    Ok(dependents)
}

/// Puts the needs that a node can meet behind those that wait.
pub fn reopen<A: Allocator>(
    dependents: &[Dependent],
    node: usize,
    waiting: &mut Vec<usize, A>,
) -> Result<(), AllocError>
    requires { IsNonDecreasingBy node_of dependents.now }
    ensures { OnOk result (AreReopened dependents.now node waiting.old.items waiting.new.items) }
{
    let start = dependents.partition_point(|dependent| dependent.node < node);
    let end = dependents.partition_point(|dependent| dependent.node <= node);
    for place in start..end {
        waiting.push(dependents[place].need)?;
    }
    Ok(())
}
