//! The first node that leads to itself.

ghost use Rattle.std.specs.Prelude.{◌≡◌, ◌<◌, ◌≤◌, ◌↔◌, length, All, IfOk, IsTrue, slice_index};
ghost use Rattle.cil_dependence.specs.Dependence.{IsCircular, IsFirst};
ghost use Rattle.cil_dependence.specs.Graph.{AreNodes, Leads};
ghost use Rattle.cil_dependence.specs.Ranks.{NeverRises};

use crate::components::components;
use crate::search::leads_to_itself;
use std::alloc::{AllocError, Allocator};

/// The first node that leads to itself, given one that does. The components are a hint: where they are right the first
/// search finds the answer.
pub fn first_on_circle<A: Allocator + Copy>(
    alloc: A,
    graph: &[Vec<usize, A>],
    found: usize,
) -> Result<usize, AllocError>
    requires nodes { AreNodes graph.now }
    requires found { IsCircular graph.now found }
    ensures { IfOk result (IsFirst graph.now) }
{
    let ranks = components(alloc, graph)?;
    let ordered = never_rises(graph, &ranks);
    for node in 0..found {
        if is_on_circle(alloc, graph, &ranks, ordered, node)? {
            return Ok(node);
        }
    }
    Ok(found)
}

/// Whether a node leads to itself. It needs no search where no edge leads to a larger rank, and its own lead to smaller
/// ones.
fn is_on_circle<A: Allocator + Copy>(
    alloc: A,
    graph: &[Vec<usize, A>],
    ranks: &[usize],
    ordered: bool,
    node: usize,
) -> Result<bool, AllocError>
    requires nodes { AreNodes graph.now }
    requires node { node < length graph.now }
    requires ordered { IsTrue ordered → NeverRises graph.now ranks.now }
    ensures { IfOk result (λ leads. IsTrue leads ↔ Leads graph.now node node) }
{
    if ordered && falls(&graph[node], ranks, node) {
        return Ok(false);
    }
    leads_to_itself(alloc, graph, node)
}

/// Whether no edge leads to a node of a larger rank.
fn never_rises<A: Allocator>(graph: &[Vec<usize, A>], ranks: &[usize]) -> bool
    ensures { IsTrue result → NeverRises graph.now ranks.now }
{
    for (node, to) in graph.iter().enumerate() {
        if !stays_down(to, ranks, node) {
            return false;
        }
    }
    true
}

/// Whether none of these nodes has a larger rank than this one.
fn stays_down(to: &[usize], ranks: &[usize], node: usize) -> bool
    ensures { IsTrue result → All (λ next. slice_index ranks.now next ≤ slice_index ranks.now node) to.now }
{
    to.iter()
        .all(|next| rank(ranks, *next) <= rank(ranks, node))
}

/// Whether these nodes all have a smaller rank than this one.
fn falls(to: &[usize], ranks: &[usize], node: usize) -> bool
    ensures { IsTrue result → All (λ next. slice_index ranks.now next < slice_index ranks.now node) to.now }
{
    to.iter().all(|next| rank(ranks, *next) < rank(ranks, node))
}

/// The rank of a node, or 0 where it has none.
fn rank(ranks: &[usize], node: usize) -> usize
    ensures { result ≡ slice_index ranks.now node }
{
    ranks.get(node).copied().unwrap_or(0)
}
