//! Graphs that grow by edges.

ghost use Rattle.std.specs.Prelude.{◌≡◌, ◌<◌, ◌⊎◌, ◌↔◌, ℕ, length, IfOk, OnOk};
ghost use Rattle.cil_dependence.specs.Graph.{IsEdge};

use std::alloc::{AllocError, Allocator};

/// A graph of so many nodes, without edges.
pub fn without_edges<A: Allocator + Copy>(
    alloc: A,
    count: usize,
) -> Result<Vec<Vec<usize, A>, A>, AllocError>
    ensures nodes { IfOk result (λ graph. length graph.items ≡ count) }
    ensures edges { IfOk result (λ graph. (a b : ℕ) → IsEdge graph.items a b → ⊥) }
{
    let mut graph = Vec::with_capacity(alloc, count)?;
    for _ in 0..count {
        graph.push(Vec::new(alloc))?;
    }
    Ok(graph)
}

/// Puts in an edge.
pub fn add_edge<A: Allocator>(
    graph: &mut Vec<Vec<usize, A>, A>,
    from: usize,
    to: usize,
) -> Result<(), AllocError>
    requires { from < length graph.old.items }
    ensures nodes { OnOk result (length graph.new.items ≡ length graph.old.items) }
    ensures edges { OnOk result ((a b : ℕ) → IsEdge graph.new.items a b
        ↔ (IsEdge graph.old.items a b ⊎ ((a ≡ from) × (b ≡ to)))) }
{
    graph[from].push(to)?;
    Ok(())
}
