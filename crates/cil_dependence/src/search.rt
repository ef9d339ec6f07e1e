//! Whether a node leads to itself.

ghost use Rattle.std.specs.Prelude.{◌≡◌, ◌<◌, ◌↔◌, IfOk, IsTrue, length};
ghost use Rattle.cil_dependence.specs.Graph.{AreNodes, Leads};

use std::alloc::{AllocError, Allocator};

/// Whether a node leads to itself, found by a search of all that it leads to.
pub fn leads_to_itself<A: Allocator + Copy>(
    alloc: A,
    graph: &[Vec<usize, A>],
    node: usize,
) -> Result<bool, AllocError>
    requires nodes { AreNodes graph.now }
    requires node { node < length graph.now }
    ensures { IfOk result (λ leads. IsTrue leads ↔ Leads graph.now node node) }
{
    let mut fresh = vec![in alloc; true; graph.len()]?;
    let mut open = Vec::new(alloc);
    open.extend_from_slice(&graph[node])?;
    while let Some(next) = open.pop() {
        if fresh[next] {
            fresh[next] = false;
            open.extend_from_slice(&graph[next])?;
        }
    }
    Ok(!fresh[node])
}
