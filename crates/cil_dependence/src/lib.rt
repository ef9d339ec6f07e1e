//! The order in which nodes depend on one another, or the first node that depends on itself.
#![tactic(auto)]

mod components;
mod first;
mod graph;
mod items;
mod order;
mod search;

ghost use Rattle.std.specs.Prelude.{IfOk, MatchOption};
ghost use Rattle.cil_dependence.specs.Dependence.{IsDependence, IsFirst, IsStraight};
ghost use Rattle.cil_dependence.specs.Graph.{AreNodes};

pub use graph::{add_edge, without_edges};
pub use items::items_in_order;
pub use order::{Dependence, order_is_straight};
use std::alloc::{AllocError, Allocator};

/// The nodes in an order in which each stands behind those that it has an edge to, or the first node that leads to
/// itself. For each node the graph has the nodes that it has an edge to.
pub fn dependence<A: Allocator + Copy>(
    alloc: A,
    graph: &[Vec<usize, A>],
) -> Result<Dependence<A>, AllocError>
    requires nodes { AreNodes graph.now }
    ensures { IfOk result (IsDependence graph.now) }
{
    match order::order(alloc, graph)? {
        Dependence::Order(order) => Ok(Dependence::Order(order)),
        Dependence::Circle(found) => {
            let first = first::first_on_circle(alloc, graph, found)?;
            Ok(Dependence::Circle(first))
        }
    }
}

/// The first node that leads to itself, if one does.
pub fn first_circle<A: Allocator + Copy>(
    alloc: A,
    graph: &[Vec<usize, A>],
) -> Result<Option<usize>, AllocError>
    requires nodes { AreNodes graph.now }
    ensures { IfOk result (λ found. MatchOption found (IsStraight graph.now) (IsFirst graph.now)) }
{
    match dependence(alloc, graph)? {
        Dependence::Order(order) => {
            order_is_straight(graph, &order);
            Ok(None)
        }
        Dependence::Circle(node) => Ok(Some(node)),
    }
}
