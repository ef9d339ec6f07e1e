//! Set statements in the order of their dependence.

ghost use Rattle.std.specs.Prelude.{◌≡◌, ◌<◌, ◌⊎◌, ◌↔◌, ℕ, List, length, map, slice_get, option_map, IfOk, IsTrue, OnOk};
ghost use Rattle.std.specs.List.{list_all};
ghost use Rattle.std.specs.Option.{option_and_then};
ghost use Rattle.cil_dependence.specs.Graph.{IsEdge};
ghost use Rattle.cil_resolve.specs.Below.{is_set_below};
ghost use Rattle.cil_resolve.specs.SetOrder.{names_in, attributes_in, sets_at, AreStraight, IsNext, IsSetOrder, Mentions};

use crate::numbered::NumberedSet;
use cil_dependence::{Dependence, add_edge, dependence, items_in_order, without_edges};
use cil_expression::Element;
use std::alloc::{AllocError, Allocator, Global};

/// Set statements, and their numbers in the order of dependence.
#[derive(Drop)]
pub struct OrderedSets<A: Allocator = Global> {
    pub(crate) sets: Vec<NumberedSet<A>, A>,
    pub(crate) order: Vec<usize, A>,
    pub(crate) ghost ordered: { IsSetOrder sets.items order.items },
}

impl<A: Allocator + Copy> OrderedSets<A> {
    /// Set statements whose numbers are below so many names, and of which no attribute depends on itself.
    pub fn of(alloc: A, names: usize, sets: Vec<NumberedSet<A>, A>) -> Result<Self, AllocError>
        requires within { IsTrue (list_all (is_set_below names) sets.items) }
        requires straight { AreStraight sets.items }
        ensures { IfOk result (λ ordered. ordered.sets.items ≡ sets.items) }
    {
        let order = order(alloc, names, &sets)?;
        Ok(OrderedSets { sets, order })
    }
}

impl<A: Allocator> OrderedSets<A> {
    /// The statement whose number stands at a place of the order.
    fn numbered(&self, i: usize) -> Option<&NumberedSet<A>>
        ensures { option_map (λ set. set.now) result
            ≡ option_and_then (slice_get self.now.sets.items) (slice_get self.now.order.items i) }
    {
        let number = self.order.get(i)?;
        self.sets.get(*number)
    }

    /// The statement at a place of the order.
    pub fn at(&self, i: usize) -> Option<&NumberedSet<A>>
        ensures { option_map (λ set. set.now) result ≡ slice_get (sets_at self.now.sets.items self.now.order.items) i }
    {
        self.numbered(i)
    }

    /// How many there are.
    pub fn len(&self) -> usize
        ensures { result ≡ length (sets_at self.now.sets.items self.now.order.items) }
    {
        self.order.len()
    }
}

/// The numbers of set statements, each behind those of the attributes that it mentions.
fn order<A: Allocator + Copy>(
    alloc: A,
    names: usize,
    sets: &[NumberedSet<A>],
) -> Result<Vec<usize, A>, AllocError>
    requires within { IsTrue (list_all (is_set_below names) sets.now) }
    requires straight { AreStraight sets.now }
    ensures { IfOk result (λ order. IsSetOrder sets.now order.items) }
{
    if sets.is_empty() {
        return Ok(Vec::new(alloc));
    }
    order_of_some(alloc, names, sets)
}

/// The same, by a graph that has a node for each name.
fn order_of_some<A: Allocator + Copy>(
    alloc: A,
    names: usize,
    sets: &[NumberedSet<A>],
) -> Result<Vec<usize, A>, AllocError>
    requires within { IsTrue (list_all (is_set_below names) sets.now) }
    requires straight { AreStraight sets.now }
    ensures { IfOk result (λ order. IsSetOrder sets.now order.items) }
{
    let graph = graph(alloc, names, sets)?;
    let Dependence::Order(order) = dependence(alloc, &graph)? else {
        unreachable!("an attribute depends on itself");
    };
    let attributes = attributes(alloc, sets)?;
    items_in_order(alloc, &order, &attributes)
}

/// The graph of names: an edge leads from each attribute to those that its set statements mention.
fn graph<A: Allocator + Copy>(
    alloc: A,
    names: usize,
    sets: &[NumberedSet<A>],
) -> Result<Vec<Vec<usize, A>, A>, AllocError>
    requires { IsTrue (list_all (is_set_below names) sets.now) }
    ensures nodes { IfOk result (λ graph. length graph.items ≡ names) }
    ensures edges { IfOk result (λ graph. (a b : ℕ) → IsEdge graph.items a b ↔ IsNext sets.now a b) }
{
    let mut graph = without_edges(alloc, names)?;
    for set in sets {
        add_set(&mut graph, set)?;
    }
    Ok(graph)
}

/// Puts in an edge for each attribute that a set statement mentions.
fn add_set<A: Allocator>(
    graph: &mut Vec<Vec<usize, A>, A>,
    set: &NumberedSet<A>,
) -> Result<(), AllocError>
    requires { set.now.attribute < length graph.old.items }
    ensures nodes { OnOk result (length graph.new.items ≡ length graph.old.items) }
    ensures edges { OnOk result ((a b : ℕ) → IsEdge graph.new.items a b
        ↔ (IsEdge graph.old.items a b ⊎ Mentions set.now a b)) }
{
    for element in names_of(set) {
        if let Element::Attribute(to) = element {
            add_edge(graph, set.attribute, *to as usize)?;
        }
    }
    Ok(())
}

/// What the names of a set statement's expression lead to.
fn names_of<A: Allocator>(set: &NumberedSet<A>) -> &[Element]
    ensures { result.now ≡ names_in set.now }
{
    set.expression.names()
}

/// The attribute of each set statement.
fn attributes<A: Allocator + Copy>(
    alloc: A,
    sets: &[NumberedSet<A>],
) -> Result<Vec<usize, A>, AllocError>
    ensures { IfOk result (λ attributes. attributes.items ≡ attributes_in sets.now) }
{
    sets.iter().map(|set| set.attribute).collect(alloc)
}
