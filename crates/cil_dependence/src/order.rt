//! The order of dependence, by a walk in depth.

ghost use Rattle.std.specs.Prelude.{◌≡◌, ◌<◌, List, [], ◌∷◌, ◌++◌, ℕ, length, map, set, IfOk, OnOk, MatchOption};
ghost use Rattle.cil_dependence.specs.Dependence.{IsOrder, IsStraight, IsWalked};
ghost use Rattle.cil_dependence.specs.Graph.{AreNodes};
ghost use Rattle.cil_dependence.specs.Walk.{EndsIn, IsPopped, IsStepped, IsVisited, IsWalking, OrCircle};
ghost use Rattle.cil_dependence.specs.declared.order.State.TheVariants.{Open, Done};

use std::alloc::{AllocError, Allocator, Global};

/// What the dependence of nodes on one another comes to.
#[derive(Drop)]
pub enum Dependence<A: Allocator = Global> {
    /// All nodes, each behind those that it has an edge to.
    Order(Vec<usize, A>),
    /// A node that leads to itself in one or more steps.
    Circle(usize),
}

/// How far the walk has come with a node.
#[derive(Clone, Copy)]
enum State {
    New,
    Open,
    Done,
}

/// A walk in depth over the nodes of a graph.
#[derive(Drop)]
struct Walk<A: Allocator> {
    states: Vec<State, A>,
    // How many edges of each node aren't passed yet. The last is passed first.
    left: Vec<usize, A>,
    // The open nodes, each with an edge to the next.
    path: Vec<usize, A>,
    // The nodes that are done.
    order: Vec<usize, A>,
}

/// The order of the nodes, or some node that leads to itself.
pub fn order<A: Allocator + Copy>(
    alloc: A,
    graph: &[Vec<usize, A>],
) -> Result<Dependence<A>, AllocError>
    requires nodes { AreNodes graph.now }
    ensures { IfOk result (IsWalked graph.now) }
{
    let mut walk = Walk::new(alloc, graph)?;
    for root in 0..graph.len() {
        if let Some(circle) = walk.visit(graph, root)? {
            return Ok(Dependence::Circle(circle));
        }
    }
    Ok(Dependence::Order(walk.order))
}

/// How many edges each node has.
fn lengths<A: Allocator + Copy>(
    alloc: A,
    graph: &[Vec<usize, A>],
) -> Result<Vec<usize, A>, AllocError>
    ensures { IfOk result (λ lengths. lengths.items ≡ map (λ to. length to.items) graph.now) }
{
    graph.iter().map(|to| to.len()).collect(alloc)
}

impl<A: Allocator + Copy> Walk<A> {
    /// A walk that has come to no node.
    fn new(alloc: A, graph: &[Vec<usize, A>]) -> Result<Self, AllocError>
        ensures walk { IfOk result (IsWalking graph.now) }
        ensures path { IfOk result (λ walk. walk.path.items ≡ []) }
    {
        Ok(Walk {
            states: vec![in alloc; State::New; graph.len()]?,
            left: lengths(alloc, graph)?,
            path: Vec::new(alloc),
            order: Vec::new(alloc),
        })
    }

    /// Walks over all that a node leads to, unless that was done, or answers a node on a circle.
    fn visit(&mut self, graph: &[Vec<usize, A>], root: usize) -> Result<Option<usize>, AllocError>
        requires nodes { AreNodes graph.now }
        requires root { root < length graph.now }
        requires walk { IsWalking graph.now self.old }
        requires path { self.old.path.items ≡ [] }
        ensures { IfOk result (OrCircle graph.now (IsVisited graph.now root self.old self.new)) }
    {
        let State::New = self.states[root] else {
            return Ok(None);
        };
        self.enter(root)?;
        while let Some(node) = self.top() {
            if let Some(circle) = self.step(graph, node)? {
                return Ok(Some(circle));
            }
        }
        Ok(None)
    }

    /// The node at the end of the path.
    fn top(&self) -> Option<usize>
        ensures { MatchOption result (self.now.path.items ≡ []) (EndsIn self.now.path.items) }
    {
        self.path.last().copied()
    }

    /// Follows or passes an edge of the node at the end of the path, or leaves it, or answers a node on a circle.
    fn step(&mut self, graph: &[Vec<usize, A>], node: usize) -> Result<Option<usize>, AllocError>
        requires nodes { AreNodes graph.now }
        requires walk { IsWalking graph.now self.old }
        requires node { EndsIn self.old.path.items node }
        ensures { IfOk result (OrCircle graph.now (IsStepped graph.now self.old self.new)) }
    {
        let Some(n) = self.left[node].checked_sub(1) else {
            self.leave(node)?;
            return Ok(None);
        };
        let next = graph[node][n];
        match self.states[next] {
            State::New => self.enter(next)?,
            State::Done => self.left[node] = n,
            State::Open => return Ok(Some(next)),
        }
        Ok(None)
    }

    /// Opens a node at the end of the path.
    fn enter(&mut self, node: usize) -> Result<(), AllocError>
        requires { node < length self.old.states.items }
        ensures states { OnOk result (self.new.states.items ≡ set self.old.states.items node Open) }
        ensures left { OnOk result (self.new.left.items ≡ self.old.left.items) }
        ensures path { OnOk result (self.new.path.items ≡ self.old.path.items ++ node ∷ []) }
        ensures order { OnOk result (self.new.order.items ≡ self.old.order.items) }
    {
        self.path.push(node)?;
        self.states[node] = State::Open;
        Ok(())
    }

    /// Leaves the node at the end of the path, which is done.
    fn leave(&mut self, node: usize) -> Result<(), AllocError>
        requires { node < length self.old.states.items }
        ensures states { OnOk result (self.new.states.items ≡ set self.old.states.items node Done) }
        ensures left { OnOk result (self.new.left.items ≡ self.old.left.items) }
        ensures path { OnOk result (IsPopped self.old.path.items self.new.path.items node) }
        ensures order { OnOk result (self.new.order.items ≡ self.old.order.items ++ node ∷ []) }
    {
        self.order.push(node)?;
        self.states[node] = State::Done;
        self.path.pop();
        Ok(())
    }
}

/// Where the nodes have an order none of them leads to itself.
pub fn order_is_straight<A: Allocator>(graph: &[Vec<usize, A>], order: &[usize])
    requires nodes { AreNodes graph.now }
    requires order { IsOrder graph.now order.now }
    ensures { IsStraight graph.now }
{}
