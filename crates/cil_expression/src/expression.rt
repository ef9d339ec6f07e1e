//! An expression by nodes, and what its names lead to.

ghost use Rattle.cil_expression.specs.Spelling.{IsWhole};

use crate::evaluation::{Rest, next_value};
use crate::same::are_same_names;
use cil_parse::SetNode;
use std::alloc::{Allocator, Global};

/// What a name of a rule or of a set expression leads to, an alias to its type, by the place of its full name in a list
/// of names.
#[derive(Clone, Copy, Debug, PartialEq, Eq)]
pub enum Element {
    Type(u32),
    Attribute(u32),
}

/// The nodes of an expression, each in front of those of its operands, and what its names lead to, in their order.
#[derive(Drop)]
pub struct Expression<T: Copy, A: Allocator = Global> {
    nodes: Vec<SetNode, A>,
    names: Vec<T, A>,
    ghost spelt: { IsWhole nodes.items names.items },
}

impl<T: Copy, A: Allocator> Expression<T, A> {
    ghost use Rattle.std.specs.Prelude.{◌≡◌, Bool, Contains};
    ghost use Rattle.cil_specs.specs.Expr.{Expr, leaves};
    ghost use Rattle.cil_expression.specs.Expression.{expr_in};
    ghost use Rattle.cil_expression.specs.Holds.{holds_by, Answers};
    ghost use Rattle.cil_expression.specs.Same.{are_same, AnswersPairs};
    ghost use Rattle.cil_expression.specs.Spelling.{IsSpelt, nodes_of};

    /// The expression of these nodes and of what its names lead to.
    pub fn new(nodes: Vec<SetNode, A>, names: Vec<T, A>) -> Self
        requires spelt { IsSpelt nodes.items names.items }
        ensures { (expr : Expr T) → nodes.items ≡ nodes_of expr → names.items ≡ leaves expr
            → expr_in result ≡ expr }
    {
        Expression { nodes, names }
    }

    /// Its nodes, each in front of those of its operands.
    pub(crate) fn nodes(&self) -> &[SetNode]
        ensures { result.now ≡ nodes_of (expr_in self.now) }
    {
        self.nodes.as_slice()
    }

    /// What its names lead to, in their order.
    pub fn names(&self) -> &[T]
        ensures { result.now ≡ leaves (expr_in self.now) }
    {
        self.names.as_slice()
    }

    /// Whether it holds something, where known answers whether each of its names does. It takes no memory.
    pub fn holds<F: Fn(T) -> bool>(&self, known: F) -> bool
        requires callable { F.IsAlwaysCallable known }
        ensures { (value : T → Bool)
            → Answers (F.post known) (λ e. Contains (leaves (expr_in self.now)) e) value
            → result ≡ holds_by value (expr_in self.now) }
    {
        let nodes = self.nodes();
        let names = self.names();
        let (holds, _) = next_value(Rest { nodes, names }, &known);
        holds
    }

    /// Whether another expression has the same nodes, and names that are the same as its own in pairs, as same answers.
    pub fn is_same<F: Fn(T, T) -> bool>(&self, other: &Expression<T, A>, same: F) -> bool
        requires callable { F.IsAlwaysCallable same }
        ensures { (pairs : T → T → Bool)
            → AnswersPairs (F.post same) (leaves (expr_in self.now)) (leaves (expr_in other.now)) pairs
            → result ≡ are_same pairs (expr_in self.now) (expr_in other.now) }
    {
        let nodes = self.nodes() == other.nodes();
        nodes && are_same_names(self.names(), other.names(), &same)
    }
}
