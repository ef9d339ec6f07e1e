//! A set expression: its nodes, and the types and attributes that its names lead to.

ghost use Rattle.std.specs.Prelude.{IsTrue};
ghost use Rattle.cil_expression.specs.Listed.{is_no_list};

use crate::expression::{Element, Expression};
use crate::name_list::{are_of_list, holds_one};
use crate::same::are_same_names;
use cil_parse::SetNode;
use std::alloc::{AllocError, Allocator, Global};
use std::slice::from_ref;

/// How an expression is kept. Most are one name, alone or as the only element of a list: that takes no memory of its own. Most others are
/// a plain list of names, whose nodes follow from how many these are, and aren't kept.
#[derive(Drop)]
pub(crate) enum Form<A: Allocator = Global> {
    Named(Element),
    Listed(Element),
    List(Vec<Element, A>),
    Tree(Box<Expression<Element, A>, A>),
}

/// A set expression whose names lead to types and attributes.
#[derive(Drop)]
pub struct SetExpression<A: Allocator = Global> {
    form: Form<A>,
    ghost no_list: { IsTrue (is_no_list form) },
}

impl<A: Allocator + Copy> SetExpression<A> {
    ghost use Rattle.std.specs.Prelude.{◌≡◌, IfOk};
    ghost use Rattle.cil_specs.specs.Expr.{Expr, leaves};
    ghost use Rattle.cil_expression.specs.Expression.{set_expr_in};
    ghost use Rattle.cil_expression.specs.Spelling.{IsSpelt, nodes_of};

    /// The expression of these nodes, which are copied where it is no plain list, and of what its names lead to.
    pub fn of(alloc: A, nodes: &[SetNode], names: Vec<Element, A>) -> Result<Self, AllocError>
        requires spelt { IsSpelt nodes.now names.items }
        ensures { IfOk result (λ e. (expr : Expr Element) → nodes.now ≡ nodes_of expr
            → names.items ≡ leaves expr → set_expr_in e ≡ expr) }
    {
        if are_of_list(nodes, names.len()) {
            return Ok(SetExpression {
                form: Form::List(names),
            });
        }
        let nodes = Vec::from_slice(alloc, nodes)?;
        let tree = Expression::new(nodes, names);
        let boxed = Box::new(alloc, tree)?;
        Ok(SetExpression {
            form: Form::Tree(boxed),
        })
    }
}

impl<A: Allocator> SetExpression<A> {
    ghost use Rattle.std.specs.Prelude.{◌≡◌, Bool, false, Contains, MatchOption};
    ghost use Rattle.cil_parse.specs.Forms.{is_plain};
    ghost use Rattle.cil_specs.specs.Expr.{Expr, leaves, listed, named, nothing, elements};
    ghost use Rattle.cil_expression.specs.Expression.{set_expr_in};
    ghost use Rattle.cil_expression.specs.Holds.{holds_by, Answers};
    ghost use Rattle.cil_expression.specs.Same.{are_same, AnswersPairs};
    ghost use Rattle.cil_expression.specs.Spelling.{IsSpelt, nodes_of};

    /// The expression of one name. It takes no memory.
    pub fn named(element: Element) -> Self
        ensures { set_expr_in result ≡ named element }
    {
        SetExpression {
            form: Form::Named(element),
        }
    }

    /// The expression of a list whose only element is one name. It takes no memory.
    pub fn listed(element: Element) -> Self
        ensures { set_expr_in result ≡ elements (named element) nothing }
    {
        SetExpression {
            form: Form::Listed(element),
        }
    }

    /// Its nodes, each in front of those of its operands, where it is no plain list.
    fn nodes(&self) -> &[SetNode]
        requires { is_plain (set_expr_in self.now) ≡ false }
        ensures { result.now ≡ nodes_of (set_expr_in self.now) }
    {
        match &self.form {
            Form::Named(_) => &[SetNode::Name],
            Form::Tree(tree) => tree.nodes(),
            Form::Listed(_) | Form::List(_) => unreachable!("it is no plain list"),
        }
    }

    /// Its names, if it is a plain list of names.
    fn as_list(&self) -> Option<&[Element]>
        ensures { MatchOption result (is_plain (set_expr_in self.now) ≡ false)
            (λ names. set_expr_in self.now ≡ listed names.now) }
    {
        match &self.form {
            Form::Listed(element) => Some(from_ref(element)),
            Form::List(names) => Some(names.as_slice()),
            Form::Named(_) | Form::Tree(_) => None,
        }
    }

    /// Whether it is a plain list of names.
    pub fn is_list(&self) -> bool
        ensures { result ≡ is_plain (set_expr_in self.now) }
    {
        self.as_list().is_some()
    }

    /// What its names lead to, in their order.
    pub fn names(&self) -> &[Element]
        ensures { result.now ≡ leaves (set_expr_in self.now) }
    {
        match &self.form {
            Form::Named(element) | Form::Listed(element) => from_ref(element),
            Form::List(names) => names.as_slice(),
            Form::Tree(tree) => tree.names(),
        }
    }

    /// Whether it holds something, where known answers whether each of its names does. It takes no memory.
    pub fn holds<F: Fn(Element) -> bool>(&self, known: F) -> bool
        requires callable { F.IsAlwaysCallable known }
        ensures { (value : Element → Bool)
            → Answers (F.post known) (λ e. Contains (leaves (set_expr_in self.now)) e) value
            → result ≡ holds_by value (set_expr_in self.now) }
    {
        match &self.form {
            Form::Named(element) | Form::Listed(element) => known(*element),
            Form::List(names) => holds_one(names.as_slice(), &known),
            Form::Tree(tree) => tree.holds(known),
        }
    }

    /// Whether it holds what none of its names does. Where it does not, it holds only what one of them holds.
    pub fn may_hold_any(&self) -> bool
        ensures { result ≡ holds_by (λ e. false) (set_expr_in self.now) }
    {
        self.holds(|_| false)
    }

    /// Whether another expression has the same nodes, and names that are the same as its own in pairs, as same answers.
    #[inline(always)]
    pub fn is_same<F: Fn(Element, Element) -> bool>(
        &self,
        other: &SetExpression<A>,
        same: F,
    ) -> bool
        requires callable { F.IsAlwaysCallable same }
        ensures { (pairs : Element → Element → Bool)
            → AnswersPairs (F.post same) (leaves (set_expr_in self.now)) (leaves (set_expr_in other.now)) pairs
            → result ≡ are_same pairs (set_expr_in self.now) (set_expr_in other.now) }
    {
        match (&self.form, &other.form) {
            (Form::Named(a), Form::Named(b)) => same(*a, *b),
            (Form::Listed(a), Form::Listed(b)) => same(*a, *b),
            _ => self.is_same_tree(other, same),
        }
    }

    /// The same, by its nodes where it is no plain list. Few expressions are more than one name.
    #[inline(never)]
    fn is_same_tree<F: Fn(Element, Element) -> bool>(
        &self,
        other: &SetExpression<A>,
        same: F,
    ) -> bool
        requires callable { F.IsAlwaysCallable same }
        ensures { (pairs : Element → Element → Bool)
            → AnswersPairs (F.post same) (leaves (set_expr_in self.now)) (leaves (set_expr_in other.now)) pairs
            → result ≡ are_same pairs (set_expr_in self.now) (set_expr_in other.now) }
    {
        match (self.as_list(), other.as_list()) {
            (Some(names), Some(others)) => are_same_names(names, others, &same),
            (None, None) => {
                let nodes = self.nodes() == other.nodes();
                nodes && are_same_names(self.names(), other.names(), &same)
            }
            (Some(_), None) => false,
            (None, Some(_)) => false,
        }
    }
}
