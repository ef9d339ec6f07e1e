//! Set statements by the numbers of their names.

ghost use Rattle.std.specs.Prelude.{◌≡◌, ◌∷◌, [], List, Some, map, slice_get, IfOk, IfSome, OnOk};
ghost use Rattle.cil_resolve.specs.Common.{Word, WordExpr, leaves, map_leaves, attribute_set, Placed, types, leads, IsIn, AreElements, IsSet, IsExpression, IsSeenExpression, SeenAt, SeesSet, StandsAt, AddsSetAt, AreSets, modules_of, set_if, number_in};
ghost use Rattle.cil_specs.specs.Rule.{element_of as element_led, name_or_none};

use crate::lowering::Lowering;
use crate::numbered::NumberedSet;
use crate::one_name::{is_list_of_name, is_name};
use cil_check::Seen;
use cil_expression::{Element, SetExpression};
use std::alloc::{AllocError, Allocator};

impl<'l, 'p, 'm, A: Allocator + Copy> Lowering<'l, 'p, 'm, A> {
    /// The number of the attribute of a set statement.
    fn attribute(&self, seen: &Seen<'p, 'm, A>) -> usize
        requires { SeesSet self.now seen.now }
        ensures { (policy : List Placed) (s : Placed) (attribute : Word) (expr : WordExpr) → IsIn self.now seen.now policy s → s.form ≡ attribute_set attribute expr
            → number_in self.now.numbering.now.names.items (name_or_none types (leads policy types s.namespace attribute.text)) ≡ Some result }
    {
        self.numbering.places[self.place(seen, 0)] as usize
    }

    /// What the names of the expression of a set statement stand for, in their order.
    fn set_elements(&self, seen: &Seen<'p, 'm, A>) -> Result<Vec<Element, A>, AllocError>
        requires { SeesSet self.now seen.now }
        ensures { IfOk result (λ elements. (policy : List Placed) (s : Placed) (attribute : Word) (expr : WordExpr) → IsIn self.now seen.now policy s → s.form ≡ attribute_set attribute expr
            → AreElements self.now.numbering.now.names.items elements.items (map (element_led policy s.namespace) (leaves expr))) }
    {
        let count = seen.view.words.len().saturating_sub(1);
        let mut elements = Vec::with_capacity(self.alloc, count)?;
        for k in 0..count {
            elements.push(self.element(seen, k + 1))?;
        }
        Ok(elements)
    }

    /// The expression of a set statement, if it is one name, alone or as the only element of a list: it takes no memory.
    #[inline(always)]
    fn short_expression(&self, seen: &Seen<'p, 'm, A>) -> Option<SetExpression<A>>
        requires { SeesSet self.now seen.now }
        ensures { IfSome result (IsSeenExpression self.now seen.now) }
    {
        if is_name(seen.view.nodes) {
            return Some(SetExpression::named(self.element(seen, 1)));
        }
        if is_list_of_name(seen.view.nodes) {
            return Some(SetExpression::listed(self.element(seen, 1)));
        }
        None
    }

    /// The expression of a set statement.
    fn set_expression(&self, seen: &Seen<'p, 'm, A>) -> Result<SetExpression<A>, AllocError>
        requires { SeesSet self.now seen.now }
        ensures { IfOk result (IsSeenExpression self.now seen.now) }
    {
        let names = self.set_elements(seen)?;
        let expression = SetExpression::of(self.alloc, seen.view.nodes, names)?;
        Ok(expression)
    }

    /// The set statement of a place, with its expression.
    #[inline(always)]
    fn set_with(
        &self,
        seen: &Seen<'p, 'm, A>,
        i: usize,
        expression: SetExpression<A>,
    ) -> NumberedSet<A>
        requires { SeenAt self.now seen.now i IsSet }
        ensures { (policy : List Placed) (s : Placed) (attribute : Word) (expr : WordExpr)
            → IsIn self.now seen.now policy s → slice_get policy i ≡ Some s → s.form ≡ attribute_set attribute expr
            → IsExpression self.now.numbering.now.names.items expression (map_leaves (element_led policy s.namespace) expr)
            → AreSets (modules_of self.now.checker.now.bound.joined.now) self.now.numbering.now.names.items
            (result ∷ []) (set_if policy s) }
    {
        NumberedSet {
            module: self.module(i),
            at: seen.view.at,
            attribute: self.attribute(seen),
            expression,
        }
    }

    /// Puts the set statement of a place behind others. Most have a short expression, which takes the least code.
    #[inline(always)]
    pub(crate) fn add_set(
        &self,
        sets: &mut Vec<NumberedSet<A>, A>,
        i: usize,
    ) -> Result<(), AllocError>
        requires { StandsAt self.now i IsSet }
        ensures { OnOk result (AddsSetAt self.now i sets.old.items sets.new.items) }
    {
        let seen = self.seen(i);
        let Some(expression) = self.short_expression(&seen) else {
            return self.add_any_set(sets, i);
        };
        sets.push(self.set_with(&seen, i, expression))?;
        Ok(())
    }

    /// The same, whatever its expression.
    #[inline(never)]
    fn add_any_set(&self, sets: &mut Vec<NumberedSet<A>, A>, i: usize) -> Result<(), AllocError>
        requires { StandsAt self.now i IsSet }
        ensures { OnOk result (AddsSetAt self.now i sets.old.items sets.new.items) }
    {
        let seen = self.seen(i);
        let expression = self.set_expression(&seen)?;
        sets.push(self.set_with(&seen, i, expression))?;
        Ok(())
    }
}
