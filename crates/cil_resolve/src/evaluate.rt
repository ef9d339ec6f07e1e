//! Evaluation of set statements at types.

ghost use Rattle.std.specs.Prelude.{◌≡◌, ◌<◌, ◌+◌, ◌-◌, ◌^◌, IfSome, false, min, map, length, slice_get, Some, None, IsTrue, [], option_map};
ghost use Rattle.cil_resolve.specs.Common.{list_all, leaves, SetStatement, keeps_type, is_in, holds_by, is_element_below, evaluations_in, adjustments_in, element_of, meaning_in, name_in, sets_in, IsAnswer, TellsMembers};

use crate::meter::Meter;
use crate::resolved::Resolved;
use cil_expression::Element;
use std::alloc::Allocator;

impl<A: Allocator> Resolved<A> {
    /// How many set statements there are. They are listed in the order of their dependence: each stands behind those of the attributes
    /// that it mentions, and those of one attribute stand together.
    pub fn sets_len(&self) -> usize
        ensures { result ≡ length (sets_in self.now) }
    {
        self.sets.len()
    }

    /// The number of the name of the attribute of the set statement at a place.
    pub fn set_attribute(&self, i: usize) -> Option<usize>
        ensures name { option_map (name_in self.now) result ≡ option_map (λ s. s.attribute) (slice_get (sets_in self.now) i) }
        ensures below { IfSome result (λ n. n < length self.now.names.items) }
    {
        let set = self.sets.at(i)?;
        Some(set.attribute)
    }

    /// What the expression of the set statement at a place names, by the numbers of the names; none where there is no such statement.
    pub fn set_names(&self, i: usize) -> &[Element]
        ensures names { (s : SetStatement) → slice_get (sets_in self.now) i ≡ Some s → map (element_of self.now.names.items) result.now ≡ leaves s.expr }
        ensures below { IsTrue (list_all (is_element_below (length self.now.names.items)) result.now) }
        ensures none { slice_get (sets_in self.now) i ≡ None → result.now ≡ [] }
    {
        match self.sets.at(i) {
            Some(set) => set.expression.names(),
            None => &[],
        }
    }

    /// Whether the set statement at a place may hold a type that it doesn't name and that no attribute that it mentions has as a member.
    /// It is a bound: where the answer is no, no such type is in its expression. No is the answer where there is no such statement.
    pub fn may_hold_any(&self, i: usize) -> bool
        ensures value { (s : SetStatement) → slice_get (sets_in self.now) i ≡ Some s → result ≡ holds_by (λ element. false) s.expr }
        ensures none { slice_get (sets_in self.now) i ≡ None → result ≡ false }
    {
        match self.sets.at(i) {
            Some(set) => set.expression.may_hold_any(),
            None => false,
        }
    }

    /// Whether the expression of the set statement at a place holds a kept type, where known answers which attributes that it mentions
    /// do; all by the numbers of their names. It is counted as one evaluation. No is the answer where there is no such statement.
    pub fn evaluate<F: Fn(usize) -> bool>(
        &self,
        i: usize,
        ty: usize,
        known: F,
        meter: &mut Meter,
    ) -> bool
        requires callable { F.IsAlwaysCallable known }
        ensures value { (s : SetStatement) → slice_get (sets_in self.now) i ≡ Some s → ty < length self.now.names.items
            → IsTrue (keeps_type (meaning_in self.now) (name_in self.now ty)) → TellsMembers self.now (F.post known) s ty
            → result ≡ is_in (meaning_in self.now) s.expr (name_in self.now ty) }
        ensures none { slice_get (sets_in self.now) i ≡ None → result ≡ false }
        ensures evaluations { evaluations_in meter.new ≡ min (evaluations_in meter.old + 1) (2 ^ 128 - 1) }
        ensures adjustments { adjustments_in meter.new ≡ adjustments_in meter.old }
    {
        meter.evaluated();
        match self.sets.at(i) {
            Some(set) => set.expression.holds(
                |element|
                    requires { F.IsAlwaysCallable known }
                    ensures { IsAnswer (F.post known) ty element result }
                {
                    match element {
                        Element::Type(named) => named as usize == ty,
                        Element::Attribute(attribute) => known(attribute as usize),
                    }
                },
            ),
            None => false,
        }
    }
}
