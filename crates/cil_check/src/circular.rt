//! Attributes that depend on themselves.

ghost use Rattle.std.specs.Prelude.{◌≢◌, ◌↔◌, [], List, IsTrue, OnOk, IfErr};
ghost use Rattle.cil_check.specs.Common.{Placed, circular, IsFaultOf, IsLeast, IsOf, IsNoted, PolicyFaultIs};
ghost use Rattle.cil_specs.specs.Rule.{sets_of};

use crate::attribute_graph::AttributeNumbers;
use crate::bound::BoundPolicy;
use crate::checker::Checker;
use crate::fault::{PolicyFault, PolicyFaultKind};
use cil_dependence::first_circle;
use cil_parse::StatementKind;
use std::alloc::Allocator;

impl<'p, 'm, A: Allocator> BoundPolicy<'p, 'm, A> {
    /// Whether there is a set statement. Without one no attribute depends on itself, and no graph is needed.
    fn has_sets(&self) -> bool
        requires { (policy : List Placed) × IsOf self.now policy }
        ensures { (policy : List Placed) → IsOf self.now policy → IsTrue result ↔ (sets_of policy ≢ []) }
    {
        for i in 0..self.len() {
            if let StatementKind::TypeAttributeSet = self.kind(i) {
                return true;
            }
        }
        false
    }
}

impl<'p, 'm, A: Allocator + Copy> Checker<'p, 'm, A> {
    /// The first attribute that depends on itself: by module name, and then by offset.
    pub fn check_circles(&self, alloc: A) -> Result<(), PolicyFault<'m>>
        requires { (policy : List Placed) × IsNoted self.now policy }
        ensures ok { OnOk result ((policy : List Placed) → IsNoted self.now policy
            → (fault : _) → IsFaultOf circular policy fault → ⊥) }
        ensures err { IfErr result (λ fault. (policy : List Placed) → IsNoted self.now policy
            → PolicyFaultIs fault (IsLeast (IsFaultOf circular policy))) }
    {
        if !self.bound.has_sets() {
            return Ok(());
        }
        let attributes = AttributeNumbers::of(alloc, &self.bound)?;
        let graph = attributes.graph(alloc, &self.bound)?;
        let Some(number) = first_circle(alloc, &graph)? else {
            return Ok(());
        };
        let seen = self.bound.seen(attributes.places[number]);
        let Some(word) = seen.word(0) else {
            unreachable!("an attribute has a name");
        };
        Err(seen.fault(PolicyFaultKind::Circular, word))
    }
}
