//! The attributes of a policy by numbers, and which of them set statements mention.

ghost use Rattle.std.specs.Prelude.{◌≡◌, ◌<◌, ◌⊎◌, ◌↔◌, ℕ, List, Some, length, slice_get, IfOk, OnOk};
ghost use Rattle.cil_check.specs.Common.{Word, Placed, types, references, kind_of, IsOf};
ghost use Rattle.cil_bind.specs.Binding.{AreLeads};
ghost use Rattle.cil_parse.specs.declared.row.StatementKind.TheVariants.{TypeAttributeSet};
ghost use Rattle.cil_dependence.specs.Graph.{IsEdge};
ghost use Rattle.cil_check.specs.AttributeGraph.{attribute_count, number_led, AreAttributesOf, Mentions, IsGraphOf};

use crate::bound::BoundPolicy;
use crate::kinds::Kind;
use cil_bind::References;
use cil_dependence::{add_edge, without_edges};
use cil_parse::StatementKind;
use std::alloc::{AllocError, Allocator, Global};

/// The attributes of a policy by numbers, in the order of the statements that declare them.
#[derive(Drop)]
pub struct AttributeNumbers<A: Allocator = Global> {
    /// For each statement, how many attributes those in front of it declare.
    pub numbers: Vec<usize, A>,
    /// For each attribute, the place of its statement.
    pub places: Vec<usize, A>,
}

impl<A: Allocator + Copy> AttributeNumbers<A> {
    /// The attributes of a policy.
    #[inline(never)]
    pub fn of(alloc: A, bound: &BoundPolicy<'_, '_, A>) -> Result<Self, AllocError>
        requires { (policy : List Placed) × IsOf bound.now policy }
        ensures { IfOk result (λ attributes. (policy : List Placed) → IsOf bound.now policy
            → AreAttributesOf attributes policy) }
    {
        let mut numbers = Vec::with_capacity(alloc, bound.len())?;
        let mut places = Vec::new(alloc);
        for i in 0..bound.len() {
            numbers.push(places.len())?;
            if Kind::Attribute.is(bound.kind(i)) {
                places.push(i)?;
            }
        }
        Ok(AttributeNumbers { numbers, places })
    }
}

impl<A: Allocator> AttributeNumbers<A> {
    /// How many attributes are declared in front of a place.
    fn number_at(&self, place: u32) -> Option<usize>
        ensures { result ≡ slice_get self.now.numbers.items place }
    {
        self.numbers.get(place as usize).copied()
    }

    /// The number of the attribute that a reference leads to, if it leads to one.
    fn led(&self, bound: &BoundPolicy<'_, '_, A>, cited: &References<'_>, k: usize) -> Option<usize>
        requires { (policy : List Placed) × IsOf bound.now policy }
        ensures { (policy : List Placed) (s : Placed) (word : Word) → IsOf bound.now policy
            → AreAttributesOf self.now policy
            → AreLeads policy s.namespace (references s.form) cited.now
            → slice_get (references s.form) k ≡ Some (types, word)
            → result ≡ number_led policy s.namespace word }
    {
        let place = cited.place(k)?;
        if bound.is(place, Kind::Attribute) {
            self.number_at(place)
        } else {
            None
        }
    }

    /// Puts in an edge for each attribute that the set statement of a place mentions.
    fn add_set(
        &self,
        bound: &BoundPolicy<'_, '_, A>,
        i: usize,
        graph: &mut Vec<Vec<usize, A>, A>,
    ) -> Result<(), AllocError>
        requires { (policy : List Placed) × (s : Placed) × IsOf bound.now policy
            × AreAttributesOf self.now policy × (slice_get policy i ≡ Some s)
            × (kind_of s.form ≡ TypeAttributeSet)
            × (length graph.old.items ≡ attribute_count policy) }
        ensures nodes { OnOk result (length graph.new.items ≡ length graph.old.items) }
        ensures edges { OnOk result ((policy : List Placed) (s : Placed) → IsOf bound.now policy
            → AreAttributesOf self.now policy → slice_get policy i ≡ Some s
            → kind_of s.form ≡ TypeAttributeSet → (a b : ℕ)
            → IsEdge graph.new.items a b ↔ (IsEdge graph.old.items a b ⊎ Mentions policy s a b)) }
    {
        let cited = bound.references(i);
        let Some(from) = self.led(bound, &cited, 0) else {
            return Ok(());
        };
        for k in 1..cited.len() {
            if let Some(to) = self.led(bound, &cited, k) {
                add_edge(graph, from, to)?;
            }
        }
        Ok(())
    }
}

impl<A: Allocator + Copy> AttributeNumbers<A> {
    /// The graph of the attributes: an edge leads from each to those that its set statements mention.
    #[inline(never)]
    pub fn graph(
        &self,
        alloc: A,
        bound: &BoundPolicy<'_, '_, A>,
    ) -> Result<Vec<Vec<usize, A>, A>, AllocError>
        requires { (policy : List Placed) × IsOf bound.now policy × AreAttributesOf self.now policy }
        ensures { IfOk result (λ graph. (policy : List Placed) → IsOf bound.now policy
            → AreAttributesOf self.now policy → IsGraphOf policy graph.items) }
    {
        let mut graph = without_edges(alloc, self.places.len())?;
        let kinds = bound.kinds();
        for i in 0..kinds.len() {
            if let StatementKind::TypeAttributeSet = kinds[i] {
                self.add_set(bound, i, &mut graph)?;
            }
        }
        Ok(graph)
    }
}
