//! Rules by the numbers of their names.

ghost use Rattle.std.specs.Prelude.{◌≡◌, ◌==◌, ◌∷◌, [], length, List, Some, slice_get, IfOk, IsTrue, OnOk};
ghost use Rattle.cil_specs.specs.Statements.{ClassPermissions, Target, rule};
ghost use Rattle.cil_specs.specs.Statements as spec;
ghost use Rattle.cil_resolve.specs.Common.{Word, Placed, AddsRule, AreRules, IsIn, AddsRuleAt, IsLowering, IsRule, IsRuleAt, IsRuleOfClass, IsRuleOfSet, IsRuleStart, KnowNumbers, KnowSets, SeenAt, StandsAt, StayKnown, modules_of, rule_if, rule_with};

use crate::given_sets::GivenSets;
use crate::known_permissions::KnownPermissions;
use crate::lowering::Lowering;
use crate::numbered::{NumberedRule, ResolvedPermissions, ResolvedTarget};
use cil_check::Seen;
use cil_expression::Element;
use cil_parse::StatementKind;
use cil_text::{Place, RuleKind};
use std::alloc::{AllocError, Allocator};

/// What is kept of a rule but for its permissions, and which of its references leads to their class or to their permission set.
#[derive(Drop)]
pub struct RuleStart {
    pub module: u32,
    pub at: Place,
    pub kind: RuleKind,
    pub source: Element,
    pub target: ResolvedTarget,
    pub reference: usize,
}

impl RuleStart {
    /// The rule with its permissions.
    fn with<A: Allocator>(self, permissions: ResolvedPermissions<A>) -> NumberedRule<A>
        ensures { result ≡ rule_with self permissions }
    {
        NumberedRule {
            module: self.module,
            at: self.at,
            kind: self.kind,
            source: self.source,
            target: self.target,
            permissions,
        }
    }
}

impl<'l, 'p, 'm, A: Allocator + Copy> Lowering<'l, 'p, 'm, A> {
    /// The rule of a place but for its permissions.
    #[inline(always)]
    fn rule_start(&self, seen: &Seen<'p, 'm, A>, i: usize) -> RuleStart
        requires { SeenAt self.now seen.now i IsRule }
        ensures { (policy : List Placed) (s : Placed) (kind : spec.RuleKind) (source : Word) (target : Target) (permissions : ClassPermissions)
            → IsIn self.now seen.now policy s → slice_get policy i ≡ Some s → s.form ≡ rule kind source target permissions
            → IsRuleStart (modules_of self.now.checker.now.bound.joined.now) self.now.numbering.now.names.items
            policy s kind source target permissions result }
    {
        let (kind, target, reference) = match self.checker.bound.kind(i) {
            StatementKind::Rule(kind) | StatementKind::RuleOfSet(kind) => {
                (kind, ResolvedTarget::Element(self.element(seen, 1)), 2)
            }
            StatementKind::RuleToSelf(kind) | StatementKind::RuleToSelfOfSet(kind) => {
                (kind, ResolvedTarget::Itself, 1)
            }
            _ => unreachable!("the statement is a rule"),
        };
        RuleStart {
            module: self.module(i),
            at: seen.view.at,
            kind,
            source: self.element(seen, 0),
            target,
            reference,
        }
    }

    /// The rule of a place, which gives permissions of a class.
    pub(crate) fn rule_of_class(
        &self,
        known: &mut KnownPermissions<A>,
        i: usize,
    ) -> Result<NumberedRule<A>, AllocError>
        requires { StandsAt self.now i IsRuleOfClass }
        ensures rule { IfOk result (IsRuleAt self.now known.old i) }
        ensures known { OnOk result (StayKnown self.now known.old known.new) }
    {
        let seen = self.seen(i);
        let start = self.rule_start(&seen, i);
        let permissions = self.statement_permissions(known, &seen, i, start.reference)?;
        Ok(start.with(ResolvedPermissions::OfClass(permissions)))
    }

    /// The same of a rule that is seen, and whose permissions are a plain list.
    #[inline(always)]
    fn plain_rule(
        &self,
        known: &mut KnownPermissions<A>,
        seen: &Seen<'p, 'm, A>,
        i: usize,
    ) -> Result<NumberedRule<A>, AllocError>
        requires is { SeenAt self.now seen.now i IsRuleOfClass }
        requires plain { IsTrue (length seen.now.view.nodes.now == 0) }
        ensures rule { IfOk result (λ rule. (policy : List Placed) (s : Placed) → IsIn self.now seen.now policy s
            → slice_get policy i ≡ Some s → IsRuleOfClass s.form → KnowNumbers self.now known.old policy
            → AreRules (modules_of self.now.checker.now.bound.joined.now) self.now.numbering.now.names.items
            policy (rule ∷ []) (rule_if policy s)) }
        ensures known { OnOk result (StayKnown self.now known.old known.new) }
    {
        let start = self.rule_start(seen, i);
        let permissions = self.plain_permissions(known, seen, i, start.reference)?;
        Ok(start.with(ResolvedPermissions::OfClass(permissions)))
    }

    /// The rule of a place, which gives what a permission set gives.
    pub(crate) fn rule_of_set(
        &self,
        given: &GivenSets<A>,
        i: usize,
    ) -> Result<NumberedRule<A>, AllocError>
        requires { StandsAt self.now i IsRuleOfSet }
        ensures { IfOk result (λ rule. (policy : List Placed) (s : Placed) → IsLowering self.now policy
            → slice_get policy i ≡ Some s → IsRuleOfSet s.form → KnowSets self.now given.now policy
            → AreRules (modules_of self.now.checker.now.bound.joined.now) self.now.numbering.now.names.items
            policy (rule ∷ []) (rule_if policy s)) }
    {
        let seen = self.seen(i);
        let start = self.rule_start(&seen, i);
        let permissions = given.find(self.number(&seen, start.reference))?;
        Ok(start.with(ResolvedPermissions::OfSet(permissions)))
    }

    /// Puts the rule of a place, which gives permissions of a class, behind others. Most have a plain list of permissions, which takes
    /// the least code.
    #[inline(always)]
    pub(crate) fn add_rule_of_class(
        &self,
        known: &mut KnownPermissions<A>,
        rules: &mut Vec<NumberedRule<A>, A>,
        i: usize,
    ) -> Result<(), AllocError>
        requires { StandsAt self.now i IsRuleOfClass }
        ensures rule { OnOk result (AddsRuleAt self.now known.old i rules.old.items rules.new.items) }
        ensures known { OnOk result (StayKnown self.now known.old known.new) }
    {
        let seen = self.seen(i);
        if !seen.view.nodes.is_empty() {
            return self.add_any_rule_of_class(known, rules, i);
        }
        let rule = self.plain_rule(known, &seen, i)?;
        rules.push(rule)?;
        Ok(())
    }

    /// The same, whatever its permissions.
    #[inline(never)]
    fn add_any_rule_of_class(
        &self,
        known: &mut KnownPermissions<A>,
        rules: &mut Vec<NumberedRule<A>, A>,
        i: usize,
    ) -> Result<(), AllocError>
        requires { StandsAt self.now i IsRuleOfClass }
        ensures rule { OnOk result (AddsRuleAt self.now known.old i rules.old.items rules.new.items) }
        ensures known { OnOk result (StayKnown self.now known.old known.new) }
    {
        let rule = self.rule_of_class(known, i)?;
        rules.push(rule)?;
        Ok(())
    }

    /// Puts the rule of a place, which gives what a permission set gives, behind others.
    #[inline(never)]
    pub(crate) fn add_rule_of_set(
        &self,
        given: &GivenSets<A>,
        rules: &mut Vec<NumberedRule<A>, A>,
        i: usize,
    ) -> Result<(), AllocError>
        requires { StandsAt self.now i IsRuleOfSet }
        ensures { OnOk result ((policy : List Placed) (s : Placed) → IsLowering self.now policy
            → slice_get policy i ≡ Some s → IsRuleOfSet s.form → KnowSets self.now given.now policy
            → AddsRule (modules_of self.now.checker.now.bound.joined.now) self.now.numbering.now.names.items
            policy s rules.old.items rules.new.items) }
    {
        let rule = self.rule_of_set(given, i)?;
        rules.push(rule)?;
        Ok(())
    }
}
