//! Permission sets that permit what they did.

ghost use Rattle.std.specs.Prelude.{◌≡◌, ◌≢◌, ℕ, true, length, Some, IfOk, OnOk};
ghost use Rattle.cil_table_updates.specs.Common.{answer_at, AreAlike, AreMatchedAlike, AreStaying, IsReady, IsRuleOf, PermitsAlike};

use crate::moves::PolicyRule;
use crate::policy::Policy;
use crate::same_permits::same_permits;
use cil_matching::RuleMatching;
use cil_resolve::{Resolved, ResolvedPermissions};
use std::alloc::{AllocError, Allocator, Global};
use std::marker::Model;

/// For the number of each name of a new policy, if it is that of a permission set that rules of both
/// policies name, whether the set permits what it did in the old one. So the permits of a set are
/// compared once, however many rules name it.
#[derive(Drop)]
pub struct StayingSets<A: Allocator = Global> {
    answers: Vec<Option<bool>, A>,
}

impl<A: Allocator> Model for StayingSets<A> {
    ghost use Rattle.std.specs.Prelude.{Bool, List, Option};

    ghost Value = { List (Option Bool) };

    ghost view = { λ s. s.answers.items };
}

/// Whether no permission set of a policy gives anything: then there is little to learn, and no rule is gone over for it.
fn gives_no_set<A: Allocator>(resolved: &Resolved<A>) -> bool {
    resolved.permission_sets_len() == 0
}

/// Whether nothing is known of a set that has a place.
fn is_open(answers: &[Option<bool>], set: usize) -> bool {
    match answers.get(set) {
        Some(answer) => answer.is_none(),
        None => false,
    }
}

/// Keeps an answer, where the set has a place.
fn keep(answers: &mut [Option<bool>], set: usize, same: bool)
    ensures len { length answers.new ≡ length answers.old }
    ensures here { answer_at answers.new set ≡ Some true → same ≡ true }
    ensures others { (n : ℕ) → n ≢ set → answer_at answers.new n ≡ answer_at answers.old n }
{
    if set < answers.len() {
        answers[set] = Some(same);
    }
}

/// Learns of the permission set of a rule that both policies have, where it is a rule of one.
fn learn<A: Allocator + Copy>(
    answers: &mut [Option<bool>],
    alloc: A,
    old: &PolicyRule<'_, A>,
    new: &PolicyRule<'_, A>,
) -> Result<(), AllocError>
    requires old_below { IsRuleOf old.now.policy.now old.now.rule.now }
    requires new_below { IsRuleOf new.now.policy.now new.now.rule.now }
    requires old_alike { PermitsAlike old.now.policy.now }
    requires new_alike { PermitsAlike new.now.policy.now }
    requires alike { AreAlike old.now new.now }
    requires staying { AreStaying old.now.policy.now new.now.policy.now answers.old }
    ensures len { length answers.new ≡ length answers.old }
    ensures staying { OnOk result
        (AreStaying old.now.policy.now new.now.policy.now answers.new) }
{
    match &new.rule.permissions {
        ResolvedPermissions::OfClass(_) => {}
        ResolvedPermissions::OfSet(of) => {
            if is_open(answers, of.set) {
                let same = same_permits(alloc, old, new)?;
                keep(answers, of.set, same);
            }
        }
    }
    Ok(())
}

impl<A: Allocator + Copy> StayingSets<A> {
    /// What the permission sets do that rules of both policies name.
    pub fn of(
        alloc: A,
        old: &Policy<'_, A>,
        new: &Policy<'_, A>,
        matching: &RuleMatching<A>,
    ) -> Result<Self, AllocError>
        requires old_ready { IsReady old.now }
        requires new_ready { IsReady new.now }
        requires old_alike { PermitsAlike old.now }
        requires new_alike { PermitsAlike new.now }
        requires matched { AreMatchedAlike old.now new.now matching.now }
        ensures { IfOk result (AreStaying old.now new.now) }
    {
        let mut answers = vec![in alloc; None; new.resolved.names_len()]?;
        if gives_no_set(old.resolved) || gives_no_set(new.resolved) {
            return Ok(StayingSets { answers });
        }
        for j in 0..new.resolved.rules().len() {
            if let Some(i) = matching.old_place(j) {
                let was = PolicyRule {
                    policy: &*old,
                    rule: &old.resolved.rules()[i],
                };
                let is = PolicyRule {
                    policy: &*new,
                    rule: &new.resolved.rules()[j],
                };
                learn(&mut answers, alloc, &was, &is)?;
            }
        }
        Ok(StayingSets { answers })
    }
}

impl<A: Allocator> StayingSets<A> {
    /// Whether the permission set of a number permits what it did. No is the answer where it may
    /// permit something else.
    pub fn stays(&self, set: usize) -> bool
        ensures { result ≡ true → answer_at self.now set ≡ Some true }
    {
        match self.answers.get(set) {
            Some(answer) => *answer == Some(true),
            None => false,
        }
    }
}
