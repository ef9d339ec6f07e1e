//! The names of a policy, shared.

ghost use Rattle.std.specs.Prelude.{◌≡◌, [], IfOk};
ghost use Rattle.cil_rules.specs.Common.{rc_value};

use cil_resolve::{Resolved, Text};
use std::alloc::{AllocError, Allocator, Global};
use std::marker::Model;
use std::rc::Rc;

/// The names that accesses are numbered by: those of a policy, which it shares with others and
/// doesn't copy, or none. Contracts see it as the list of the names.
#[derive(Drop)]
pub struct NameList<A: Allocator = Global> {
    policy: Option<Rc<Resolved<A>, A>>,
}

impl<A: Allocator> Model for NameList<A> {
    ghost use Rattle.std.specs.Prelude.{List, ℕ, [], option_map, unwrap_or};
    ghost use Rattle.std.specs.Rc.{rc_value};

    ghost Value = { List (List ℕ) };

    ghost use Rattle.cil_rules.specs.NameList.{names_of};

    ghost view = { λ l. unwrap_or (option_map (λ p. names_of (rc_value p)) l.policy) [] };
}

impl<A: Allocator> NameList<A> {
    /// No names.
    pub fn empty() -> Self
        ensures { result ≡ [] }
    {
        NameList { policy: None }
    }

    /// The names of a policy, in the order of their numbers. Out of memory stands where no more owners of the policy can be counted.
    pub fn of_policy(policy: &Rc<Resolved<A>, A>) -> Result<Self, AllocError>
        ensures { IfOk result (λ l. l ≡ (rc_value policy.now).names.items) }
    {
        Ok(NameList {
            policy: Some(policy.clone()?),
        })
    }

    /// The same names for one more owner. Out of memory stands where no more owners can be counted.
    pub fn shared(&self) -> Result<Self, AllocError>
        ensures { IfOk result (λ l. l ≡ self.now) }
    {
        match &self.policy {
            Some(policy) => NameList::of_policy(policy),
            None => Ok(NameList::empty()),
        }
    }

    pub fn as_slice(&self) -> &[Text<A>]
        ensures { result.now ≡ self.now }
    {
        match &self.policy {
            Some(policy) => policy.names(),
            None => &[],
        }
    }
}
