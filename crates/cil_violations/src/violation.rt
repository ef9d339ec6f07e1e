//! Violations by full names.

ghost use Rattle.std.specs.Prelude.{◌≡◌, ◌==◌, length, slice_get, option_map};
ghost use Rattle.cil_violations.specs.Common.{meaning_in, violation_by, AreLists, IsRow, violation_seen, violation_head};

use crate::line::rule_at;
use crate::permissions::{given_at, is_among, of_class};
use crate::row::RowNumbers;
use cil_parse::Lists;
use cil_resolve::{ClassPermission, Resolved, RuleView};
use std::alloc::{Allocator, Global};
use std::marker::Model;

/// The permissions of a class that two rules share, in order and each once. Contracts see them as the list of their names.
#[derive(Drop)]
pub struct Permissions<'v, A: Allocator = Global> {
    resolved: &'v Resolved<A>,
    never: &'v [ClassPermission],
    allowed: &'v [ClassPermission],
}

impl<'v, A: Allocator> Model for Permissions<'v, A> {
    ghost use Rattle.std.specs.Prelude.{List, ℕ, map};

    ghost Value = { List (List ℕ) };

    ghost use Rattle.cil_resolve.specs.Sets.{name_in};
    ghost use Rattle.cil_resolve.specs.SetPermissions.{AreInOrder};
    ghost use Rattle.cil_violations.specs.Permissions.{shared};

    ghost view = { λ p. map (λ g. name_in p.resolved.now g.permission) (shared p.never.now p.allowed.now) };

    ghost invariant = { λ p. AreInOrder p.allowed.now };
}

impl<'v, A: Allocator> Permissions<'v, A> {
    /// How many there are. It goes along them.
    pub fn len(&self) -> usize
        ensures { result ≡ length self.now }
    {
        let mut count = 0;
        for permission in self.never {
            if is_among(*permission, self.allowed) {
                count += 1;
            }
        }
        count
    }

    pub fn is_empty(&self) -> bool
        ensures { result ≡ (length self.now == 0) }
    {
        self.len() == 0
    }

    /// The permission at a place of the order. It goes along those before it.
    pub fn get(&self, i: usize) -> Option<&'v [u8]>
        ensures { option_map (λ name. name.now) result ≡ slice_get self.now i }
    {
        let mut left = i;
        for permission in self.never {
            if !is_among(*permission, self.allowed) {
                continue;
            }
            if left == 0 {
                return Some(self.resolved.name(permission.permission));
            }
            left -= 1;
        }
        None
    }
}

/// A violation: a neverallow rule, an allow rule, and the permissions that both give to a source, a target and a class.
#[derive(Drop)]
pub struct Violation<'v, A: Allocator = Global> {
    pub never: RuleView<'v>,
    pub allowed: RuleView<'v>,
    pub source: &'v [u8],
    pub target: &'v [u8],
    pub class: &'v [u8],
    pub permissions: Permissions<'v, A>,
}

impl<'v, A: Allocator> Violation<'v, A> {
    /// The violation of a row, by lists of what rules give.
    pub(super) fn of(
        resolved: &'v Resolved<A>,
        permissions: &'v Lists<ClassPermission, A>,
        row: RowNumbers,
    ) -> Self
        requires row { IsRow (length (meaning_in resolved.now).rules) row }
        requires permissions { AreLists resolved.now permissions.now.0 }
        ensures { violation_seen result ≡ violation_head (violation_by resolved.now permissions.now.0 row) }
    {
        let rules = resolved.rules();
        Violation {
            never: rule_at(resolved, row.never),
            allowed: rule_at(resolved, row.allowed),
            source: resolved.name(row.source),
            target: resolved.name(row.target),
            class: resolved.name(row.class),
            permissions: Permissions {
                resolved,
                never: of_class(given_at(rules, permissions, row.never), row.class),
                allowed: of_class(given_at(rules, permissions, row.allowed), row.class),
            },
        }
    }
}
