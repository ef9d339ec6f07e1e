//! One of two policies, by symbols.

ghost use Rattle.std.specs.Prelude.{◌≡◌};
ghost use Rattle.cil_table_updates.specs.Common.{meaning_in, AreMembersOf, members_at, members_of, IsReady, AreApart, HasSoundRules, HasSymbols, IsPolicy};

use cil_member_rows::MemberRows;
use cil_resolve::{Resolved, resolved_is_consistent, resolved_rules_permit};
use cil_rule_reach::{SymbolMembers, When};
use cil_symbols::{Numbering, Symbols};
use std::alloc::{Allocator, Global};

/// A policy and the symbols of its names.
#[derive(Clone, Copy)]
pub struct Named<'p, A: Allocator = Global> {
    pub resolved: &'p Resolved<A>,
    pub numbering: &'p Numbering<A>,
}

/// An old policy and a new one.
#[derive(Clone, Copy)]
pub struct Policies<'p, A: Allocator = Global> {
    pub old: Named<'p, A>,
    pub new: Named<'p, A>,
}

/// The names of the symbols, and the rows that hold the members of attributes.
#[derive(Clone, Copy)]
pub struct Shared<'p, A: Allocator = Global> {
    pub names: &'p Symbols<A>,
    pub rows: &'p MemberRows<A>,
}

/// A policy with the symbols of its names and the members of its attributes by symbols.
#[derive(Drop)]
pub struct Policy<'p, A: Allocator = Global> {
    pub resolved: &'p Resolved<A>,
    pub numbering: &'p Numbering<A>,
    pub members: SymbolMembers<'p, A>,
}

impl<'p, A: Allocator> Policy<'p, A> {
    /// A policy whose members rows hold before the steps or now.
    pub fn of(named: Named<'p, A>, shared: Shared<'p, A>, when: When) -> Self
        requires symbols { HasSymbols shared.names.now named }
        requires members { AreMembersOf
            shared.names.now (meaning_in named.resolved.now) (members_at when shared.rows.now) }
        ensures resolved { result.resolved.now ≡ named.entry.resolved.now }
        ensures numbering { result.numbering.now ≡ named.entry.numbering.now }
        ensures members { members_of result.members ≡ members_at when shared.entry.rows.now }
        ensures policy { IsPolicy shared.entry.names.now result }
        ensures ready { IsReady result }
        ensures sound { HasSoundRules result }
        ensures apart { AreApart shared.entry.names.now }
    {
        resolved_is_consistent(named.resolved);
        resolved_rules_permit(named.resolved);
        named.resolved.rules();
        Policy {
            resolved: named.resolved,
            numbering: named.numbering,
            members: SymbolMembers {
                rows: shared.rows,
                when,
                symbols: shared.names.len(),
            },
        }
    }
}
