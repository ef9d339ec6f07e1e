//! The violations of a policy.

ghost use Rattle.std.specs.Prelude.{◌≡◌, ◌≤◌, ◌==◌, length, map, slice_get, option_map, IfOk, OnOk, OnErr};
ghost use Rattle.cil_violations.specs.Common.{flat_map, HasFailed, Gains, GainsFront, meaning_in, AreViolations, violation_line, violations_text, symbols_in, line_by, violation_by, AreRows, violation_seen, violation_head};
ghost use Rattle.std.specs.Rc.{rc_value};
ghost use Rattle.cil_member_rows.specs.Rows.{count_now};
ghost use Rattle.cil_rule_reach.specs.Named.{AreMembersBy};

use crate::index::ClassIndex;
use crate::line::write_line;
use crate::members::Members;
use crate::permissions::ordered_permissions;
use crate::row::RowNumbers;
use crate::search::Search;
use crate::violation::Violation;
use cil_member_rows::MemberRows;
use cil_parse::Lists;
use cil_resolve::{ClassPermission, Resolved, resolved_rules_are_in_order};
use cil_stream::{Sink, SinkFault};
use cil_symbols::Numbering;
use std::alloc::{AllocError, Allocator, Global};
use std::marker::Model;
use std::rc::Rc;

/// What neverallow rules of a policy forbid and allow rules give, in order. It shares the policy and copies no name. Contracts see
/// it as its list.
#[derive(Drop)]
pub struct Violations<A: Allocator = Global> {
    resolved: Rc<Resolved<A>, A>,
    permissions: Lists<ClassPermission, A>,
    rows: Vec<RowNumbers, A>,
}

impl<A: Allocator> Model for Violations<A> {
    ghost use Rattle.std.specs.Prelude.{List, map};
    ghost use Rattle.cil_specs.specs.Violations.{Violation};
    ghost use Rattle.std.specs.Coded.{codes};
    ghost use Rattle.cil_violations.specs.Codes.{coded_permissions};

    ghost Value = { List Violation };

    ghost coded = { Prim.hlevel (codes, coded_permissions) };

    ghost use Rattle.std.specs.Rc.{rc_value};
    ghost use Rattle.cil_violations.specs.Lines.{violation_by, AreRows};

    ghost view = { λ v. map (violation_by (rc_value v.resolved) v.permissions.0) v.rows.items };

    ghost invariant = { λ v. AreRows (rc_value v.resolved) v.permissions.0 v.rows.items };
}

/// Writes the lines of violations.
fn write_rows<W: Sink, A: Allocator>(
    sink: &mut W,
    resolved: &Resolved<A>,
    permissions: &Lists<ClassPermission, A>,
    rows: &[RowNumbers],
) -> Result<(), SinkFault>
    requires { AreRows resolved.now permissions.now.0 rows.now }
    ensures ok { OnOk result (Gains (W.taken sink.old) (W.taken sink.new) (flat_map (line_by resolved.now permissions.now.0) rows.now)) }
    ensures err { OnErr result (GainsFront (W.taken sink.old) (W.taken sink.new) (flat_map (line_by resolved.now permissions.now.0) rows.now)) }
    ensures failed { OnErr result (HasFailed (W.failures sink.old) (W.failures sink.new)) }
    ensures counted { W.failures sink.old ≤ W.failures sink.new }
{
    for row in rows {
        write_line(sink, resolved, permissions, row)?;
    }
    Ok(())
}

/// The violations of a policy by numbers, and lists of what its rules give.
#[derive(Drop)]
struct Found<A: Allocator> {
    permissions: Lists<ClassPermission, A>,
    rows: Vec<RowNumbers, A>,
}

/// Looks for the violations of a policy.
fn find<A: Allocator + Copy>(
    alloc: A,
    resolved: &Resolved<A>,
    members: Members<'_, A>,
) -> Result<Found<A>, AllocError>
    requires { AreMembersBy resolved.now (symbols_in members) (count_now members.rows.now) }
    ensures rows { IfOk result (λ found. AreRows resolved.now found.permissions.0 found.rows.items) }
    ensures violations { IfOk result (λ found. AreViolations (meaning_in resolved.now) (map (violation_by resolved.now found.permissions.0) found.rows.items)) }
{
    resolved_rules_are_in_order(resolved);
    let permissions = ordered_permissions(alloc, resolved.rules())?;
    let index = ClassIndex::of(alloc, resolved, &permissions)?;
    let mut rows = Vec::new(alloc);
    let search = Search {
        alloc,
        resolved,
        members,
        permissions: &permissions,
        index: &index,
    };
    search.push_all(&mut rows)?;
    Ok(Found { permissions, rows })
}

impl<A: Allocator + Copy> Violations<A> {
    /// The violations of a policy whose names have these symbols, and whose members the rows count by them.
    /// An out of memory stands also where no more owners of the policy can be counted.
    pub fn of(
        alloc: A,
        resolved: &Rc<Resolved<A>, A>,
        numbering: &Numbering<A>,
        rows: &MemberRows<A>,
    ) -> Result<Self, AllocError>
        requires { AreMembersBy (rc_value resolved.now) numbering.now.symbols (count_now rows.now) }
        ensures { IfOk result (AreViolations (meaning_in (rc_value resolved.now))) }
    {
        let found = find(alloc, resolved, Members { rows, numbering })?;
        Ok(Violations {
            resolved: resolved.clone()?,
            permissions: found.permissions,
            rows: found.rows,
        })
    }
}

impl<A: Allocator> Violations<A> {
    /// How many violations there are.
    pub fn len(&self) -> usize
        ensures { result ≡ length self.now }
    {
        self.rows.len()
    }

    /// Whether there is none.
    pub fn is_empty(&self) -> bool
        ensures { result ≡ (length self.now == 0) }
    {
        self.rows.is_empty()
    }

    /// The violation at a place of the order.
    pub fn get(&self, i: usize) -> Option<Violation<'_, A>>
        ensures { option_map violation_seen result ≡ option_map violation_head (slice_get self.now i) }
    {
        let row = self.rows.get(i)?;
        Some(Violation::of(&self.resolved, &self.permissions, *row))
    }

    /// Writes their lines, and tells how many there are.
    pub fn write<W: Sink>(&self, sink: &mut W) -> Result<usize, SinkFault>
        ensures rows { IfOk result (λ n. n ≡ length self.now) }
        ensures ok { OnOk result (Gains (W.taken sink.old) (W.taken sink.new) (violations_text self.now)) }
        ensures err { OnErr result (GainsFront (W.taken sink.old) (W.taken sink.new) (violations_text self.now)) }
        ensures failed { OnErr result (HasFailed (W.failures sink.old) (W.failures sink.new)) }
        ensures counted { W.failures sink.old ≤ W.failures sink.new }
    {
        write_rows(sink, &self.resolved, &self.permissions, &self.rows)?;
        Ok(self.rows.len())
    }
}
