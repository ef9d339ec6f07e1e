//! What counters of small policies tell by place: members, accesses, rows, violations, and what changes from one policy to another.

ghost use Rattle.std.specs.Rc.{rc_value};
ghost use Rattle.cil_counters.specs.Counted.{IsNow, WasBefore};

use crate::counters::{counted, take_back};
use crate::policies::policy;
use RuleKind::{Allow, AuditAllow, NeverAllow};
use cil_counters::{ChangedMember, Counters};
use cil_resolve::{Meter, Resolved, RuleView};
use cil_rules::{Atom, Changes, Row, Rows, Table};
use cil_text::RuleKind;
use cil_violations::{Violation, Violations};
use std::alloc::Global;
use std::process::Abort;
use std::rc::Rc;

// The attribute s holds a. Its names are a, b, p, s, see and use, in the order of their numbers.
const OLD: &[u8] = b"(class p (see use))(type a)(type b)(typeattribute s)(typeattributeset s (a))
(neverallow s b (p (use see)))
 (allow s b (p (see use)))
(allow a b (p (use)))(auditallow a self (p (use)))";

// It holds b.
const NEW: &[u8] = b"(class p (see use))(type a)(type b)(typeattribute s)(typeattributeset s (b))
(neverallow s b (p (use see)))
 (allow s b (p (see use)))
(allow a b (p (use)))(auditallow a self (p (use)))";

fn shared(rt: &impl Abort, alloc: Global, text: &[u8]) -> Rc<Resolved> {
    Rc::new(alloc, policy(rt, alloc, text)).expect(rt, "memory")
}

// The members of an attribute, by the numbers of their names.
fn members_of(
    rt: &impl Abort,
    alloc: Global,
    resolved: &Resolved,
    counters: &Counters,
    attribute: &[u8],
) -> Vec<usize>
    requires { IsNow resolved.now counters.now }
{
    let listed = counters.members(alloc, resolved, attribute);
    listed.expect(rt, "memory")
}

// Whether a is the only member of s, and a name that isn't there has none.
fn has_members(rt: &impl Abort, alloc: Global) -> bool {
    let resolved = policy(rt, alloc, OLD);
    let counters = counted(rt, alloc, &resolved);
    let of_s = members_of(rt, alloc, &resolved, &counters, b"s");
    let of_none = members_of(rt, alloc, &resolved, &counters, b"no");
    of_s.as_slice() == [0].as_slice() && of_none.is_empty()
}

// An access of the class p: its kind, its source, its target and its permission.
type Access = (RuleKind, &'static [u8], &'static [u8], &'static [u8]);

const LISTED: [Access; 3] = [
    (Allow, b"a", b"b", b"see"),
    (Allow, b"a", b"b", b"use"),
    (AuditAllow, b"a", b"a", b"use"),
];

fn is_access(atom: Option<Atom<'_>>, want: Option<&Access>) -> bool {
    match (atom, want) {
        (Some(found), Some(want)) => {
            (found.kind, found.source, found.target, found.permission) == *want
                && found.class == b"p".as_slice()
        }
        (None, None) => true,
        _ => false,
    }
}

fn is_table(table: &Table, want: &[Access]) -> bool {
    for i in 0..=want.len() {
        if !is_access(table.get(i), want.get(i)) {
            return false;
        }
    }
    table.len() == want.len() as u128 && table.is_empty() == want.is_empty()
}

// The table of the old policy.
fn table(rt: &impl Abort, alloc: Global) -> Table {
    let resolved = shared(rt, alloc, OLD);
    counted(rt, alloc, &resolved)
        .table(alloc, &resolved)
        .expect(rt, "memory")
}

// Whether the permissions of a row are these.
fn has_permissions(row: &Row<'_>, want: &[&[u8]]) -> bool {
    for i in 0..=want.len() {
        if row.permissions.get(i) != want.get(i).copied() {
            return false;
        }
    }
    row.permissions.len() == want.len() && !row.permissions.is_empty()
}

// Whether the first row has both permissions of a to b, and the second one that of a to itself.
fn are_rows(rows: &Rows) -> bool {
    let (Some(first), Some(second)) = (rows.get(0), rows.get(1)) else {
        return false;
    };
    let heads = [
        (first.kind, first.source, first.target, first.class),
        (second.kind, second.source, second.target, second.class),
    ];
    let (a, b, p): (&[u8], &[u8], &[u8]) = (b"a", b"b", b"p");
    heads == [(Allow, a, b, p), (AuditAllow, a, a, p)]
        && has_permissions(&first, &[b"see", b"use"])
        && has_permissions(&second, &[b"use"])
        && (rows.get(2).is_none() && rows.len() == 2 && !rows.is_empty())
}

// Whether the table has those accesses and rows, and one without accesses is empty.
fn has_table(rt: &impl Abort, alloc: Global) -> bool {
    let table = table(rt, alloc);
    let rows = table.rows(alloc).expect(rt, "memory");
    is_table(&table, &LISTED) && is_table(&Table::empty(alloc), &[]) && are_rows(&rows)
}

// Whether a rule of the module m has that kind and stands there.
fn is_rule(rule: &RuleView<'_>, kind: RuleKind, place: (u32, u32)) -> bool {
    let found = (rule.at.line, rule.at.column);
    rule.kind == kind && rule.module == b"m".as_slice() && found == place
}

// Whether a violation of the class p is one of a and b, of an allow rule at that place, and has those permissions.
fn is_violation(found: &Violation<'_>, place: (u32, u32), want: &[&[u8]]) -> bool {
    for i in 0..=want.len() {
        if found.permissions.get(i) != want.get(i).copied() {
            return false;
        }
    }
    let names = [found.source, found.target, found.class];
    is_rule(&found.never, NeverAllow, (2, 1))
        && is_rule(&found.allowed, Allow, place)
        && names == [b"a".as_slice(), b"b".as_slice(), b"p".as_slice()]
        && (found.permissions.len() == want.len() && !found.permissions.is_empty())
}

// Whether there are two violations, of the rules of the third and the fourth line.
fn are_two(violations: &Violations) -> bool {
    let (Some(first), Some(second)) = (violations.get(0), violations.get(1)) else {
        return false;
    };
    is_violation(&first, (3, 2), &[b"see", b"use"])
        && is_violation(&second, (4, 1), &[b"use"])
        && (violations.get(2).is_none() && violations.len() == 2 && !violations.is_empty())
}

fn has_violations(rt: &impl Abort, alloc: Global) -> bool {
    let resolved = shared(rt, alloc, OLD);
    let counters = counted(rt, alloc, &resolved);
    are_two(&counters.violations(alloc, &resolved).expect(rt, "memory"))
}

const GONE: [Access; 3] = [
    (Allow, b"a", b"b", b"see"),
    (NeverAllow, b"a", b"b", b"see"),
    (NeverAllow, b"a", b"b", b"use"),
];

const COME: [Access; 4] = [
    (Allow, b"b", b"b", b"see"),
    (Allow, b"b", b"b", b"use"),
    (NeverAllow, b"b", b"b", b"see"),
    (NeverAllow, b"b", b"b", b"use"),
];

fn are_changes(changes: &Changes) -> bool {
    for i in 0..=COME.len() {
        if !is_access(changes.removed(i), GONE.get(i))
            || !is_access(changes.added(i), COME.get(i))
        {
            return false;
        }
    }
    (changes.removed_len(), changes.added_len()) == (3, 4)
}

// Whether the types a and b have changed as members of s and steps are pending, or neither is so.
fn tells_changed(rt: &impl Abort, alloc: Global, counters: &Counters, want: bool) -> bool {
    let attribute: &[u8] = b"s";
    let listed = counters.changed_members(alloc).expect(rt, "memory");
    for ty in [b"a".as_slice(), b"b".as_slice()] {
        let is_listed = listed.contains(&ChangedMember { attribute, ty });
        if is_listed != want || counters.has_changed(attribute, ty) != want {
            return false;
        }
    }
    let len = if want { 2 } else { 0 };
    listed.len() == len && counters.is_pending() == want && !counters.has_changed(b"s", b"s")
}

// Brings counters from one policy to another, and says whether the changes are those.
fn update_tells_changes(
    rt: &impl Abort,
    alloc: Global,
    counters: &mut Counters,
    old: &Rc<Resolved>,
    new: &Rc<Resolved>,
) -> bool
    requires now { IsNow (rc_value old.now) counters.old }
    requires before { WasBefore (rc_value old.now) counters.old }
    ensures before { WasBefore (rc_value old.now) counters.new }
{
    let updated = counters.update(alloc, old, new, &mut Meter::new());
    are_changes(&updated.expect(rt, "memory"))
}

// Whether the changes are told from the old policy to the new one, and none when they are taken back.
fn has_changes(rt: &impl Abort, alloc: Global) -> bool {
    let old = shared(rt, alloc, OLD);
    let new = shared(rt, alloc, NEW);
    let mut counters = counted(rt, alloc, &old);
    let is_told = update_tells_changes(rt, alloc, &mut counters, &old, &new);
    let has_changed = tells_changed(rt, alloc, &counters, true);
    take_back(&mut counters, &old);
    is_told && has_changed && tells_changed(rt, alloc, &counters, false)
}

#[test]
fn what_is_told_by_place(rt: HostRuntime) {
    let alloc = rt.alloc();
    let same = [
        has_members(&rt, alloc),
        has_table(&rt, alloc),
        has_violations(&rt, alloc),
        has_changes(&rt, alloc),
    ];
    assert!(&rt; same == [true; 4]);
}
