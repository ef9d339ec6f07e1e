//! Writes violations as lines.

ghost use Rattle.std.specs.Prelude.{◌≡◌, ◌<◌, ◌≤◌, length, OnOk, OnErr};
ghost use Rattle.cil_violations.specs.Common.{flat_map, HasFailed, Gains, GainsFront, AreInOrder, meaning_in, violation_line, rule_in, place_text, rule_text, access_text, head_by, shared_text, violation_by, AreLists, IsRow};
ghost use Rattle.cil_specs.specs.Statements.{rule_word};
ghost use Rattle.cil_text.specs.Image.{place_of, rule_kind_of};
ghost use Rattle.cil_resolve.specs.Views.{rule_seen, rule_head};

use crate::permissions::{given_at, is_among, of_class};
use crate::row::RowNumbers;
use cil_parse::Lists;
use cil_resolve::{ClassPermission, Resolved, RuleView};
use cil_stream::{Sink, SinkFault, write_all, write_pieces};
use cil_text::{Place, RuleKind};
use itoa::Buffer;
use std::alloc::Allocator;

/// The word that a rule of this kind begins with.
fn kind_word(kind: RuleKind) -> &'static [u8]
    ensures { result.now ≡ rule_word (rule_kind_of kind) }
{
    match kind {
        RuleKind::Allow => b"allow",
        RuleKind::AuditAllow => b"auditallow",
        RuleKind::DontAudit => b"dontaudit",
        RuleKind::NeverAllow => b"neverallow",
    }
}

/// Writes a word, a place of a module, and a space.
fn write_place<W: Sink>(
    sink: &mut W,
    word: &[u8],
    module: &[u8],
    at: Place,
) -> Result<(), SinkFault>
    ensures ok { OnOk result (Gains (W.taken sink.old) (W.taken sink.new) (place_text word.now «module».now (place_of at))) }
    ensures err { OnErr result (GainsFront (W.taken sink.old) (W.taken sink.new) (place_text word.now «module».now (place_of at))) }
    ensures failed { OnErr result (HasFailed (W.failures sink.old) (W.failures sink.new)) }
    ensures counted { W.failures sink.old ≤ W.failures sink.new }
{
    let mut line_digits = Buffer::new();
    let mut column_digits = Buffer::new();
    write_pieces(
        sink,
        &[
            word,
            b" ",
            module,
            b":",
            line_digits.format(at.line).as_bytes(),
            b":",
            column_digits.format(at.column).as_bytes(),
            b" ",
        ],
    )
}

/// Writes the kind of a rule and its place.
fn write_rule<W: Sink>(sink: &mut W, rule: &RuleView<'_>) -> Result<(), SinkFault>
    ensures ok { OnOk result (Gains (W.taken sink.old) (W.taken sink.new) (rule_text (rule_seen rule.now))) }
    ensures err { OnErr result (GainsFront (W.taken sink.old) (W.taken sink.new) (rule_text (rule_seen rule.now))) }
    ensures failed { OnErr result (HasFailed (W.failures sink.old) (W.failures sink.new)) }
    ensures counted { W.failures sink.old ≤ W.failures sink.new }
{
    write_place(sink, kind_word(rule.kind), rule.module, rule.at)
}

/// Writes a source, a target and a class.
fn write_access<W: Sink>(
    sink: &mut W,
    source: &[u8],
    target: &[u8],
    class: &[u8],
) -> Result<(), SinkFault>
    ensures ok { OnOk result (Gains (W.taken sink.old) (W.taken sink.new) (access_text source.now target.now class.now)) }
    ensures err { OnErr result (GainsFront (W.taken sink.old) (W.taken sink.new) (access_text source.now target.now class.now)) }
    ensures failed { OnErr result (HasFailed (W.failures sink.old) (W.failures sink.new)) }
    ensures counted { W.failures sink.old ≤ W.failures sink.new }
{
    write_pieces(sink, &[source, b" ", target, b":", class, b" { "])
}

/// Writes the line of a violation up to its permissions.
fn write_head<W: Sink, A: Allocator>(
    sink: &mut W,
    resolved: &Resolved<A>,
    row: &RowNumbers,
) -> Result<(), SinkFault>
    requires { IsRow (length (meaning_in resolved.now).rules) row.now }
    ensures ok { OnOk result (Gains (W.taken sink.old) (W.taken sink.new) (head_by resolved.now row.now)) }
    ensures err { OnErr result (GainsFront (W.taken sink.old) (W.taken sink.new) (head_by resolved.now row.now)) }
    ensures failed { OnErr result (HasFailed (W.failures sink.old) (W.failures sink.new)) }
    ensures counted { W.failures sink.old ≤ W.failures sink.new }
{
    let never = rule_at(resolved, row.never);
    let allowed = rule_at(resolved, row.allowed);
    let source = resolved.name(row.source);
    let target = resolved.name(row.target);
    let class = resolved.name(row.class);
    write_rule(sink, &never)?;
    write_rule(sink, &allowed)?;
    write_access(sink, source, target, class)
}

/// Writes the name of a permission and a space, if the permission is among others.
fn write_permission<W: Sink, A: Allocator>(
    sink: &mut W,
    resolved: &Resolved<A>,
    permission: ClassPermission,
    others: &[ClassPermission],
) -> Result<(), SinkFault>
    requires { AreInOrder others.now }
    ensures ok { OnOk result (Gains (W.taken sink.old) (W.taken sink.new) (shared_text resolved.now others.now permission)) }
    ensures err { OnErr result (GainsFront (W.taken sink.old) (W.taken sink.new) (shared_text resolved.now others.now permission)) }
    ensures failed { OnErr result (HasFailed (W.failures sink.old) (W.failures sink.new)) }
    ensures counted { W.failures sink.old ≤ W.failures sink.new }
{
    if is_among(permission, others) {
        write_pieces(sink, &[resolved.name(permission.permission), b" "])
    } else {
        Ok(())
    }
}

/// Writes the permissions that two rules share.
fn write_permissions<W: Sink, A: Allocator>(
    sink: &mut W,
    resolved: &Resolved<A>,
    never: &[ClassPermission],
    allowed: &[ClassPermission],
) -> Result<(), SinkFault>
    requires { AreInOrder allowed.now }
    ensures ok { OnOk result (Gains (W.taken sink.old) (W.taken sink.new) (flat_map (shared_text resolved.now allowed.now) never.now)) }
    ensures err { OnErr result (GainsFront (W.taken sink.old) (W.taken sink.new) (flat_map (shared_text resolved.now allowed.now) never.now)) }
    ensures failed { OnErr result (HasFailed (W.failures sink.old) (W.failures sink.new)) }
    ensures counted { W.failures sink.old ≤ W.failures sink.new }
{
    for permission in never {
        write_permission(sink, resolved, *permission, allowed)?;
    }
    Ok(())
}

/// The rule at a place.
pub fn rule_at<A: Allocator>(resolved: &Resolved<A>, i: usize) -> RuleView<'_>
    requires { i < length (meaning_in resolved.now).rules }
    ensures { rule_seen result ≡ rule_head (rule_in resolved.now i) }
{
    let Some(rule) = resolved.rule_at(i) else {
        unreachable!("there is a rule at the place");
    };
    rule
}

/// Writes the line of a violation, by lists of what rules give.
pub fn write_line<W: Sink, A: Allocator>(
    sink: &mut W,
    resolved: &Resolved<A>,
    permissions: &Lists<ClassPermission, A>,
    row: &RowNumbers,
) -> Result<(), SinkFault>
    requires row { IsRow (length (meaning_in resolved.now).rules) row.now }
    requires permissions { AreLists resolved.now permissions.now.0 }
    ensures ok { OnOk result (Gains (W.taken sink.old) (W.taken sink.new) (violation_line (violation_by resolved.now permissions.now.0 row.now))) }
    ensures err { OnErr result (GainsFront (W.taken sink.old) (W.taken sink.new) (violation_line (violation_by resolved.now permissions.now.0 row.now))) }
    ensures failed { OnErr result (HasFailed (W.failures sink.old) (W.failures sink.new)) }
    ensures counted { W.failures sink.old ≤ W.failures sink.new }
{
    write_head(sink, resolved, row)?;
    let rules = resolved.rules();
    let never = of_class(given_at(rules, permissions, row.never), row.class);
    let allowed = of_class(given_at(rules, permissions, row.allowed), row.class);
    write_permissions(sink, resolved, never, allowed)?;
    write_all(sink, b"};\n")
}
