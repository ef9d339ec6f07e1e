//! Writes rows as lines.

ghost use Rattle.std.specs.Prelude.{◌≡◌, ◌<◌, ◌≤◌, ◌++◌, length, map, codes, IsTrue, OnOk, OnErr, IfOk};
ghost use Rattle.cil_rules.specs.Common.{All, flat_map, row_line, HasFailed, Gains, GainsFront, rule_kind_of, IsWithin, accesses_in, has_bit, atom_at, AreNumbered, rows_of, row_head, name_text, chunk_text, row_at, row_of};
ghost use Rattle.cil_specs.specs.Statements.{rule_word};

use crate::numbers::{is_listed, named};
use crate::row::Row;
use cil_accesses::{AccessRow, Accesses, Chunk};
use cil_resolve::Text;
use cil_stream::{Sink, SinkFault, write_all, write_pieces};
use cil_text::RuleKind;
use std::alloc::Allocator;

/// The word that a rule of this kind begins with.
fn kind_word(kind: RuleKind) -> &'static [u8]
    ensures { result.now ≡ rule_word (rule_kind_of kind) }
{
    match kind {
        RuleKind::Allow => b"allow",
        RuleKind::AuditAllow => b"auditallow",
        RuleKind::DontAudit => b"dontaudit",
        RuleKind::NeverAllow => b"neverallow",
    }
}

/// Writes the line of a row up to its permissions.
fn write_head<'t, W: Sink>(
    sink: &mut W,
    kind: RuleKind,
    source: &'t [u8],
    target: &'t [u8],
    class: &'t [u8],
) -> Result<(), SinkFault>
    ensures ok { OnOk result (Gains (W.taken sink.old) (W.taken sink.new) (row_head (rule_kind_of kind) source.now target.now class.now)) }
    ensures err { OnErr result (GainsFront (W.taken sink.old) (W.taken sink.new) (row_head (rule_kind_of kind) source.now target.now class.now)) }
    ensures failed { OnErr result (HasFailed (W.failures sink.old) (W.failures sink.new)) }
    ensures counted { W.failures sink.old ≤ W.failures sink.new }
{
    let word: &'t [u8] = kind_word(kind);
    write_pieces(
        sink,
        &[word, b" ", source, b" ", target, b":", class, b" { "],
    )
}

/// Writes a permission of a row.
fn write_permission<W: Sink>(sink: &mut W, name: &[u8]) -> Result<(), SinkFault>
    ensures ok { OnOk result (Gains (W.taken sink.old) (W.taken sink.new) (name.now ++ codes " ")) }
    ensures err { OnErr result (GainsFront (W.taken sink.old) (W.taken sink.new) (name.now ++ codes " ")) }
    ensures failed { OnErr result (HasFailed (W.failures sink.old) (W.failures sink.new)) }
    ensures counted { W.failures sink.old ≤ W.failures sink.new }
{
    write_pieces(sink, &[name, b" "])
}

/// Writes the permission of a chunk, where it has a bit.
fn write_chunk<W: Sink, A: Allocator>(
    sink: &mut W,
    names: &[Text<A>],
    chunk: &Chunk,
    bit: u32,
) -> Result<(), SinkFault>
    requires bit { bit < 64 }
    requires within { IsTrue (has_bit bit chunk.now) → chunk.now.permission < length names.now }
    ensures ok { OnOk result (Gains (W.taken sink.old) (W.taken sink.new) (chunk_text names.now bit chunk.now)) }
    ensures err { OnErr result (GainsFront (W.taken sink.old) (W.taken sink.new) (chunk_text names.now bit chunk.now)) }
    ensures failed { OnErr result (HasFailed (W.failures sink.old) (W.failures sink.new)) }
    ensures counted { W.failures sink.old ≤ W.failures sink.new }
{
    if chunk.has_bit(bit) {
        write_permission(sink, names[chunk.permission as usize].as_slice())?;
    }
    Ok(())
}

/// Writes the permissions of the chunks that have a bit.
fn write_permissions<W: Sink, A: Allocator>(
    sink: &mut W,
    names: &[Text<A>],
    chunks: &[Chunk],
    bit: u32,
) -> Result<(), SinkFault>
    requires bit { bit < 64 }
    requires within { All (λ c. IsTrue (has_bit bit c) → c.permission < length names.now) chunks.now }
    ensures ok { OnOk result (Gains (W.taken sink.old) (W.taken sink.new) (flat_map (chunk_text names.now bit) chunks.now)) }
    ensures err { OnErr result (GainsFront (W.taken sink.old) (W.taken sink.new) (flat_map (chunk_text names.now bit) chunks.now)) }
    ensures failed { OnErr result (HasFailed (W.failures sink.old) (W.failures sink.new)) }
    ensures counted { W.failures sink.old ≤ W.failures sink.new }
{
    for chunk in chunks {
        write_chunk(sink, names, chunk, bit)?;
    }
    Ok(())
}

/// Writes the line of a row of accesses.
fn write_row<W: Sink, A: Allocator>(
    sink: &mut W,
    names: &[Text<A>],
    row: &AccessRow<'_>,
) -> Result<(), SinkFault>
    requires bit { row.now.bit < 64 }
    requires first { IsWithin (length names.now) row.now.first }
    requires within { All (IsWithin (length names.now)) (accesses_in row.now) }
    ensures ok { OnOk result (Gains (W.taken sink.old) (W.taken sink.new) (row_line (row_at names.now row.now.first (accesses_in row.now)))) }
    ensures err { OnErr result (GainsFront (W.taken sink.old) (W.taken sink.new) (row_line (row_at names.now row.now.first (accesses_in row.now)))) }
    ensures failed { OnErr result (HasFailed (W.failures sink.old) (W.failures sink.new)) }
    ensures counted { W.failures sink.old ≤ W.failures sink.new }
{
    let atom = named(&row.first, names);
    write_head(sink, atom.kind, atom.source, atom.target, atom.class)?;
    write_permissions(sink, names, row.chunks, row.bit)?;
    write_all(sink, b"};\n")
}

/// Writes the lines of the rows of accesses, and tells how many rows there are.
pub fn write_rows<W: Sink, A: Allocator>(
    sink: &mut W,
    names: &[Text<A>],
    accesses: &Accesses<A>,
) -> Result<u128, SinkFault>
    requires { AreNumbered names.now accesses.now }
    ensures rows { IfOk result (λ n. n ≡ length (rows_of (map (atom_at names.now) accesses.now))) }
    ensures ok { OnOk result (Gains (W.taken sink.old) (W.taken sink.new) (flat_map row_line (rows_of (map (atom_at names.now) accesses.now)))) }
    ensures err { OnErr result (GainsFront (W.taken sink.old) (W.taken sink.new) (flat_map row_line (rows_of (map (atom_at names.now) accesses.now)))) }
    ensures failed { OnErr result (HasFailed (W.failures sink.old) (W.failures sink.new)) }
    ensures counted { W.failures sink.old ≤ W.failures sink.new }
{
    // There are no more rows than accesses, so their count holds in as many bits.
    let _most = accesses.len();
    let mut rows = accesses.rows();
    let mut count = 0;
    while let Some(row) = rows.next() {
        if is_listed(row.first.kind) {
            write_row(sink, names, &row)?;
            count += 1;
        }
    }
    Ok(count)
}

/// Writes the names at numbers, with a space behind each.
fn write_names<W: Sink, A: Allocator>(
    sink: &mut W,
    names: &[Text<A>],
    numbers: &[u32],
) -> Result<(), SinkFault>
    requires { All (λ n. n < length names.now) numbers.now }
    ensures ok { OnOk result (Gains (W.taken sink.old) (W.taken sink.new) (flat_map (name_text names.now) numbers.now)) }
    ensures err { OnErr result (GainsFront (W.taken sink.old) (W.taken sink.new) (flat_map (name_text names.now) numbers.now)) }
    ensures failed { OnErr result (HasFailed (W.failures sink.old) (W.failures sink.new)) }
    ensures counted { W.failures sink.old ≤ W.failures sink.new }
{
    for number in numbers {
        write_permission(sink, names[*number as usize].as_slice())?;
    }
    Ok(())
}

/// Writes the line of a row.
pub fn write_row_line<W: Sink, A: Allocator>(
    sink: &mut W,
    row: &Row<'_, A>,
) -> Result<(), SinkFault>
    ensures ok { OnOk result (Gains (W.taken sink.old) (W.taken sink.new) (row_line (row_of row.now))) }
    ensures err { OnErr result (GainsFront (W.taken sink.old) (W.taken sink.new) (row_line (row_of row.now))) }
    ensures failed { OnErr result (HasFailed (W.failures sink.old) (W.failures sink.new)) }
    ensures counted { W.failures sink.old ≤ W.failures sink.new }
{
    write_head(sink, row.kind, row.source, row.target, row.class)?;
    let permissions = &row.permissions;
    write_names(sink, permissions.names, permissions.numbers)?;
    write_all(sink, b"};\n")
}
