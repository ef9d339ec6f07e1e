//! The rows of the listing, owned.

ghost use Rattle.std.specs.Prelude.{◌≡◌, ◌<◌, ◌≤◌, ◌==◌, [], ◌∷◌, ◌++◌, length, map, slice_get, option_map, IfOk, OnOk, OnErr};
ghost use Rattle.cil_rules.specs.Common.{All, flat_map, row_line, HasFailed, Gains, GainsFront, accesses_in, at_bit, atom_at, AreNumbered, rows_of, row_of, row_by, numbered_row, line_by, IsNumberedRow, AreNumberedRows};

use crate::listing::write_row_line;
use crate::name_list::NameList;
use crate::numbers::is_listed;
use crate::row::{Names, Row};
use cil_accesses::{AccessRow, Accesses, Chunk};
use cil_resolve::Text;
use cil_stream::{Sink, SinkFault};
use cil_text::RuleKind;
use std::alloc::{AllocError, Allocator, Global};
use std::marker::Model;

/// A row by numbers. Its permissions stand in a range of those of all rows.
#[derive(Clone, Copy)]
pub struct RowNumbers {
    pub kind: RuleKind,
    pub source: u32,
    pub target: u32,
    pub class: u32,
    pub start: usize,
    pub end: usize,
}

impl RowNumbers {
    /// The row by its names.
    fn named<'t, A: Allocator>(&self, names: &'t [Text<A>], permissions: &'t [u32]) -> Row<'t, A>
        requires row { IsNumberedRow (length names.now) (length permissions.now) self.now }
        requires within { All (λ n. n < length names.now) permissions.now }
        ensures { row_of result ≡ row_by names.now permissions.now self.now }
    {
        Row {
            kind: self.kind,
            source: names[self.source as usize].as_slice(),
            target: names[self.target as usize].as_slice(),
            class: names[self.class as usize].as_slice(),
            permissions: Names {
                names,
                numbers: &permissions[self.start..self.end],
            },
        }
    }
}

/// The rows of the listing of a table, whose names they share. Contracts see them as their list.
#[derive(Drop)]
pub struct Rows<A: Allocator = Global> {
    names: NameList<A>,
    rows: Vec<RowNumbers, A>,
    permissions: Vec<u32, A>,
}

impl<A: Allocator> Model for Rows<A> {
    ghost use Rattle.std.specs.Prelude.{◌<◌, List, length, map};
    ghost use Rattle.std.specs.List.{All};
    ghost use Rattle.cil_specs.specs.Report.{Row};

    ghost Value = { List Row };

    ghost use Rattle.cil_rules.specs.NumberedRows.{row_by, AreNumberedRows};

    ghost view = { λ r. map (row_by r.names r.permissions.items) r.rows.items };

    ghost invariant = { λ r. AreNumberedRows r.names r.permissions.items r.rows.items };
}

/// Appends the permissions of the chunks that have a bit.
fn push_permissions<A: Allocator>(
    permissions: &mut Vec<u32, A>,
    chunks: &[Chunk],
    bit: u32,
) -> Result<(), AllocError>
    requires { bit < 64 }
    ensures { OnOk result (permissions.new.items ≡ permissions.old.items ++ map (λ a. a.permission) (at_bit bit chunks.now)) }
{
    for chunk in chunks {
        if chunk.has_bit(bit) {
            permissions.push(chunk.permission)?;
        }
    }
    Ok(())
}

/// Appends a row and its permissions.
fn push_row<A: Allocator>(
    rows: &mut Vec<RowNumbers, A>,
    permissions: &mut Vec<u32, A>,
    row: &AccessRow<'_>,
) -> Result<(), AllocError>
    requires { row.now.bit < 64 }
    ensures permissions { OnOk result (permissions.new.items ≡ permissions.old.items ++ map (λ a. a.permission) (accesses_in row.now)) }
    ensures rows { OnOk result (rows.new.items ≡ rows.old.items ++ numbered_row row.now.first (length permissions.old.items) (length permissions.new.items) ∷ []) }
{
    let start = permissions.len();
    push_permissions(permissions, row.chunks, row.bit)?;
    let first = row.first;
    rows.push(RowNumbers {
        kind: first.kind,
        source: first.source,
        target: first.target,
        class: first.class,
        start,
        end: permissions.len(),
    })?;
    Ok(())
}

/// Writes the lines of rows.
fn write_numbered<W: Sink, A: Allocator>(
    sink: &mut W,
    names: &[Text<A>],
    permissions: &[u32],
    rows: &[RowNumbers],
) -> Result<(), SinkFault>
    requires { AreNumberedRows names.now permissions.now rows.now }
    ensures ok { OnOk result (Gains (W.taken sink.old) (W.taken sink.new) (flat_map (line_by names.now permissions.now) rows.now)) }
    ensures err { OnErr result (GainsFront (W.taken sink.old) (W.taken sink.new) (flat_map (line_by names.now permissions.now) rows.now)) }
    ensures failed { OnErr result (HasFailed (W.failures sink.old) (W.failures sink.new)) }
    ensures counted { W.failures sink.old ≤ W.failures sink.new }
{
    for row in rows {
        write_row_line(sink, &row.named(names, permissions))?;
    }
    Ok(())
}

impl<A: Allocator + Copy> Rows<A> {
    /// The rows of accesses.
    pub(super) fn of(
        alloc: A,
        names: NameList<A>,
        accesses: &Accesses<A>,
    ) -> Result<Self, AllocError>
        requires { AreNumbered names accesses.now }
        ensures { IfOk result (λ rows. rows ≡ rows_of (map (atom_at names) accesses.now)) }
    {
        let mut rows = Vec::new(alloc);
        let mut permissions = Vec::new(alloc);
        let mut left = accesses.rows();
        while let Some(row) = left.next() {
            if is_listed(row.first.kind) {
                push_row(&mut rows, &mut permissions, &row)?;
            }
        }
        Ok(Rows {
            names,
            rows,
            permissions,
        })
    }
}

impl<A: Allocator> Rows<A> {
    /// How many rows there are.
    pub fn len(&self) -> usize
        ensures { result ≡ length self.now }
    {
        self.rows.len()
    }

    /// Whether there is none.
    pub fn is_empty(&self) -> bool
        ensures { result ≡ (length self.now == 0) }
    {
        self.rows.is_empty()
    }

    /// The row at a place of the order.
    pub fn get(&self, i: usize) -> Option<Row<'_, A>>
        ensures { option_map row_of result ≡ slice_get self.now i }
    {
        if i < self.rows.len() {
            Some(self.rows[i].named(self.names.as_slice(), &self.permissions))
        } else {
            None
        }
    }

    /// Writes the lines of the rows, and tells how many there are.
    pub fn write<W: Sink>(&self, sink: &mut W) -> Result<usize, SinkFault>
        ensures rows { IfOk result (λ n. n ≡ length self.now) }
        ensures ok { OnOk result (Gains (W.taken sink.old) (W.taken sink.new) (flat_map row_line self.now)) }
        ensures err { OnErr result (GainsFront (W.taken sink.old) (W.taken sink.new) (flat_map row_line self.now)) }
        ensures failed { OnErr result (HasFailed (W.failures sink.old) (W.failures sink.new)) }
        ensures counted { W.failures sink.old ≤ W.failures sink.new }
    {
        write_numbered(sink, self.names.as_slice(), &self.permissions, &self.rows)?;
        Ok(self.rows.len())
    }
}
