//! The statements that stay when others are left out, and their new places.

ghost use Rattle.std.specs.Prelude.{◌≡◌, ◌<◌, ◌≤◌, ◌+◌, ◌^◌, List, length, filter, false, slice_index_or, IfOk, OnOk};
ghost use Rattle.cil_bind.specs.Common.{Row, kinds_told};
ghost use Rattle.cil_bind.specs.Moves.{AreKeptTo, places_told};

use crate::lead::Lead;
use crate::rows::{Row, is_kept};
use cil_parse::StatementKind;
use std::alloc::{AllocError, Allocator, Global};

/// For each row so far its new place, or nowhere, and how many of them stay.
#[derive(Drop)]
struct Moves<A: Allocator = Global> {
    places: Vec<Lead, A>,
    count: u32,
}

impl<A: Allocator> Moves<A> {
    /// Moves the row of an index behind those that stay, with its kind, if the innermost optional around it is marked.
    #[inline(always)]
    fn take(
        &mut self,
        rows: &mut Vec<Row, A>,
        kinds: &mut Vec<StatementKind, A>,
        kept: &[bool],
        i: usize,
    ) -> Result<(), AllocError>
        requires behind { self.old.count ≤ i }
        requires kinds { length kinds.old.items ≡ length rows.old.items }
        requires within { i < length rows.old.items }
        requires few { length rows.old.items < 2 ^ 32 }
        ensures { OnOk result ((all : List Row) → AreKeptTo kept.now all rows.old.items kinds.old.items self.old i
            → AreKeptTo kept.now all rows.new.items kinds.new.items self.new (i + 1)) }
    {
        let row = rows[i];
        if !is_kept(&row, kept) {
            self.places.push(Lead::nowhere())?;
            return Ok(());
        }
        rows[self.count as usize] = row;
        kinds[self.count as usize] = row.kind;
        self.places.push(Lead::of(Some(self.count))?)?;
        self.count += 1;
        Ok(())
    }
}

/// Keeps the rows whose innermost optional is marked, with their kinds, and drops the others. For each
/// row its new place, or nowhere.
pub fn keep_rows<A: Allocator + Copy>(
    alloc: A,
    rows: &mut Vec<Row, A>,
    kinds: &mut Vec<StatementKind, A>,
    kept: &[bool],
) -> Result<Vec<Lead, A>, AllocError>
    requires kinds { kinds.old.items ≡ kinds_told rows.old.items }
    requires few { length rows.old.items < 2 ^ 32 }
    ensures rows { OnOk result (rows.new.items
        ≡ filter (λ row. slice_index_or kept.now row.optional false) rows.old.items) }
    ensures kinds { OnOk result (kinds.new.items ≡ kinds_told rows.new.items) }
    ensures places { IfOk result (λ places. places.items ≡ places_told kept.now 0 rows.old.items) }
{
    let n = rows.len();
    let mut moves = Moves {
        places: Vec::with_capacity(alloc, n)?,
        count: 0,
    };
    for i in 0..n {
        moves.take(rows, kinds, kept, i)?;
    }
    rows.truncate(moves.count as usize);
    kinds.truncate(moves.count as usize);
    Ok(moves.places)
}
