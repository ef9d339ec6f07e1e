//! A list of edits that are held, within the limits of a batch.

ghost use Rattle.std.specs.Prelude.{◌≡◌, ◌++◌, ◌∷◌, [], map, true, false, IfOk, OnOk, OnErr};
ghost use Rattle.cil_store_specs.specs.Next.{Edit as SpecEdit, held_bytes, is_too_long};
ghost use Rattle.cil_session.specs.Common.{edit_of, held_edit};

use crate::held_edit::HeldEdit;
use cil_store::Edit;
use std::alloc::{AllocError, Allocator};
use std::marker::Model;

/// The greatest number of edits of a batch.
const GREATEST_EDITS: usize = 8192;

/// The greatest number of bytes that are counted of all texts of a batch.
const GREATEST_BYTES: u64 = 67_108_864;

/// Edits within the limits of a batch.
#[derive(Drop)]
pub struct EditList<A: Allocator> {
    edits: Vec<HeldEdit<A>, A>,
    /// How many bytes of their texts are counted.
    bytes: u64,
}

impl<A: Allocator> Model for EditList<A> {
    ghost use Rattle.std.specs.Prelude.{◌≡◌, ◌≤◌, List, length, map};
    ghost use Rattle.std.specs.List.{sum_by};
    ghost use Rattle.cil_store_specs.specs.Next.{Edit, held_bytes};
    ghost use Rattle.cil_session.specs.HeldEdit.{held_edit};

    ghost Value = { List Edit };

    ghost view = { λ l. map held_edit l.edits.items };

    ghost invariant = { λ l. (length l.edits.items ≤ 8192) × (l.bytes ≤ 67108864)
        × (l.bytes ≡ sum_by held_bytes (map held_edit l.edits.items)) };
}

impl<A: Allocator> EditList<A> {
    pub fn new(alloc: A) -> Self
        ensures { result ≡ [] }
    {
        EditList {
            edits: Vec::new(alloc),
            bytes: 0,
        }
    }

    /// Whether there is room for an edit of which this many bytes of text are counted.
    pub fn has_room(&self, len: usize) -> bool
        ensures yes { result ≡ true → (edit : SpecEdit) → held_bytes edit ≡ len
            → is_too_long (self.now ++ edit ∷ []) ≡ false }
        ensures no { result ≡ false → (edit : SpecEdit) → held_bytes edit ≡ len
            → is_too_long (self.now ++ edit ∷ []) ≡ true }
    {
        self.edits.len() < GREATEST_EDITS && len as u64 <= GREATEST_BYTES - self.bytes
    }

    /// Adds an edit for which there is room.
    pub fn push(&mut self, edit: HeldEdit<A>) -> Result<(), AllocError>
        requires { is_too_long (self.old ++ held_edit edit ∷ []) ≡ false }
        ensures ok { OnOk result (self.new ≡ self.old ++ held_edit edit ∷ []) }
        ensures err { OnErr result (self.new ≡ self.old) }
    {
        let len = edit.as_edit().held_bytes();
        self.edits.push(edit)?;
        self.bytes += len as u64;
        Ok(())
    }
}

impl<A: Allocator + Copy> EditList<A> {
    /// The edits, borrowed.
    pub fn as_edits(&self, alloc: A) -> Result<Vec<Edit<'_>, A>, AllocError>
        ensures { IfOk result (λ edits. map edit_of edits.items ≡ self.now) }
    {
        let mut edits = Vec::with_capacity(alloc, self.edits.len())?;
        for edit in &self.edits {
            edits.push(edit.as_edit())?;
        }
        Ok(edits)
    }
}
