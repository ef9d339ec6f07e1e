//! The pieces of a projected text.

ghost use Rattle.std.specs.Prelude.{◌≡◌, ◌++◌, ◌∷◌, [], OnOk};

use crate::table::Table;
use std::alloc::{AllocError, Allocator};

/// A piece of a projected text. Offsets are those of the text that is projected.
#[derive(Clone, Copy, Debug)]
pub enum Piece<'a> {
    /// These bytes of the text.
    Copied { from: u32, to: u32 },
    /// As many spaces as these bytes, where they are no line feeds.
    Blanked { from: u32, to: u32 },
    /// A statement with this first word was taken by its names.
    Taken { keyword: &'a [u8] },
    /// The declaration of an attribute that stands for a name of a table.
    Declared { table: Table, name: &'a [u8] },
    /// A rule that needs the name and gives nothing.
    Needed { table: Table, name: &'a [u8] },
    /// A rule that needs the class and gives nothing.
    Class { name: &'a [u8] },
    /// A rule that needs the permission set and gives nothing.
    PermissionSet { name: &'a [u8] },
    /// The front of a rule that needs the class and permissions, and gives nothing.
    Opened { class: &'a [u8] },
    /// One of its permissions.
    Permission { name: &'a [u8] },
    /// Its end.
    Closed,
}

/// Adds a piece.
pub fn add_piece<'a, A: Allocator>(
    pieces: &mut Vec<Piece<'a>, A>,
    piece: Piece<'a>,
) -> Result<(), AllocError>
    ensures { OnOk result (pieces.new.items ≡ pieces.old.items ++ piece.entry ∷ []) }
{
    pieces.push(piece)?;
    Ok(())
}
