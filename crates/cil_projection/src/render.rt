//! The bytes of pieces.

ghost use Rattle.std.specs.Prelude.{◌≡◌, ◌++◌, OnOk, codes, map};
ghost use Rattle.cil_projection.specs.Pieces.{attribute_of, blank, part_of, piece_of, pieces_of, rendered, spelled};

use crate::component::last_component;
use crate::piece::Piece;
use crate::table::Table;
use std::alloc::{AllocError, Allocator};

/// The bytes of a text from an offset up to another.
fn part(text: &[u8], from: u32, to: u32) -> &[u8]
    ensures { result.now ≡ part_of text.now from to }
{
    let len = to.saturating_sub(from) as usize;
    let from = (from as usize).min(text.len());
    let rest = &text[from..];
    let len = len.min(rest.len());
    &rest[..len]
}

/// A line feed, or a space for any other byte.
fn blank(b: u8) -> u8
    ensures { result ≡ blank b }
{
    if b == b'\n' { b'\n' } else { b' ' }
}

/// Appends bytes, blanked.
fn put_blanked<A: Allocator>(out: &mut Vec<u8, A>, bytes: &[u8]) -> Result<(), AllocError>
    ensures { OnOk result (out.new.items ≡ out.old.items ++ map blank bytes.now) }
{
    let mut rest = bytes;
    while let [first, behind @ ..] = rest {
        out.push(blank(*first))?;
        rest = behind;
    }
    Ok(())
}

/// Appends what stands in front, between and behind.
fn put_three<A: Allocator>(
    out: &mut Vec<u8, A>,
    front: &[u8],
    middle: &[u8],
    end: &[u8],
) -> Result<(), AllocError>
    ensures { OnOk result (out.new.items ≡ out.old.items ++ (front.now ++ middle.now ++ end.now)) }
{
    out.extend_from_slice(front)?;
    out.extend_from_slice(middle)?;
    out.extend_from_slice(end)?;
    Ok(())
}

/// Appends the name of the attribute that stands for a name of a table.
fn put_attribute<A: Allocator>(
    out: &mut Vec<u8, A>,
    table: Table,
    name: &[u8],
) -> Result<(), AllocError>
    ensures { OnOk result (out.new.items ≡ out.old.items ++ attribute_of table name.now) }
{
    let last = last_component(name);
    let front = name.len() - last.len();
    put_three(out, &name[..front], table.prefix(), last)
}

/// Appends a declaration of a name.
fn put_declared<A: Allocator>(
    out: &mut Vec<u8, A>,
    table: Table,
    name: &[u8],
) -> Result<(), AllocError>
    ensures { OnOk result (out.new.items ≡ out.old.items
        ++ (codes "(typeattribute " ++ attribute_of table name.now ++ codes ")")) }
{
    out.extend_from_slice(b"(typeattribute ")?;
    put_attribute(out, table, name)?;
    out.extend_from_slice(b")")?;
    Ok(())
}

/// Appends a rule that needs a name. It stands in the place of the source, where `self` is a name as others are.
fn put_needed<A: Allocator>(
    out: &mut Vec<u8, A>,
    table: Table,
    name: &[u8],
) -> Result<(), AllocError>
    ensures { OnOk result (out.new.items ≡ out.old.items
        ++ (codes "(dontaudit " ++ attribute_of table name.now
        ++ codes " cilsem__none (cilsem__none ()))")) }
{
    out.extend_from_slice(b"(dontaudit ")?;
    put_attribute(out, table, name)?;
    out.extend_from_slice(b" cilsem__none (cilsem__none ()))")?;
    Ok(())
}

/// Appends the bytes of a piece.
fn put_piece<A: Allocator>(
    out: &mut Vec<u8, A>,
    text: &[u8],
    piece: Piece<'_>,
) -> Result<(), AllocError>
    ensures { OnOk result (out.new.items ≡ out.old.items ++ spelled text.now (piece_of piece.entry)) }
{
    match piece {
        Piece::Copied { from, to } => out.extend_from_slice(part(text, from, to))?,
        Piece::Blanked { from, to } => put_blanked(out, part(text, from, to))?,
        Piece::Taken { .. } => {}
        Piece::Declared { table, name } => put_declared(out, table, name)?,
        Piece::Needed { table, name } => put_needed(out, table, name)?,
        Piece::Class { name } => put_three(out, b"(dontaudit cilsem__none self (", name, b" ()))")?,
        Piece::PermissionSet { name } => put_three(
            out,
            b"(dontaudit cilsem__none self ",
            name,
            b")",
        )?,
        Piece::Opened { class } => put_three(out, b"(dontaudit cilsem__none self (", class, b" (")?,
        Piece::Permission { name } => put_three(out, b"", name, b" ")?,
        Piece::Closed => out.extend_from_slice(b")))")?,
    }
    Ok(())
}

/// Appends the bytes of pieces, one after the other.
pub fn render<A: Allocator>(
    out: &mut Vec<u8, A>,
    text: &[u8],
    pieces: &[Piece<'_>],
) -> Result<(), AllocError>
    ensures { OnOk result (out.new.items ≡ out.old.items ++ rendered text.now (pieces_of pieces.now)) }
{
    let mut rest = pieces;
    while let [first, behind @ ..] = rest {
        put_piece(out, text, *first)?;
        rest = behind;
    }
    Ok(())
}
