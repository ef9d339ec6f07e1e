//! Statements that are taken by their names alone.

ghost use Rattle.std.specs.Prelude.{◌≡◌, IfOk, option_map};
ghost use Rattle.cil_reader.specs.Common.{trees_of};
ghost use Rattle.cil_projection.specs.Pieces.{pieces_of};
ghost use Rattle.cil_projection.specs.Forms.{fitting, rows_of, taken_by};
ghost use Rattle.cil_projection.specs.Statements.{by_names};

use crate::fit::fit;
use crate::kinds::{Form, forms};
use crate::piece::{Piece, add_piece};
use cil_reader::{TreeSlice, Word};
use std::alloc::{AllocError, Allocator};

/// The offsets of a statement's first byte and of what stands behind it.
#[derive(Clone, Copy)]
pub struct Span {
    pub from: u32,
    pub to: u32,
}

/// The pieces of a statement with this first word by a form, where its arguments fit it.
fn taken<'a, A: Allocator>(
    alloc: A,
    span: Span,
    form: Form,
    arguments: TreeSlice<'_, 'a>,
) -> Result<Option<Vec<Piece<'a>, A>>, AllocError>
    ensures { IfOk result (λ found. option_map (λ pieces. pieces_of pieces.items) found
        ≡ taken_by span.from span.to form.entry.0.now form.entry.1.now (trees_of arguments.entry)) }
{
    let (keyword, parts) = form;
    let mut pieces = Vec::new(alloc);
    let blanked = Piece::Blanked {
        from: span.from,
        to: span.to,
    };
    add_piece(&mut pieces, blanked)?;
    add_piece(&mut pieces, Piece::Taken { keyword })?;
    if !fit(&mut pieces, parts, arguments)? {
        return Ok(None);
    }
    Ok(Some(pieces))
}

/// The pieces of a statement by the first of the forms that it fits.
#[cycle(fitting)]
fn fitting<'a, A: Allocator + Copy>(
    alloc: A,
    span: Span,
    forms: &'static [Form],
    word: Word<'a>,
    arguments: TreeSlice<'_, 'a>,
) -> Result<Option<Vec<Piece<'a>, A>>, AllocError>
    ensures { IfOk result (λ found. option_map (λ pieces. pieces_of pieces.items) found
        ≡ fitting span.from span.to (rows_of forms.now) word.entry.text.now
        (trees_of arguments.entry)) }
{
    let [form, more @ ..] = forms else {
        return Ok(None);
    };
    if word.text == form.0 {
        if let Some(pieces) = taken(alloc, span, *form, arguments)? {
            return Ok(Some(pieces));
        }
    }
    fitting(alloc, span, more, word, arguments)
}

/// The pieces of a statement by its names alone: by the first of the forms that it fits.
pub fn by_names<'a, A: Allocator + Copy>(
    alloc: A,
    span: Span,
    word: Word<'a>,
    arguments: TreeSlice<'_, 'a>,
) -> Result<Option<Vec<Piece<'a>, A>>, AllocError>
    ensures { IfOk result (λ found. option_map (λ pieces. pieces_of pieces.items) found
        ≡ by_names span.from span.to word.entry.text.now (trees_of arguments.entry)) }
{
    fitting(alloc, span, forms(), word, arguments)
}
