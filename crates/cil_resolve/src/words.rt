//! Words of statements.

ghost use Rattle.std.specs.Prelude.{◌≡◌, ℕ, List, Some, slice_index_or};
ghost use Rattle.cil_resolve.specs.Common.{Word, read, texts_of};
ghost use Rattle.cil_check.specs.Permissions.{lists_own as is_listing};

use cil_check::Seen;
use cil_parse::{NumberedWord, StatementKind};
use std::alloc::Allocator;

/// The text of a word of a statement.
pub fn text_of<'m, A: Allocator>(seen: &Seen<'_, 'm, A>, word: NumberedWord) -> &'m [u8]
    requires { (w : Word) × (read (texts_of seen.now.«module».now) word ≡ Some w) }
    ensures { (w : Word) → read (texts_of seen.now.«module».now) word ≡ Some w → result.now ≡ w.text }
{
    seen.module.text(word.text as usize)
}

/// Whether statements of a kind list permissions of their own.
pub fn lists_own(kind: StatementKind) -> bool
    ensures { result ≡ is_listing kind }
{
    match kind {
        StatementKind::Common => true,
        StatementKind::Class => true,
        _ => false,
    }
}

/// The number at an index, and 0 past the end.
pub fn number_at(numbers: &[u32], i: usize) -> u32
    ensures { result ≡ slice_index_or numbers.now i 0 }
{
    match numbers.get(i) {
        Some(n) => *n,
        None => 0,
    }
}
