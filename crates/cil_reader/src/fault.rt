//! The faults of a text.

use crate::place::Place;
use std::alloc::{AllocError, AllocFailed};
use thiserror::Error;

/// What is wrong with a text. The codes are this project's own.
#[derive(Clone, Copy, Debug, PartialEq, Eq)]
pub enum TextFaultKind {
    /// A byte that begins no part of a text.
    BadByte = 10,
    /// A `)` where no list is open.
    Unbalanced = 11,
    /// The `(` of the innermost list that is open at the end.
    Unclosed = 12,
    /// A `"` without another before the end of its line.
    UnclosedString = 13,
    /// A `(` that would open the 257th list within one another.
    TooDeep = 14,
    /// A word or a string outside all lists.
    BareWord = 15,
    /// The first word of a statement, where it is none of a statement's words.
    Unsupported = 20,
    /// The first word of a statement whose list doesn't fit its form; or the `(` of a list without a first word.
    Misshapen = 21,
    /// A word that isn't spelt as a name, in the place of one.
    BadName = 22,
    /// A word that is reserved or has a reserved component, in the place of a name.
    Reserved = 23,
    /// The first word of a statement that no optional may hold, inside one.
    NotInOptional = 24,
}

impl TextFaultKind {
    ghost use Rattle.std.specs.Prelude.{◌≡◌};
    ghost use Rattle.cil_specs.specs.TextFault.{code_of};
    ghost use Rattle.cil_reader.specs.Image.{kind_of};

    /// The number that a reply shows.
    pub fn code(self) -> u8
        ensures { result ≡ code_of (kind_of self) }
    {
        self as u8
    }
}

/// The word that shows a fault: a byte, which is written as two hexadecimal digits, or a word of the text.
#[derive(Clone, Copy, Debug)]
pub enum ShownWord<'a> {
    Byte(u8),
    Text(&'a [u8]),
}

/// Why a text was not read or recognised: out of memory, or what is wrong and where and the word that shows it.
#[derive(Clone, Copy, Debug, Error)]
pub enum TextFault<'a> {
    #[error("out of memory")]
    Memory,
    #[error("{kind:?} at {}:{}", .at.line, .at.column)]
    Found {
        kind: TextFaultKind,
        at: Place,
        word: ShownWord<'a>,
    },
}

impl<'a> From<AllocError> for TextFault<'a> {
    ghost use Rattle.cil_reader.specs.declared.fault.TextFault.TheVariants.{Memory};
    ghost use Rattle.std.specs.Prelude.{◌≡◌};

    ghost from_gives = { λ _ e. e ≡ Memory };

    fn from(_e: AllocError) -> TextFault<'a> {
        TextFault::Memory
    }
}

impl<'a, T: Drop> From<AllocFailed<T>> for TextFault<'a> {
    ghost use Rattle.cil_reader.specs.declared.fault.TextFault.TheVariants.{Memory};
    ghost use Rattle.std.specs.Prelude.{◌≡◌};

    ghost from_gives = { λ _ e. e ≡ Memory };

    fn from(_e: AllocFailed<T>) -> TextFault<'a> {
        TextFault::Memory
    }
}
