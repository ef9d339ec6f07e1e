//! The faults of a joined policy.

use cil_text::Place;
use std::alloc::{AllocError, AllocFailed};
use thiserror::Error;

/// What is wrong with a policy. The codes are this project's own.
#[derive(Clone, Copy, Debug, PartialEq, Eq)]
pub enum PolicyFaultKind {
    /// A name that is declared and has an earlier declaration in the same table and namespace.
    Twice = 41,
    /// A name that leads to nothing, or a permission that its class lacks.
    Missing = 42,
    /// A name that leads to a thing of another kind than is asked.
    WrongKind = 43,
    /// An alias that an earlier statement gives an actual type.
    AliasTwice = 44,
    /// An alias without an actual type.
    AliasUnset = 45,
    /// A class that an earlier statement gives a common.
    SecondCommon = 46,
    /// A class of more than 32 permissions, its common's included.
    TooManyPermissions = 47,
    /// An attribute that depends on itself by its set statements.
    Circular = 48,
}

impl PolicyFaultKind {
    ghost use Rattle.std.specs.Prelude.{◌≡◌};
    ghost use Rattle.cil_specs.specs.PolicyFault.{code_of};
    ghost use Rattle.cil_check.specs.Image.{policy_kind_of};

    /// The number that a reply shows.
    pub fn code(self) -> u8
        ensures { result ≡ code_of (policy_kind_of self) }
    {
        self as u8
    }
}

/// Why a policy doesn't compile: out of memory, or what is wrong, in which module, where, and the word that shows it.
#[derive(Clone, Copy, Debug, Error)]
pub enum PolicyFault<'a> {
    #[error("out of memory")]
    Memory,
    #[error("{kind:?} at {}:{}", .at.line, .at.column)]
    Found {
        kind: PolicyFaultKind,
        module: &'a [u8],
        at: Place,
        word: &'a [u8],
    },
}

impl<'a> From<AllocError> for PolicyFault<'a> {
    ghost use Rattle.std.specs.Prelude.{◌≡◌};
    ghost use Rattle.cil_check.specs.declared.fault.PolicyFault.TheVariants.{Memory};

    ghost from_gives = { λ _ e. e ≡ Memory };

    fn from(_e: AllocError) -> PolicyFault<'a> {
        PolicyFault::Memory
    }
}

impl<'a, T: Drop> From<AllocFailed<T>> for PolicyFault<'a> {
    ghost use Rattle.std.specs.Prelude.{◌≡◌};
    ghost use Rattle.cil_check.specs.declared.fault.PolicyFault.TheVariants.{Memory};

    ghost from_gives = { λ _ e. e ≡ Memory };

    fn from(_e: AllocFailed<T>) -> PolicyFault<'a> {
        PolicyFault::Memory
    }
}
