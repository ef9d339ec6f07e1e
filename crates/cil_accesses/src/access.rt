//! An access by numbers.

ghost use Rattle.std.specs.Prelude.{◌≡◌, length};
ghost use Rattle.cil_accesses.specs.Common.{renumbered, IsWithin};

use cil_text::RuleKind;

/// An access whose names are numbers. Where the names ascend by their numbers, the order of these is that of the accesses.
#[derive(Clone, Copy, PartialEq, Eq, PartialOrd, Ord)]
pub struct AccessNumbers {
    pub kind: RuleKind,
    pub source: u32,
    pub target: u32,
    pub class: u32,
    pub permission: u32,
}

impl AccessNumbers {
    /// The access with the numbers at the places of its own.
    pub(super) fn renumbered(&self, numbers: &[u32]) -> AccessNumbers
        requires { IsWithin (length numbers.now) self.now }
        ensures { result ≡ renumbered numbers.now self.now }
    {
        AccessNumbers {
            kind: self.kind,
            source: numbers[self.source as usize],
            target: numbers[self.target as usize],
            class: numbers[self.class as usize],
            permission: numbers[self.permission as usize],
        }
    }
}
