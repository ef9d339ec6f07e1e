//! Why a trial was not made.

use std::alloc::{AllocError, AllocFailed};

/// Why a trial was not made.
#[derive(Clone, Copy)]
pub enum Fault {
    /// The text describes no case.
    Case,
    /// Memory that the trial itself needs lacks.
    Memory,
}

impl From<AllocError> for Fault {
    fn from(_e: AllocError) -> Fault {
        Fault::Memory
    }
}

impl<T: Drop> From<AllocFailed<T>> for Fault {
    fn from(_e: AllocFailed<T>) -> Fault {
        Fault::Memory
    }
}
