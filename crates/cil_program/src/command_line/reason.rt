//! Why a file can't be read or written, in words.

use std::io::ErrorKind;

/// Why a file can't be read or written.
#[derive(Clone, Copy, Debug, PartialEq, Eq)]
pub enum Reason {
    NotFound,
    PermissionDenied,
    NotADirectory,
    IsADirectory,
    SymbolicLinks,
    LongName,
    ReadOnly,
    NoSpace,
    Exists,
    /// None of these, of a file that is read.
    OtherOfRead,
    /// None of these, of a file that is written.
    OtherOfWrite,
}

impl Reason {
    ghost use Rattle.std.specs.Prelude.{◌≡◌};
    ghost use Rattle.cil_program.specs.Reasons.{reason_line, reason_of};

    /// The reason by what the system says, or else another.
    pub fn of(kind: ErrorKind, other: Reason) -> Reason
        ensures { result ≡ reason_of kind other }
    {
        match kind {
            ErrorKind::NotFound => Reason::NotFound,
            ErrorKind::PermissionDenied => Reason::PermissionDenied,
            ErrorKind::NotADirectory => Reason::NotADirectory,
            ErrorKind::IsADirectory => Reason::IsADirectory,
            ErrorKind::FilesystemLoop => Reason::SymbolicLinks,
            ErrorKind::InvalidFilename => Reason::LongName,
            ErrorKind::ReadOnlyFilesystem => Reason::ReadOnly,
            ErrorKind::StorageFull => Reason::NoSpace,
            ErrorKind::AlreadyExists => Reason::Exists,
            _ => other,
        }
    }

    /// The line that tells it.
    pub fn line(self) -> &'static [u8]
        ensures { result.now ≡ reason_line self }
    {
        match self {
            Reason::NotFound => b"note: no such file or directory\n",
            Reason::PermissionDenied => b"note: permission denied\n",
            Reason::NotADirectory => b"note: a part of the path isn't a directory\n",
            Reason::IsADirectory => b"note: is a directory\n",
            Reason::SymbolicLinks => b"note: too many symbolic links\n",
            Reason::LongName => b"note: the name is too long\n",
            Reason::ReadOnly => b"note: the file system is read-only\n",
            Reason::NoSpace => b"note: no space is left\n",
            Reason::Exists => b"note: there is such a file already\n",
            Reason::OtherOfRead => b"note: it can't be read\n",
            Reason::OtherOfWrite => b"note: it can't be written\n",
        }
    }
}
