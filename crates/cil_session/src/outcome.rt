//! What came of a session, and of its lines.

ghost use Rattle.std.specs.Prelude.{◌≡◌};
ghost use Rattle.cil_session.specs.Common.{exit_status_of, refused};
ghost use Rattle.cil_session.specs.declared.outcome.Status.TheVariants.{Script};

use cil_stream::{SinkFault, SourceFault};
use thiserror::Error;

/// How a session ended.
#[derive(Clone, Copy, Debug, PartialEq, Eq)]
pub enum Status {
    /// At the end of the script, with no refusal among the answers.
    Clean,
    /// At the end of the script, with a refusal among the answers.
    Refused,
    /// At a line that is no command, or with a batch that is still open.
    Script,
}

impl Status {
    ghost use Rattle.std.specs.Prelude.{◌≡◌};
    ghost use Rattle.cil_session.specs.Session.{after_answer};

    /// The status after one more answer.
    pub(crate) fn after(self, refused: bool) -> Self
        ensures { result ≡ after_answer refused self }
    {
        if refused { Status::Refused } else { self }
    }
}

/// Why a session didn't reach its end.
#[derive(Clone, Copy, Debug, PartialEq, Eq, Error)]
pub enum SessionFault {
    #[error("the input failed")]
    Read,
    #[error("the output failed")]
    Write,
}

impl From<SourceFault> for SessionFault {
    ghost use Rattle.std.specs.Prelude.{◌≡◌};
    ghost use Rattle.cil_session.specs.declared.outcome.SessionFault.TheVariants.{Read};

    ghost from_gives = { λ _ e. e ≡ Read };

    fn from(_e: SourceFault) -> SessionFault {
        SessionFault::Read
    }
}

impl From<SinkFault> for SessionFault {
    ghost use Rattle.std.specs.Prelude.{◌≡◌};
    ghost use Rattle.cil_session.specs.declared.outcome.SessionFault.TheVariants.{Write};

    ghost from_gives = { λ _ e. e ≡ Write };

    fn from(_e: SinkFault) -> SessionFault {
        SessionFault::Write
    }
}

/// The exit status of a session.
pub fn exit_status(end: Result<Status, SessionFault>) -> u8
    ensures { result ≡ exit_status_of end }
{
    match end {
        Ok(Status::Clean) => 0,
        Ok(Status::Refused) => 1,
        Ok(Status::Script) => 2,
        Err(SessionFault::Read) | Err(SessionFault::Write) => 3,
    }
}

/// What came of a line of a script.
#[derive(Clone, Copy, Debug, PartialEq, Eq)]
pub enum Outcome {
    Accepted,
    Refused,
    /// It is no command, or its text is short. Nothing was done.
    NoCommand,
}

/// What came of a turn of a session, in which it reads a line.
#[derive(Clone, Copy, Debug, PartialEq, Eq)]
pub enum Turn {
    /// The script ended before the line.
    End,
    /// A command was answered. The last one lacked its line feed.
    Answered { refused: bool, last: bool },
    /// It was no command. Nothing was done.
    NoCommand,
}

/// Where the commands of a script end.
#[derive(Clone, Copy, Debug, PartialEq, Eq)]
pub enum Last {
    /// At its end, with this status so far.
    AtEnd(Status),
    /// At a line that is no command, behind so many line feeds.
    AtLine(u64),
}
