//! What a trial asks of an engine.

use crate::case::{Case, Refusal};
use crate::fault::Fault;
use crate::job::Job;
use cil_stream::{MemorySink, Sink, Source};

/// How a session ended.
#[derive(Clone, Copy)]
pub enum End {
    Clean,
    Refused,
    Script,
    ReadFault,
    WriteFault,
}

impl End {
    /// The word for it.
    pub fn word(self) -> &'static str {
        match self {
            End::Clean => "clean",
            End::Refused => "refused",
            End::Script => "script",
            End::ReadFault => "read fault",
            End::WriteFault => "write fault",
        }
    }

    /// Whether a device failed.
    pub fn is_fault(self) -> bool {
        matches!(self, End::ReadFault | End::WriteFault)
    }
}

/// The kinds of rules that are counted.
#[derive(Clone, Copy)]
pub enum Rule {
    Allow,
    AuditAllow,
    DontAudit,
    NeverAllow,
}

/// An access that rules of a kind may give.
#[derive(Clone, Copy)]
pub struct Access<'a> {
    pub rule: Rule,
    pub source: &'a str,
    pub target: &'a str,
    pub class: &'a str,
    pub permission: &'a str,
}

/// An engine, and its heap, which refuses growths.
pub trait Engine {
    /// Refuses growths from now on.
    fn refuse(&self, refusal: Refusal);

    /// How many growths were refused so far.
    fn refused(&self) -> u64;

    /// Answers the script of a source.
    fn session<S: Source, W: Sink>(&mut self, source: &mut S, sink: &mut W) -> End;

    /// Answers a script that stands in memory.
    fn answer(&mut self, script: &[u8], sink: &mut MemorySink) -> End;

    /// Has `run` make the calls that the commands of a script ask for, and writes its replies.
    fn run(&mut self, script: &[u8], sink: &mut MemorySink) -> Result<(), Fault>;

    /// Compiles the entries that the commands of a script install at once, in place of what the engine has.
    fn compile(&mut self, script: &[u8], sink: &mut MemorySink) -> Result<(), Fault>;

    /// Makes the edits of a script one after the other, and writes what each answers and its work.
    fn work(&mut self, script: &[u8], sink: &mut MemorySink) -> Result<(), Fault>;

    /// Whether a type is a member of an attribute.
    fn has(&self, attribute: &str, ty: &str) -> bool;

    /// How many rules give an access.
    fn count(&self, access: Access<'_>) -> u64;
}

/// What makes new engines.
pub trait Engines {
    /// Does something with a new engine over the store of a case, and says whether it came to what was to fail.
    fn make(&self, case: &Case<'_>, job: Job<'_>, report: &mut MemorySink) -> Result<bool, Fault>;
}
