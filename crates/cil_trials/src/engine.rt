//! The engines of the trials.

use crate::calls::push_calls;
use crate::delta::TriedDelta;
use crate::plain::TriedPlain;
use crate::replies::{or_memory, write_replies};
use cil_rules::Atom;
use cil_session::outcome::{SessionFault, Status};
use cil_session::reply;
use cil_store::{Call, Compiled, run};
use cil_stream::{MemorySink, SinkFault};
use cil_text::RuleKind;
use cil_trial_cases::{Access, Case, End, Engines, Fault, Job, Kind, Refusal, Rule};
use refusing::Refusing;
use std::alloc::{Allocator, Global};

/// An allocator of which growths may be refused.
pub type Heap = Refusing<Global>;

/// How a session ended.
pub fn end_of(end: Result<Status, SessionFault>) -> End {
    match end {
        Ok(Status::Clean) => End::Clean,
        Ok(Status::Refused) => End::Refused,
        Ok(Status::Script) => End::Script,
        Err(SessionFault::Read) => End::ReadFault,
        Err(SessionFault::Write) => End::WriteFault,
    }
}

fn kind_of(rule: Rule) -> RuleKind {
    match rule {
        Rule::Allow => RuleKind::Allow,
        Rule::AuditAllow => RuleKind::AuditAllow,
        Rule::DontAudit => RuleKind::DontAudit,
        Rule::NeverAllow => RuleKind::NeverAllow,
    }
}

/// Refuses growths of a heap from now on.
pub fn refuse(heap: &Heap, refusal: Refusal) {
    match refusal {
        Refusal::None => heap.refuse(0),
        Refusal::Alone(nth) => heap.refuse(nth),
        Refusal::From(nth) => heap.refuse_from(nth),
    }
}

/// Has `run` make calls, and writes its replies.
fn run_calls<A: Allocator + Copy, C: Compiled<A>>(
    heap: A,
    engine: &mut C,
    calls: &[Call<'_>],
    sink: &mut MemorySink,
) -> Result<(), SinkFault> {
    match run(heap, engine, calls) {
        Ok(replies) => write_replies(sink, replies.as_slice()),
        Err(_) => reply::write_no_memory(sink),
    }
}

/// Has `run` make the calls that the commands of a script ask for, and writes its replies.
pub fn run_script<A: Allocator + Copy, C: Compiled<A>>(
    alloc: Global,
    heap: A,
    engine: &mut C,
    script: &[u8],
    sink: &mut MemorySink,
) -> Result<(), Fault> {
    let mut calls = Vec::new(alloc);
    push_calls(&mut calls, script)?;
    or_memory(run_calls(heap, engine, calls.as_slice(), sink))
}

/// The access that a case names.
pub fn atom_of(access: Access<'_>) -> Atom<'_> {
    Atom {
        kind: kind_of(access.rule),
        source: access.source.as_bytes(),
        target: access.target.as_bytes(),
        class: access.class.as_bytes(),
        permission: access.permission.as_bytes(),
    }
}

/// Makes the engines of the trials.
#[derive(Drop)]
pub struct Makers {
    pub alloc: Global,
}

impl Engines for Makers {
    fn make(&self, case: &Case<'_>, job: Job<'_>, report: &mut MemorySink) -> Result<bool, Fault> {
        let heap = Refusing::new(self.alloc);
        match case.kind {
            Kind::Plain => {
                let mut tried = TriedPlain::new(self.alloc, &heap);
                job.make(self.alloc, &mut tried, case, report)
            }
            Kind::Delta => {
                let mut tried = TriedDelta::new(self.alloc, &heap);
                job.make(self.alloc, &mut tried, case, report)
            }
        }
    }
}
