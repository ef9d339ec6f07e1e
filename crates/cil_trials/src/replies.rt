//! The writers of replies.

use cil_session::reply;
use cil_store::{ChangeCounts, Reply};
use cil_stream::{MemorySink, SinkFault, write_all};
use cil_trial_cases::Fault;
use std::alloc::Allocator;

/// What was written to memory, which fails only where memory lacks.
pub fn or_memory(written: Result<(), SinkFault>) -> Result<(), Fault> {
    match written {
        Ok(()) => Ok(()),
        Err(_) => Err(Fault::Memory),
    }
}

fn write_reply<A: Allocator>(sink: &mut MemorySink, reply: &Reply<A>) -> Result<(), SinkFault> {
    match reply {
        Reply::Changes(changes) => reply::write_changes(
            sink,
            ChangeCounts {
                added: changes.added_len(),
                removed: changes.removed_len(),
            },
        ),
        Reply::Refused(refusal) => reply::write_refusal(sink, refusal),
        Reply::Dropped(dropped) => reply::write_dropped(sink, dropped),
        Reply::Listing(text) => write_all(sink, text.as_slice()),
        Reply::Violations(violations) => {
            let count = violations.write(sink)?;
            reply::write_end(sink, count as u128)
        }
        Reply::Rows(rows) => {
            let count = rows.write(sink)?;
            reply::write_end(sink, count as u128)
        }
    }
}

/// Writes replies one after the other.
pub fn write_replies<A: Allocator>(
    sink: &mut MemorySink,
    replies: &[Reply<A>],
) -> Result<(), SinkFault> {
    for reply in replies {
        write_reply(sink, reply)?;
    }
    Ok(())
}
