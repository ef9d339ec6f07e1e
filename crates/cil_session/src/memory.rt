//! Scripts that stand in memory as a whole.

ghost use Rattle.std.specs.Prelude.{◌≡◌, ◌≤◌, ◌++◌, List, ℕ, true, IfOk, OnOk, IsErrOf};
ghost use Rattle.cil_session.specs.Common.{IsSession, IsCutByRead, IsCutByWrite, HasFailed, Gains, status_of};

use crate::outcome::{SessionFault, Status};
use crate::session::session;
use cil_store::Compiled;
use cil_stream::{MemorySource, Sink};
use std::alloc::Allocator;

/// Answers a script to a sink, with an engine.
///
/// # Errors
///
/// Those of a session. No clause rules `Read` out, but memory fails as a source only behind 2^64 - 1 bytes.
pub fn answer_script<W: Sink, A: Allocator + Copy, C: Compiled<A>>(
    alloc: A,
    script: &[u8],
    sink: &mut W,
    engine: &mut C,
) -> Result<Status, SessionFault>
    ensures ok { IfOk result (λ status. (written : List ℕ) × Gains (W.taken sink.old) (W.taken sink.new) written
        × IsSession script.now true (C.store engine.old) (C.store engine.new) written (status_of status)) }
    ensures flushed { OnOk result (W.flushed sink.new ≡ W.taken sink.new) }
    ensures cut_by_read { IsErrOf result SessionFault.Read →
        (given more written : List ℕ) × (script.now ≡ given ++ more)
        × Gains (W.taken sink.old) (W.taken sink.new) written
        × IsCutByRead given (C.store engine.old) (C.store engine.new) written }
    ensures cut_by_write { IsErrOf result SessionFault.Write → (written : List ℕ)
        × Gains (W.taken sink.old) (W.taken sink.new) written
        × IsCutByWrite script.now true (C.store engine.old) (C.store engine.new) written }
    ensures write { IsErrOf result SessionFault.Write →
        HasFailed (W.failures sink.old) (W.failures sink.new) }
{
    let mut source = MemorySource::new(script);
    session(alloc, &mut source, sink, engine)
}
