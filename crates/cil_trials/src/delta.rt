//! The trials of the engine that changes its counters.

use crate::engine::{Heap, atom_of, end_of, refuse, run_script};
use crate::work::make_edits;
use cil_session::memory::answer_script;
use cil_session::session::session;
use cil_store::{Compiled, Delta};
use cil_stream::{MemorySink, Sink, Source};
use cil_trial_cases::{Access, End, Engine, Fault, Refusal};
use std::alloc::Global;

/// The engine that changes its counters, over a heap, and memory that is never refused.
#[derive(Drop)]
pub struct TriedDelta<'h> {
    alloc: Global,
    heap: &'h Heap,
    engine: Delta<&'h Heap>,
}

impl<'h> TriedDelta<'h> {
    pub fn new(alloc: Global, heap: &'h Heap) -> Self {
        TriedDelta {
            alloc,
            heap,
            engine: Delta::new(heap),
        }
    }
}

impl<'h> Engine for TriedDelta<'h> {
    fn refuse(&self, refusal: Refusal) {
        refuse(self.heap, refusal)
    }

    fn refused(&self) -> u64 {
        self.heap.refused()
    }

    fn session<S: Source, W: Sink>(&mut self, source: &mut S, sink: &mut W) -> End {
        end_of(session(self.heap, source, sink, &mut self.engine))
    }

    fn answer(&mut self, script: &[u8], sink: &mut MemorySink) -> End {
        end_of(answer_script(self.heap, script, sink, &mut self.engine))
    }

    fn run(&mut self, script: &[u8], sink: &mut MemorySink) -> Result<(), Fault> {
        run_script(self.alloc, self.heap, &mut self.engine, script, sink)
    }

    fn compile(&mut self, _script: &[u8], _sink: &mut MemorySink) -> Result<(), Fault> {
        Err(Fault::Case)
    }

    fn work(&mut self, script: &[u8], sink: &mut MemorySink) -> Result<(), Fault> {
        make_edits(self.alloc, sink, &mut self.engine, script)
    }

    fn has(&self, attribute: &str, ty: &str) -> bool {
        self.engine.has(attribute.as_bytes(), ty.as_bytes())
    }

    fn count(&self, access: Access<'_>) -> u64 {
        self.engine.count(&atom_of(access))
    }
}
