//! The trials of the engine that compiles anew.

use crate::calls::push_entries;
use crate::engine::{Heap, atom_of, end_of, refuse, run_script};
use crate::replies::or_memory;
use cil_session::memory::answer_script;
use cil_session::reply;
use cil_session::session::session;
use cil_store::{Compiled, Entry, Plain, Seed};
use cil_stream::{MemorySink, Sink, Source};
use cil_trial_cases::{Access, End, Engine, Fault, Refusal, write_text};
use std::alloc::Global;

/// The engine that compiles anew, over a heap, and memory that is never refused.
#[derive(Drop)]
pub struct TriedPlain<'h> {
    alloc: Global,
    heap: &'h Heap,
    engine: Plain<&'h Heap>,
}

impl<'h> TriedPlain<'h> {
    pub fn new(alloc: Global, heap: &'h Heap) -> Self {
        TriedPlain {
            alloc,
            heap,
            engine: Plain::new(heap),
        }
    }

    /// Compiles entries at once, in place of what the engine has, and writes what comes of it.
    fn compile_entries(
        &mut self,
        entries: &[Entry<'_>],
        sink: &mut MemorySink,
    ) -> Result<(), Fault> {
        match Plain::of(self.heap, Seed::fixed(), entries) {
            Ok(made) => {
                self.engine = made;
                write_text(sink, b"compiled\n")
            }
            Err(refusal) => or_memory(reply::write_refusal(sink, &refusal)),
        }
    }
}

impl<'h> Engine for TriedPlain<'h> {
    fn refuse(&self, refusal: Refusal) {
        refuse(self.heap, refusal)
    }

    fn refused(&self) -> u64 {
        self.heap.refused()
    }

    fn session<S: Source, W: Sink>(&mut self, source: &mut S, sink: &mut W) -> End {
        end_of(session(self.heap, source, sink, &mut self.engine))
    }

    fn answer(&mut self, script: &[u8], sink: &mut MemorySink) -> End {
        end_of(answer_script(self.heap, script, sink, &mut self.engine))
    }

    fn run(&mut self, script: &[u8], sink: &mut MemorySink) -> Result<(), Fault> {
        run_script(self.alloc, self.heap, &mut self.engine, script, sink)
    }

    fn compile(&mut self, script: &[u8], sink: &mut MemorySink) -> Result<(), Fault> {
        let mut entries = Vec::new(self.alloc);
        push_entries(self.alloc, &mut entries, script)?;
        self.compile_entries(entries.as_slice(), sink)
    }

    fn work(&mut self, _script: &[u8], _sink: &mut MemorySink) -> Result<(), Fault> {
        Err(Fault::Case)
    }

    fn has(&self, attribute: &str, ty: &str) -> bool {
        self.engine.has(attribute.as_bytes(), ty.as_bytes())
    }

    fn count(&self, access: Access<'_>) -> u64 {
        self.engine.count(&atom_of(access))
    }
}
