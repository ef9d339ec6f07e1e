//! The line of the greatest number, and how faults are printed for a programmer.

use crate::shown::shown;
use cil_program::script::outcome::SessionFault;
use cil_program::script::reply::write_script_line;
use cil_store::WriteFault;
use cil_stream::{MemorySink, SinkFault, SourceFault};
use std::alloc::Global;
use std::fmt::Display;

// Whether a fault is printed so.
fn is_printed<T: Display>(alloc: Global, fault: &T, want: &str) -> bool {
    match format!(in alloc; "{fault}") {
        Ok(printed) => printed.as_str() == want,
        Err(_) => false,
    }
}

#[test]
fn greatest_number_and_printed_faults(rt: HostRuntime) {
    let alloc = rt.alloc();
    let mut sink = MemorySink::new(alloc);
    let is_written = write_script_line(&mut sink, u64::MAX).is_ok();
    let same = is_written && shown(sink.bytes()) == "script 18446744073709551616\n";
    assert!(rt; same);
    let (read, write) = (
        SessionFault::from(SourceFault),
        SessionFault::from(SinkFault),
    );
    let same = is_printed(alloc, &read, "the input failed")
        && is_printed(alloc, &write, "the output failed")
        && is_printed(alloc, &WriteFault::Sink, "the output failed")
        && is_printed(alloc, &WriteFault::Memory, "out of memory");
    assert!(rt; same);
}
