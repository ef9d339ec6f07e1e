//! The session of the engine that compiles anew, over the real streams, to compare with the session of `cilsem`. It reads no words.
#![tactic(auto)]

use cil_session::outcome::exit_status;
use cil_session::session::session;
use cil_store::Plain;
use cil_stream::{ReaderSource, WriterSink};
use std::io;
use std::io::BufWriter;
use std::process::ExitCode;

fn main(rt: HostRuntime) -> io::Result<ExitCode> {
    let mut source = ReaderSource::new(rt.reader());
    let mut out = WriterSink::new(BufWriter::new(rt.alloc(), io::writer(&rt))?);
    let mut engine = Plain::new(rt.alloc());
    let end = session(rt.alloc(), &mut source, &mut out, &mut engine);
    Ok(ExitCode::from(exit_status(end)))
}
