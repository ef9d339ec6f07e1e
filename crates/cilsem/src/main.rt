//! `cilsem`, over the real streams and files.
#![tactic(auto)]

use cil_program::command_line::command;
use cil_stream::{ReaderSource, WriterSink};
use std::io::BufWriter;
use std::process::ExitCode;
use std::{env, io};

fn main(rt: HostRuntime) -> io::Result<ExitCode> {
    let words: Vec<String> = env::args(&rt)?.collect(rt.alloc())?;
    let mut source = ReaderSource::new(rt.reader());
    let mut out = WriterSink::new(BufWriter::new(rt.alloc(), io::writer(&rt))?);
    let mut err = WriterSink::new(rt.stderr());
    let status = command(
        &rt,
        rt.alloc(),
        words.as_slice(),
        &mut source,
        &mut out,
        &mut err,
    );
    Ok(ExitCode::from(status))
}
