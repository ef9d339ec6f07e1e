//! Makes one trial of a session: its devices fail, or memory runs out. It reads the case from standard input, and prints what came of it.
#![tactic(auto)]

mod calls;
mod delta;
mod engine;
mod plain;
mod replies;
mod work;

use crate::engine::Makers;
use cil_trial_cases::{Fault, answer};
use std::io;
use std::io::{Read, Write};
use std::process::ExitCode;

fn main(rt: HostRuntime) -> io::Result<ExitCode> {
    let mut text = Vec::new(rt.alloc());
    rt.reader().read_to_end(&mut text)?;
    let makers = Makers { alloc: rt.alloc() };
    match answer(rt.alloc(), &makers, text.as_slice()) {
        Ok(report) => {
            io::writer(&rt).write_all(report.bytes())?;
            Ok(ExitCode::from(0))
        }
        Err(Fault::Memory) => Ok(ExitCode::from(1)),
        Err(Fault::Case) => Ok(ExitCode::from(2)),
    }
}
