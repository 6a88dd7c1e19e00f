//! Reads a trace, checks that each worker's spans agree, and writes what they add up to.
#![tactic(auto)]

use flow_io::{ArgumentsError, FileSource, StderrSink, StdoutSink, read_arguments};
use std::process::ExitCode;
use trace_read::trace_top;

fn main(rt: HostRuntime) -> ExitCode {
    let alloc = rt.alloc();
    let words = match read_arguments(&rt, alloc) {
        Ok(words) => words,
        Err(ArgumentsError::Memory) => return ExitCode::from(3),
        Err(ArgumentsError::Refused) => return ExitCode::from(2),
    };
    let mut files = FileSource::new(&rt);
    let mut out = StdoutSink::new(&rt);
    let error = rt.stderr();
    let mut messages = StderrSink::new(&error);
    let checked = trace_top(alloc, words.as_slice(), &mut files, &mut out, &mut messages);
    ExitCode::from(checked.status)
}
