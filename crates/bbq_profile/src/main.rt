//! Counts the words of files by workers that note their spans in a queue, and stores a trace of it.
#![tactic(auto)]

use flow_io::{
    ArgumentsError, FileSource, FileStore, RealClock, StderrSink, StdoutSink, read_arguments,
};
use profile_cli::{BbqRails, profile};
use std::process::ExitCode;
use word_workers::NoGate;

fn main(rt: HostRuntime) -> ExitCode {
    let alloc = rt.alloc();
    let words = match read_arguments(&rt, alloc) {
        Ok(words) => words,
        Err(ArgumentsError::Memory) => return ExitCode::from(3),
        Err(ArgumentsError::Refused) => return ExitCode::from(2),
    };
    let mut files = FileSource::new(&rt);
    let mut out = StdoutSink::new(&rt);
    let error = rt.stderr();
    let mut messages = StderrSink::new(&error);
    let mut trace = FileStore::new(&rt);
    let clock = RealClock::new(&rt);
    let report = profile(
        &rt,
        alloc,
        words.as_slice(),
        &mut files,
        &mut out,
        &mut messages,
        &mut trace,
        &clock,
        &NoGate,
        &BbqRails,
    );
    ExitCode::from(report.status)
}
