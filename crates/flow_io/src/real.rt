ghost use Rattle.std.specs.Prelude.{◌≡◌, ◌<◌, ◌≤◌, ◌⊎◌, true, false, Some, None, [], length, IsSome};
ghost use Rattle.flow_io.specs.Flow.{Rose, HoldsNone, WriteGives};
ghost use Rattle.flow_io.specs.Opened.{left_in};

use crate::{Got, Sink, Source, Took, TraceStore};
use std::fs;
use std::io::{Read, Write};
use std::marker::Model;
use std::rt::Files;

/// The files of the system. It tells none.
#[derive(Drop)]
pub struct FileSource<'a, R: Files> {
    rt: &'a R,
    file: Option<R::File>,
    faults: u64,
}

impl<'a, R: Files> Model for FileSource<'a, R> {
    ghost use Rattle.std.specs.Option.{is_some};
    ghost use Rattle.flow_io.specs.Opened.{Opened};

    ghost Value = { Opened };

    ghost view = { λ a. record { is_open = is_some a.file; faults = a.faults } };
}

impl<'a, R: Files> FileSource<'a, R> {
    pub fn new(rt: &'a R) -> FileSource<'a, R> {
        FileSource {
            rt,
            file: None,
            faults: 0,
        }
    }
}

impl<R: Files> Source for FileSource<'_, R> {
    ghost faults = { λ s. s.faults };

    ghost files = { λ _. None };

    ghost left = { λ s. left_in s.is_open };

    fn start(&mut self, name: &str) -> bool
        ensures later { self.old.faults ≤ self.new.faults }
        ensures quiet { result ≡ true → self.new.faults ≡ self.old.faults }
        ensures cause { result ≡ false
            → Rose self.old.faults self.new.faults ⊎ HoldsNone None name.now }
        ensures nothing { result ≡ false → left_in self.new.is_open ≡ Some [] }
        ensures open { self.new.is_open ≡ result }
    {
        match fs::open(self.rt, name) {
            Ok(file) => {
                self.file = Some(file);
                true
            }
            Err(_) => {
                self.file = None;
                self.faults = self.faults.saturating_add(1);
                false
            }
        }
    }

    fn read(&mut self, buf: &mut [u8]) -> Got {
        match &mut self.file {
            None => Got::End,
            Some(file) => match file.read(buf) {
                Ok(0) => Got::End,
                Ok(count) => Got::Got(count),
                Err(_) => {
                    self.faults = self.faults.saturating_add(1);
                    Got::Failed
                }
            },
        }
    }
}

/// Prints some of the bytes, or counts a fault.
fn print_some<P: Print>(to: &P, faults: &mut u64, bytes: &[u8]) -> Took
    requires { 0 < length bytes.now }
    ensures later { faults.old ≤ faults.new }
    ensures gives { WriteGives None None faults.old faults.new bytes.now result }
{
    match to.write_some(bytes) {
        Ok(0) | Err(_) => {
            *faults = faults.saturating_add(1);
            Took::Failed
        }
        Ok(count) => Took::Took(count),
    }
}

/// The standard output. It tells nothing.
#[derive(Drop)]
pub struct StdoutSink<'a, P: Print> {
    rt: &'a P,
    faults: u64,
}

impl<'a, P: Print> StdoutSink<'a, P> {
    pub fn new(rt: &'a P) -> StdoutSink<'a, P> {
        StdoutSink { rt, faults: 0 }
    }
}

impl<P: Print> Sink for StdoutSink<'_, P> {
    ghost faults = { λ s. s.faults };

    ghost told = { λ _. None };

    ghost ready = { λ _. Unit {0} };

    ghost beside = { λ _. None };

    fn write(&mut self, bytes: &[u8]) -> Took {
        print_some(self.rt, &mut self.faults, bytes)
    }
}

/// The standard error output. It tells nothing.
#[derive(Drop)]
pub struct StderrSink<'a, P: Print> {
    rt: &'a P,
    faults: u64,
}

impl<'a, P: Print> StderrSink<'a, P> {
    pub fn new(rt: &'a P) -> StderrSink<'a, P> {
        StderrSink { rt, faults: 0 }
    }
}

impl<P: Print> Sink for StderrSink<'_, P> {
    ghost faults = { λ s. s.faults };

    ghost told = { λ _. None };

    ghost ready = { λ _. Unit {0} };

    ghost beside = { λ _. None };

    fn write(&mut self, bytes: &[u8]) -> Took {
        print_some(self.rt, &mut self.faults, bytes)
    }
}

/// Files of the system to write, one after another. It tells none.
#[derive(Drop)]
pub struct FileStore<'a, R: Files> {
    rt: &'a R,
    file: Option<R::File>,
    faults: u64,
}

impl<'a, R: Files> FileStore<'a, R> {
    pub fn new(rt: &'a R) -> FileStore<'a, R> {
        FileStore {
            rt,
            file: None,
            faults: 0,
        }
    }
}

impl<R: Files> Sink for FileStore<'_, R> {
    ghost faults = { λ s. s.faults };

    ghost told = { λ _. None };

    ghost ready = { λ s. IsSome s.file };

    ghost beside = { λ _. None };

    fn write(&mut self, bytes: &[u8]) -> Took {
        if let Some(file) = &mut self.file {
            if let Ok(count) = file.write(bytes) {
                if count > 0 {
                    return Took::Took(count);
                }
            }
        }
        self.faults = self.faults.saturating_add(1);
        Took::Failed
    }
}

impl<R: Files> TraceStore for FileStore<'_, R> {
    /// Creates the file, or empties the one of that name.
    fn begin(&mut self, name: &str) -> bool {
        match fs::create(self.rt, name) {
            Ok(file) => {
                self.file = Some(file);
                true
            }
            Err(_) => {
                self.faults = self.faults.saturating_add(1);
                false
            }
        }
    }
}
