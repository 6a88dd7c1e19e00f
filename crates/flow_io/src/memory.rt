ghost use Rattle.std.specs.Prelude.{◌≡◌, ℕ, ◌+◌, ◌-◌, ◌<◌, ◌^◌, ◌≤◌, ◌==◌, ◌||◌, true, false, if◌then◌else◌, Option, Some, None, List, [], ◌++◌, length, take, drop, min, MatchOption, vec_len, vec_capacity, ◌↔◌, ◌⊎◌, IfOk};
ghost use Rattle.flow_io.specs.Flow.{Rose, file_named, HoldsNone, BeginsFile, ReadGives, WriteGives};
ghost use Rattle.flow_io.specs.Held.{shown, bytes_at, is_due, after_call, unused};
ghost use Rattle.flow_io.specs.declared.flow.Got.{Got};
ghost use Rattle.flow_io.specs.declared.flow.Took.{Took};

use crate::failing_calls::FailingCalls;
use crate::{Got, Sink, Source, Took};
use std::alloc::{AllocError, Global};
use std::marker::Model;

/// Files in memory.
#[derive(Drop)]
pub struct MemSource {
    held: Vec<(String, Vec<u8>)>,
    at: usize,
    from: usize,
    most: usize,
    failing: FailingCalls,
}

impl Model for MemSource {
    ghost use Rattle.std.specs.Prelude.{ℕ, ◌<◌, drop};
    ghost use Rattle.flow_io.specs.Held.{HeldFiles, shown, bytes_at};

    ghost Value = { HeldFiles };

    ghost view = { λ a. record {
      files = shown a.held.items;
      left = drop a.from (bytes_at (shown a.held.items) a.at);
      most = a.most;
      failing = a.failing;
    } };

    ghost invariant = { λ a. 0 < a.most };
}

impl MemSource {
    /// A source of these files that gives at most `most` bytes a read, and fails at the calls of
    /// these numbers.
    pub fn new(files: Vec<(String, Vec<u8>)>, most: usize, fails: Vec<u64>) -> MemSource
        requires { 0 < most }
        ensures { result ≡ record {
          files = shown files.items;
          left = [];
          most = most;
          failing = unused fails.items;
        } }
    {
        MemSource {
            at: files.len(),
            held: files,
            from: 0,
            most,
            failing: FailingCalls::new(fails),
        }
    }
}

/// The place of the first file of a name.
fn find_file(files: &[(String, Vec<u8>)], name: &str) -> Option<usize>
    ensures { MatchOption result (file_named (shown files.now) name.now ≡ None)
        (λ i. file_named (shown files.now) name.now ≡ Some (bytes_at (shown files.now) i)) }
{
    for (i, file) in files.iter().enumerate() {
        if file.0.as_str() == name {
            return Some(i);
        }
    }
    None
}

/// The bytes of a file from a place on.
fn bytes_from(files: &[(String, Vec<u8>)], at: usize, from: usize) -> &[u8]
    ensures left { result.now ≡ drop from (bytes_at (shown files.now) at) }
    ensures place { 0 < length result.now → from + length result.now < 2 ^ 64 }
{
    if at >= files.len() {
        return &[];
    }
    let bytes = files[at].1.as_slice();
    if from >= bytes.len() {
        return &[];
    }
    &bytes[from..]
}

/// Copies as many bytes as there are, as fit and as are allowed.
fn copy_some(from: &[u8], buf: &mut [u8], most: usize) -> usize
    ensures count { result ≡ min most (min (length buf.old) (length from.now)) }
    ensures front { take result buf.new ≡ take result from.now }
    ensures len { length buf.new ≡ length buf.old }
{
    let count = most.min(buf.len().min(from.len()));
    buf[..count].copy_from_slice(&from[..count]);
    count
}

impl Source for MemSource {
    ghost faults = { λ s. s.failing.faults };

    ghost files = { λ s. Some s.files };

    ghost left = { λ s. Some s.left };

    fn start(&mut self, name: &str) -> bool
        ensures later { self.old.failing.faults ≤ self.new.failing.faults }
        ensures files { Some self.new.files ≡ Some self.old.files }
        ensures quiet { result ≡ true → self.new.failing.faults ≡ self.old.failing.faults }
        ensures found { result ≡ true
            → BeginsFile (Some self.old.files) name.now (Some self.new.left) }
        ensures cause { result ≡ false → Rose self.old.failing.faults self.new.failing.faults
            ⊎ HoldsNone (Some self.old.files) name.now }
        ensures nothing { result ≡ false → Some self.new.left ≡ Some [] }
        ensures exactly { (result ≡ false) ↔ ((is_due self.old.failing ≡ true)
            ⊎ (file_named self.old.files name.now ≡ None)) }
        ensures failing { self.new.failing
            ≡ after_call self.old.failing (is_due self.old.failing) }
        ensures most { self.new.most ≡ self.old.most }
    {
        let due = self.failing.is_due();
        self.failing.count(due);
        self.from = 0;
        self.at = self.held.len();
        if due {
            return false;
        }
        match find_file(&self.held, name) {
            Some(at) => {
                self.at = at;
                true
            }
            None => false,
        }
    }

    fn read(&mut self, buf: &mut [u8]) -> Got
        requires { 0 < length buf.old }
        ensures later { self.old.failing.faults ≤ self.new.failing.faults }
        ensures files { Some self.new.files ≡ Some self.old.files }
        ensures gives { ReadGives (Some self.old.left) (Some self.new.left)
            self.old.failing.faults self.new.failing.faults buf.new result }
        ensures exactly { result ≡ (if is_due self.old.failing then Got.Failed
            else (if length self.old.left == 0 then Got.End
            else Got.Got (min self.old.most (min (length buf.old) (length self.old.left))))) }
        ensures failing { self.new.failing
            ≡ after_call self.old.failing (is_due self.old.failing) }
        ensures most { self.new.most ≡ self.old.most }
    {
        let due = self.failing.is_due();
        self.failing.count(due);
        if due {
            return Got::Failed;
        }
        let left = bytes_from(&self.held, self.at, self.from);
        if left.is_empty() {
            return Got::End;
        }
        let count = copy_some(left, buf, self.most);
        self.from += count;
        Got::Got(count)
    }
}

/// Bytes taken into memory.
#[derive(Drop)]
pub struct MemSink {
    taken: Vec<u8>,
    room: usize,
    most: usize,
    failing: FailingCalls,
}

impl Model for MemSink {
    ghost use Rattle.std.specs.Prelude.{ℕ, ◌<◌, ◌≤◌, vec_len, vec_capacity};
    ghost use Rattle.flow_io.specs.Held.{HeldBytes};

    ghost Value = { HeldBytes };

    ghost view = { λ a. record {
      bytes = a.taken.items;
      room = a.room;
      most = a.most;
      failing = a.failing;
    } };

    ghost invariant = { λ a. (0 < a.most) × (vec_len a.taken ≤ a.room)
        × (a.room ≤ vec_capacity a.taken) };
}

impl MemSink {
    /// A sink with room for so many bytes that takes at most `most` a write, and fails at the calls
    /// of these numbers.
    pub fn new(
        alloc: Global,
        room: usize,
        most: usize,
        fails: Vec<u64>,
    ) -> Result<MemSink, AllocError>
        requires { 0 < most }
        ensures { IfOk result (λ sink. sink ≡ record {
          bytes = [];
          room = room;
          most = most;
          failing = unused fails.items;
        }) }
    {
        Ok(MemSink {
            taken: Vec::with_capacity(alloc, room)?,
            room,
            most,
            failing: FailingCalls::new(fails),
        })
    }

    /// The bytes taken so far.
    pub fn bytes(&self) -> &[u8]
        ensures { result.now ≡ self.now.bytes }
    {
        self.taken.as_slice()
    }
}

/// Takes bytes for which there is room already.
pub(crate) fn take_bytes(taken: &mut Vec<u8>, bytes: &[u8])
    requires { vec_len taken.old + length bytes.now ≤ vec_capacity taken.old }
    ensures items { taken.new.items ≡ taken.old.items ++ bytes.now }
    ensures len { vec_len taken.new ≡ vec_len taken.old + length bytes.now }
    ensures capacity { vec_capacity taken.old ≤ vec_capacity taken.new }
{
    let _ = taken.extend_from_slice(bytes);
}

impl Sink for MemSink {
    ghost faults = { λ s. s.failing.faults };

    ghost told = { λ s. Some s.bytes };

    ghost ready = { λ _. Unit {0} };

    ghost beside = { λ _. None };

    fn write(&mut self, bytes: &[u8]) -> Took
        requires { 0 < length bytes.now }
        ensures later { self.old.failing.faults ≤ self.new.failing.faults }
        ensures gives { WriteGives (Some self.old.bytes) (Some self.new.bytes)
            self.old.failing.faults self.new.failing.faults bytes.now result }
        ensures exactly { let room = self.old.room - length self.old.bytes in
            result ≡ (if is_due self.old.failing || room == 0 then Took.Failed
            else Took.Took (min self.old.most (min (length bytes.now) room))) }
        ensures failing { let room = self.old.room - length self.old.bytes in
            self.new.failing
            ≡ after_call self.old.failing (is_due self.old.failing || room == 0) }
        ensures room { self.new.room ≡ self.old.room }
        ensures most { self.new.most ≡ self.old.most }
    {
        let room = self.room - self.taken.len();
        let fails = self.failing.is_due() || room == 0;
        self.failing.count(fails);
        if fails {
            return Took::Failed;
        }
        let count = self.most.min(bytes.len().min(room));
        take_bytes(&mut self.taken, &bytes[..count]);
        Took::Took(count)
    }
}
