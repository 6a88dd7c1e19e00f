ghost use Rattle.std.specs.Prelude.{◌≡◌, ℕ, ◌+◌, ◌-◌, ◌<◌, ◌≤◌, ◌==◌, ◌||◌, ◌↔◌, true, false, not, if◌then◌else◌, Option, Some, None, List, [], ◌∷◌, ◌++◌, length, take, min, MatchOption, vec_len, vec_capacity, string_len, string_bytes, IfOk, IfSome, IsNone, IsSome, slice_index_or};
ghost use Rattle.std.specs.Option.{option_to_list};
ghost use Rattle.std.specs.List.{AllByRecursion};
ghost use Rattle.flow_io.specs.Flow.{Rose, WriteGives, BeginsDocument};
ghost use Rattle.flow_io.specs.Held.{is_due, after_call, unused, documents_of, last_bytes, last_name, is_refused};
ghost use Rattle.flow_io.specs.Stored.{IsUnused, begun_of, document_of};
ghost use Rattle.flow_io.specs.declared.flow.Took.{Took};

use crate::failing_calls::FailingCalls;
use crate::memory::take_bytes;
use crate::{Sink, Took, TraceStore};
use std::alloc::{AllocError, Global};
use std::marker::Model;

/// A document with its name.
#[derive(Drop)]
pub struct Document {
    name: String,
    bytes: Vec<u8>,
}

/// Documents in memory.
#[derive(Drop)]
pub struct MemStore {
    earlier: Vec<Document>,
    last: Option<Document>,
    unused: Vec<Document>,
    room: usize,
    most: usize,
    failing: FailingCalls,
    full: usize,
}

impl Model for MemStore {
    ghost use Rattle.std.specs.Prelude.{ℕ, ◌<◌, vec_len, vec_capacity};
    ghost use Rattle.flow_io.specs.Held.{HeldDocuments};

    ghost Value = { HeldDocuments };

    ghost use Rattle.flow_io.specs.Stored.{begun_of, HasRoom};

    ghost view = { λ a. record {
      begun = begun_of a.earlier.items a.last;
      spare = vec_len a.unused;
      room = a.room;
      most = a.most;
      failing = a.failing;
    } };

    ghost invariant = { λ a. (0 < a.most)
        × HasRoom a.earlier.items a.unused.items a.last a.room a.full (vec_capacity a.earlier) };
}

/// A document without a name and bytes, with room for both.
fn empty_document(alloc: Global, room: usize) -> Result<Document, AllocError>
    ensures { IfOk result (IsUnused room) }
{
    Ok(Document {
        name: String::with_capacity(alloc, room)?,
        bytes: Vec::with_capacity(alloc, room)?,
    })
}

fn empty_documents(alloc: Global, count: usize, room: usize) -> Result<Vec<Document>, AllocError>
    ensures len { IfOk result (λ all. vec_len all ≡ count) }
    ensures unused { IfOk result (λ all. AllByRecursion (IsUnused room) all.items) }
{
    let mut all = Vec::new(alloc);
    for _ in 0..count {
        all.push(empty_document(alloc, room)?)?;
    }
    Ok(all)
}

/// Puts a document behind the earlier ones, where there is a place for it.
fn keep(earlier: &mut Vec<Document>, document: Option<Document>)
    requires { vec_len earlier.old < vec_capacity earlier.old }
    ensures items { earlier.new.items ≡ earlier.old.items ++ option_to_list document }
    ensures capacity { vec_capacity earlier.old ≤ vec_capacity earlier.new }
{
    if let Some(document) = document {
        let _ = earlier.push(document);
    }
}

fn document_at<'a>(
    earlier: &'a [Document],
    last: &'a Option<Document>,
    index: usize,
) -> Option<&'a Document>
    requires { MatchOption last.now (earlier.now ≡ []) (λ _. Unit {0}) }
    ensures none { IsNone result
        ↔ (length (documents_of (begun_of earlier.now last.now)) ≤ index) }
    ensures document { IfSome result (λ d. document_of d.now
        ≡ slice_index_or (documents_of (begun_of earlier.now last.now)) index ([], [])) }
{
    if index < earlier.len() {
        return Some(&earlier[index]);
    }
    if index == earlier.len() {
        return last.as_ref();
    }
    None
}

impl MemStore {
    /// A store with room for so many documents and for so many bytes, those of names among them,
    /// that takes at most `most` a write, and fails at the calls of these numbers.
    pub fn new(
        alloc: Global,
        documents: usize,
        room: usize,
        most: usize,
        fails: Vec<u64>,
    ) -> Result<MemStore, AllocError>
        requires { 0 < most }
        ensures { IfOk result (λ store. store ≡ record {
          begun = None;
          spare = documents;
          room = room;
          most = most;
          failing = unused fails.items;
        }) }
    {
        Ok(MemStore {
            earlier: Vec::with_capacity(alloc, documents)?,
            last: None,
            unused: empty_documents(alloc, documents, room)?,
            room,
            most,
            failing: FailingCalls::new(fails),
            full: room,
        })
    }

    /// How many documents were begun.
    pub fn documents(&self) -> usize
        ensures { result ≡ length (documents_of self.now.begun) }
    {
        match &self.last {
            None => 0,
            Some(_) => self.earlier.len() + 1,
        }
    }

    /// The name of a document.
    pub fn name(&self, index: usize) -> Option<&str>
        ensures none { IsNone result ↔ (length (documents_of self.now.begun) ≤ index) }
        ensures name { IfSome result (λ name. name.now
            ≡ (slice_index_or (documents_of self.now.begun) index ([], [])).0) }
    {
        match document_at(&self.earlier, &self.last, index) {
            None => None,
            Some(document) => Some(document.name.as_str()),
        }
    }

    /// The bytes of a document.
    pub fn bytes(&self, index: usize) -> Option<&[u8]>
        ensures none { IsNone result ↔ (length (documents_of self.now.begun) ≤ index) }
        ensures bytes { IfSome result (λ bytes. bytes.now
            ≡ (slice_index_or (documents_of self.now.begun) index ([], [])).1) }
    {
        match document_at(&self.earlier, &self.last, index) {
            None => None,
            Some(document) => Some(document.bytes.as_slice()),
        }
    }
}

impl Sink for MemStore {
    ghost faults = { λ s. s.failing.faults };

    ghost told = { λ s. Some (last_bytes s.begun) };

    ghost ready = { λ s. IsSome s.begun };

    ghost beside = { λ s. last_name s.begun };

    fn write(&mut self, bytes: &[u8]) -> Took
        requires some { 0 < length bytes.now }
        requires ready { IsSome self.old.begun }
        ensures later { self.old.failing.faults ≤ self.new.failing.faults }
        ensures ready { IsSome self.new.begun }
        ensures beside { last_name self.new.begun ≡ last_name self.old.begun }
        ensures gives { WriteGives
            (Some (last_bytes self.old.begun)) (Some (last_bytes self.new.begun))
            self.old.failing.faults self.new.failing.faults bytes.now result }
        ensures exactly { result ≡ (if is_due self.old.failing || self.old.room == 0
            then Took.Failed
            else Took.Took (min self.old.most (min (length bytes.now) self.old.room))) }
        ensures failing { self.new.failing
            ≡ after_call self.old.failing (is_due self.old.failing || self.old.room == 0) }
        ensures room { self.new.room
            + (length (last_bytes self.new.begun) - length (last_bytes self.old.begun))
            ≡ self.old.room }
        ensures spare { self.new.spare ≡ self.old.spare }
        ensures most { self.new.most ≡ self.old.most }
    {
        let fails = self.failing.is_due() || self.room == 0;
        self.failing.count(fails);
        if fails {
            return Took::Failed;
        }
        let count = self.most.min(bytes.len().min(self.room));
        if let Some(document) = &mut self.last {
            take_bytes(&mut document.bytes, &bytes[..count]);
        }
        self.room -= count;
        Took::Took(count)
    }
}

impl TraceStore for MemStore {
    fn begin(&mut self, name: &str) -> bool
        ensures later { self.old.failing.faults ≤ self.new.failing.faults }
        ensures stays_ready { IsSome self.old.begun → IsSome self.new.begun }
        ensures ready { result ≡ true → IsSome self.new.begun }
        ensures quiet { result ≡ true → self.new.failing.faults ≡ self.old.failing.faults }
        ensures begun { result ≡ true → BeginsDocument
            (Some (last_bytes self.old.begun)) (last_name self.old.begun)
            (Some (last_bytes self.new.begun)) (last_name self.new.begun) name.now }
        ensures cause { result ≡ false → Rose self.old.failing.faults self.new.failing.faults }
        ensures told { result ≡ false
            → Some (last_bytes self.new.begun) ≡ Some (last_bytes self.old.begun) }
        ensures beside { result ≡ false → last_name self.new.begun ≡ last_name self.old.begun }
        ensures exactly { result ≡ not (is_refused self.old name.now) }
        ensures failing { self.new.failing ≡ after_call self.old.failing (not result) }
        ensures room { result ≡ true → self.new.room + length name.now ≡ self.old.room }
        ensures spare { result ≡ true → self.new.spare + 1 ≡ self.old.spare }
        ensures refused { result ≡ false → (self.new.begun ≡ self.old.begun)
            × (self.new.room ≡ self.old.room) × (self.new.spare ≡ self.old.spare) }
        ensures most { self.new.most ≡ self.old.most }
    {
        let refused = self.failing.is_due() || (self.unused.is_empty() || self.room < name.len());
        self.failing.count(refused);
        if refused {
            return false;
        }
        let Some(mut document) = self.unused.pop() else {
            return false;
        };
        let _ = document.name.push_str(name);
        self.room -= name.len();
        keep(&mut self.earlier, self.last.replace(document));
        true
    }
}
