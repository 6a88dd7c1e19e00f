ghost use Rattle.std.specs.Prelude.{◌≡◌, ℕ, ◌+◌, ◌∷◌, ◌++◌, ◌<◌, ◌≤◌, ◌↔◌, [], IsNone, IfSome, List, Option, Some, replicate, None, OnOk, OnErr, length, vec_len, vec_capacity, if◌then◌else◌};
ghost use Rattle.machine.specs.declared.view.View.{View};
ghost use Rattle.machine.specs.Ops.{noted};
ghost use Rattle.machine.specs.Steps.{answer_after, begun, is_mid_call, made_after, phase_after, read_after, resting, seen, taken_after};
ghost use Rattle.machine.specs.Invariant.{IsRead};
ghost use Rattle.cursor_word.specs.Shape.{Grid};

use crate::event::Start;
use crate::op::After;
use crate::phase::Phase;
use cursor_word::Shape;
use rail::{Answer, Batch, Entry, Placed, Put, Take};
use std::alloc::{AllocError, Global};
use std::marker::Model;

/// A seat of the machine.
#[derive(Drop)]
pub struct Seat<P> {
    phase: Option<P>,
    entry: Entry,
    made: Batch,
    taken: Batch,
    read: Vec<u64>,
    answer: Option<Answer>,
    trail: Vec<u64>,
}

impl<P> Model for Seat<P> {
    ghost use Rattle.machine.specs.declared.view.View.{View};

    ghost Value = { View P };

    ghost view = { λ s. record {
      phase = s.phase;
      entry = s.entry;
      made = s.made.items;
      taken = s.taken.items;
      read = s.read.items;
      answer = s.answer;
      trail = s.trail.items;
    } };
}

impl<P: Phase> Seat<P> {
    /// A seat that has done nothing.
    pub fn new(alloc: Global, shape: &Shape) -> Seat<P>
        ensures { result ≡ resting P shape.now }
    {
        Seat {
            phase: None,
            entry: zeros(shape),
            made: Batch::new(alloc),
            taken: Batch::new(alloc),
            read: Vec::new(alloc),
            answer: None,
            trail: Vec::new(alloc),
        }
    }

    /// The last answer.
    pub fn answer(&self) -> Option<&Answer>
        ensures none { IsNone result ↔ (self.now.answer ≡ None) }
        ensures some { IfSome result (λ answer. self.now.answer ≡ Some answer.now) }
    {
        self.answer.as_ref()
    }

    /// Whether the seat is in a call.
    pub fn mid_call(&self) -> bool
        ensures { result ≡ is_mid_call self.now }
    {
        self.phase.is_some()
    }

    /// What its puts had accepted.
    pub fn made(&self) -> &Batch
        ensures { result.now.items ≡ self.now.made }
    {
        &self.made
    }

    /// What its takes answered.
    pub fn taken(&self) -> &Batch
        ensures { result.now.items ≡ self.now.taken }
    {
        &self.taken
    }

    /// What the steps of its present or last call found.
    pub fn trail(&self) -> &[u64]
        ensures { result.now ≡ self.now.trail }
    {
        self.trail.as_slice()
    }

    /// The phase at the seat's turn, where a seat at rest begins the call that is named.
    pub fn phase_at_turn(&self, shape: &Shape, start: &Start) -> Option<P>
        ensures { result ≡ (begun P.table shape.now self.now self.now.phase start.now).phase }
    {
        match (self.phase, *start) {
            (Some(phase), _) => Some(phase),
            (None, Start::Put(_)) => Some(P::first_put()),
            (None, Start::Take) => Some(P::first_take(shape, &self.taken)),
            (None, Start::Go) => None,
        }
    }

    /// The entry in hand at the seat's turn.
    pub fn entry_at_turn(&self, shape: &Shape, start: &Start) -> Entry
        ensures { result ≡ (begun P.table shape.now self.now self.now.phase start.now).entry }
    {
        match (self.phase, *start) {
            (None, Start::Put(entry)) => entry,
            _ => self.entry,
        }
    }

    /// The seat's turn, whose step found `old`. Memory is taken first.
    pub fn note(
        &mut self,
        shape: &Shape,
        start: &Start,
        phase: &P,
        entry: Entry,
        old: u64,
    ) -> Result<(), AllocError>
        requires phase { (begun P.table shape.now self.old self.old.phase start.now).phase
            ≡ Some phase.now }
        requires entry { (begun P.table shape.now self.old self.old.phase start.now).entry ≡ entry }
        requires width { length entry ≡ shape.now.width }
        requires range { P.table.IsInRange shape.now phase.now }
        requires found { P.table.FindsFit phase.now old }
        requires read { let turns = begun P.table shape.now self.old self.old.phase start.now in
            IsRead shape.now (P.table.after shape.now phase.now old) turns.read }
        ensures ok { let turns = begun P.table shape.now self.old self.old.phase start.now in
            OnOk result (self.new ≡ seen P.table shape.now turns phase.now old) }
        ensures err { OnErr result (self.new ≡ self.old) }
    {
        self.trail.reserve(1)?;
        self.read.reserve(1)?;
        self.made.reserve_one()?;
        self.taken.reserve_one()?;
        begin_trail(&mut self.trail, &self.phase, start);
        begin_read(&mut self.read, &self.phase, start);
        let value = phase.want(shape, entry.words()).noted(old);
        let next = phase.after(shape, old);
        keep_made(&mut self.made, &next, entry);
        keep_taken(&mut self.taken, shape, &next, self.read.as_slice());
        if phase.word_read().is_some() {
            push(&mut self.read, old);
        }
        push(&mut self.trail, value);
        self.entry = entry;
        self.answer = answer_after(self.answer, &next);
        self.phase = phase_after(next);
        Ok(())
    }
}

// An entry of zeros.
fn zeros(shape: &Shape) -> Entry
    ensures { result ≡ replicate shape.now.width 0 }
{
    let width = shape.width() as usize;
    let all = [0; 8];
    Entry::new(&all[..width])
}

// Clears the trail where a call begins.
fn begin_trail<P: Phase>(trail: &mut Vec<u64>, phase: &Option<P>, start: &Start)
    ensures items { (shape : Grid) (v : View P) → v.trail ≡ trail.old.items
        → (begun P.table shape v phase.now start.now).trail ≡ trail.new.items }
    ensures len { vec_len trail.new ≤ vec_len trail.old }
    ensures capacity { vec_capacity trail.new ≡ vec_capacity trail.old }
{
    match (*phase, *start) {
        (None, Start::Put(_)) => trail.clear(),
        (None, Start::Take) => trail.clear(),
        _ => {}
    }
}

// Clears the words read where a take begins.
fn begin_read<P: Phase>(read: &mut Vec<u64>, phase: &Option<P>, start: &Start)
    ensures items { (shape : Grid) (v : View P) → v.read ≡ read.old.items
        → (begun P.table shape v phase.now start.now).read ≡ read.new.items }
    ensures len { vec_len read.new ≤ vec_len read.old }
    ensures capacity { vec_capacity read.new ≡ vec_capacity read.old }
{
    match (*phase, *start) {
        (None, Start::Take) => read.clear(),
        _ => {}
    }
}

// The phase after a step.
fn phase_after<P: Copy>(after: After<P>) -> Option<P>
    ensures { result ≡ phase_after after }
{
    match after {
        After::Next(phase) => Some(phase),
        After::Done(_) => None,
    }
}

// The last answer after a step.
fn answer_after<P: Copy>(answer: Option<Answer>, after: &After<P>) -> Option<Answer>
    ensures { result ≡ answer_after answer after.now }
{
    match *after {
        After::Next(_) => answer,
        After::Done(given) => Some(given),
    }
}

// Adds the entry of a put that answers Ok.
fn keep_made<P: Copy>(made: &mut Batch, after: &After<P>, entry: Entry)
    requires room { 1 ≤ made.old.spare }
    ensures { made.new.items ≡ made_after made.old.items entry after.now }
{
    match *after {
        After::Done(Answer::Put(Put::Ok(place))) => made.push(Placed {
            place,
            words: entry,
        }),
        _ => {}
    }
}

// Adds the words read of a take that answers Ok.
fn keep_taken<P: Copy>(taken: &mut Batch, shape: &Shape, after: &After<P>, read: &[u64])
    requires read { IsRead shape.now after.now read.now }
    requires room { 1 ≤ taken.old.spare }
    ensures { taken.new.items ≡ taken_after taken.old.items read.now after.now }
{
    let _width = shape.width();
    match *after {
        After::Done(Answer::Take(Take::Ok(place))) => taken.push(Placed {
            place,
            words: Entry::new(read),
        }),
        _ => {}
    }
}

// Puts a value at the end, where there is room.
fn push(values: &mut Vec<u64>, value: u64)
    requires room { vec_len values.old < vec_capacity values.old }
    ensures { values.new.items ≡ values.old.items ++ value ∷ [] }
{
    match values.push(value) {
        Ok(()) => {}
        Err(_) => unreachable!(),
    }
}
