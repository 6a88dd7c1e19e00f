//! The queue with a sole consumer, stepped by hand.
ghost use Rattle.std.specs.Prelude.{◌≡◌, IsTrue};
ghost use Rattle.machine.specs.Steps.{IsWide};
ghost use Rattle.sole_core.specs.Table.{MayBegin};

use cursor_word::{Cursor, Shape};
use rail::{Batch, Entry, Put, Take};
use sole_core::{Answer, Event, SoleState, Start};
use std::alloc::{AllocError, Global};
use std::process::Abort;

/// A state that is stepped by hand.
#[derive(Drop)]
pub struct Bench {
    pub shape: Shape,
    pub state: SoleState,
    ghost same: { state.shape ≡ shape },
}

impl Bench {
    pub fn new(alloc: Global, shape: Shape) -> Result<Bench, AllocError> {
        let state = SoleState::new(alloc, shape)?;
        Ok(Bench { shape, state })
    }

    /// One event.
    pub fn event(&mut self, rt: &impl Abort, seat: u64, start: Start) -> Result<(), AllocError> {
        assert!(rt; seat < self.shape.seats());
        assert!(rt; is_wide(&self.shape, &start));
        assert!(rt; may_begin(&self.shape, seat, &start));
        assert!(rt; (self.state.made(seat).len() as u64) < self.shape.most_puts());
        self.state.step(&Event { seat, start })
    }

    /// The rest of a seat's call.
    pub fn finish(&mut self, rt: &impl Abort, seat: u64) -> Result<(), AllocError> {
        assert!(rt; seat < self.shape.seats());
        assert!(rt; (self.state.made(seat).len() as u64) < self.shape.most_puts());
        self.state.finish(seat)
    }

    /// A whole call, and its answer.
    pub fn call(
        &mut self,
        rt: &impl Abort,
        seat: u64,
        start: Start,
    ) -> Result<Option<Answer>, AllocError> {
        self.event(rt, seat, start)?;
        self.finish(rt, seat)?;
        Ok(self.answer(rt, seat))
    }

    pub fn answer(&self, rt: &impl Abort, seat: u64) -> Option<Answer> {
        assert!(rt; seat < self.shape.seats());
        self.state.answer(seat).copied()
    }

    pub fn mid_call(&self, rt: &impl Abort, seat: u64) -> bool {
        assert!(rt; seat < self.shape.seats());
        self.state.mid_call(seat)
    }

    pub fn made(&self, rt: &impl Abort, seat: u64) -> &Batch {
        assert!(rt; seat < self.shape.seats());
        self.state.made(seat)
    }

    pub fn taken(&self, rt: &impl Abort, seat: u64) -> &Batch {
        assert!(rt; seat < self.shape.seats());
        self.state.taken(seat)
    }

    /// How many steps the seat's present or last call has done.
    pub fn steps(&self, rt: &impl Abort, seat: u64) -> usize {
        assert!(rt; seat < self.shape.seats());
        self.state.trail(seat).len()
    }
}

// Whether an entry that is named has as many words as the shape says.
fn is_wide(shape: &Shape, start: &Start) -> bool
    ensures { IsTrue result → IsWide shape.now start.now }
{
    match start {
        Start::Put(entry) => entry.words().len() as u64 == shape.width(),
        _ => true,
    }
}

// Whether a seat may begin a call: the first alone may take.
fn may_begin(shape: &Shape, seat: u64, start: &Start) -> bool
    ensures { IsTrue result → MayBegin shape.now seat start.now }
{
    match start {
        Start::Take => seat == 0,
        _ => true,
    }
}

/// A put of an entry of as many such words.
pub fn put(shape: &Shape, word: u64) -> Start {
    let width = shape.width() as usize;
    let words = [word; 8];
    Start::Put(Entry::new(&words[..width]))
}

pub fn cursor(block: u64, offset: u64) -> Cursor {
    Cursor { block, offset }
}

pub fn put_ok(place: u64) -> Option<Answer> {
    Some(Answer::Put(Put::Ok(place)))
}

pub fn take_ok(place: u64) -> Option<Answer> {
    Some(Answer::Take(Take::Ok(place)))
}

pub fn empty(place: u64) -> Option<Answer> {
    Some(Answer::Take(Take::Empty { place }))
}
