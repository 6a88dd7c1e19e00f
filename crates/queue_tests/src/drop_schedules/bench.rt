//! The queue that drops its oldest entries, stepped by hand.
ghost use Rattle.std.specs.Prelude.{◌≡◌};

use crate::schedules::{MOST_STEPS, Part, are_apart, cursor, is_wide};
use cursor_word::Shape;
use drop_core::{Answer, DropState, Event, Start};
use rail::{Placed, Take};
use std::alloc::{AllocError, Global};
use std::process::Abort;
use std::test::Fail;

/// A state that is stepped by hand.
#[derive(Drop)]
pub struct Bench {
    shape: Shape,
    state: DropState,
    ghost same: { state.shape ≡ shape },
}

impl Bench {
    pub fn new(alloc: Global, shape: Shape) -> Result<Bench, AllocError> {
        let state = DropState::new(alloc, shape)?;
        Ok(Bench { shape, state })
    }

    /// One event.
    pub fn event(&mut self, rt: &impl Abort, seat: u64, start: Start) -> Result<(), AllocError> {
        assert!(rt; seat < self.shape.seats());
        assert!(rt; is_wide(&self.shape, &start));
        assert!(rt; self.state.made(seat).len() < 1000);
        self.state.step(&Event { seat, start })
    }

    /// Some steps of a seat: what they find, and the answer where they end the call.
    pub fn part(&mut self, rt: &impl Abort, part: &Part) -> Result<(), AllocError> {
        let seat = part.seat;
        let before = match part.start {
            Start::Go => self.trail(rt, seat).len(),
            _ => 0,
        };
        let steps = part.found.map_or(MOST_STEPS, |found| found.len() as u64);
        self.event(rt, seat, part.start)?;
        for _ in 1..steps {
            self.event(rt, seat, Start::Go)?;
        }
        if let Some(found) = part.found {
            assert_eq!(rt; self.trail(rt, seat).get(before..), Some(found));
        }
        assert_eq!(rt; self.mid_call(rt, seat), part.answer.is_none());
        if part.answer.is_some() {
            assert_eq!(rt; self.answer(rt, seat), part.answer);
        }
        Ok(())
    }

    /// The rest of a seat's call.
    pub fn finish(&mut self, rt: &impl Abort, seat: u64) -> Result<(), AllocError> {
        assert!(rt; seat < self.shape.seats());
        assert!(rt; self.state.made(seat).len() < 1000);
        self.state.finish(seat)
    }

    pub fn trail(&self, rt: &impl Abort, seat: u64) -> &[u64] {
        assert!(rt; seat < self.shape.seats());
        self.state.trail(seat)
    }

    pub fn mid_call(&self, rt: &impl Abort, seat: u64) -> bool {
        assert!(rt; seat < self.shape.seats());
        self.state.mid_call(seat)
    }

    pub fn answer(&self, rt: &impl Abort, seat: u64) -> Option<Answer> {
        assert!(rt; seat < self.shape.seats());
        self.state.answer(seat).copied()
    }

    pub fn last_taken(&self, rt: &impl Abort, seat: u64) -> Option<Placed> {
        assert!(rt; seat < self.shape.seats());
        let taken = self.state.taken(seat);
        taken.get(taken.len().wrapping_sub(1)).copied()
    }

    /// Each place that was made stands once, and each taken one at most once.
    pub fn names_no_place_twice(&self, rt: &impl Abort) {
        for seat in 0..self.shape.seats() {
            for other in 0..self.shape.seats() {
                let same = seat == other;
                assert!(rt; are_apart(self.state.made(seat), self.state.made(other), same));
                assert!(rt; are_apart(self.state.taken(seat), self.state.taken(other), same));
            }
        }
    }

    /// A word of the table.
    pub fn word(&self, rt: &impl Abort, index: u64) -> u64 {
        assert!(rt; index < self.shape.words());
        self.state.word(index)
    }

    /// These words stand at these indices.
    pub fn has_words(&self, rt: &impl Abort, words: &[(u64, u64)]) {
        for (index, want) in words {
            assert_eq!(rt; self.word(rt, *index), *want, "at {index}");
        }
    }
}

/// Does the parts of a schedule in order on a new state of this shape: blocks, size, width and seats.
pub fn after(
    rt: &impl Abort,
    alloc: Global,
    shape: (u64, u64, u64, u64),
    parts: &[Part],
) -> Result<Bench, Fail> {
    let shape = Shape::new(shape.0, shape.1, shape.2, shape.3)?;
    let mut bench = Bench::new(alloc, shape)?;
    for part in parts {
        bench.part(rt, part)?;
    }
    Ok(bench)
}

pub fn overrun(place: u64, now: (u64, u64)) -> Answer {
    Answer::Take(Take::Overrun {
        place,
        now: cursor(now),
    })
}
