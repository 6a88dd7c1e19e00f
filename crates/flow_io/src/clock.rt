ghost use Rattle.std.specs.Prelude.{◌≡◌, ◌≤◌, Some, None, IfSome};
ghost use Rattle.flow_io.specs.Clock.{Ticks, last_reading, Reads};

use crate::{Clock, Hand};
use std::marker::Model;
use std::time;
use std::time::Instant;

/// The greatest reading.
pub const LAST_READING: u64 = 9_007_199_254_740_991;

/// A clock in memory, each of whose hands starts at `next` and goes on by `step`.
#[derive(Drop)]
pub struct MemClock {
    pub next: u64,
    pub step: u64,
    ghost next_fits: { next ≤ last_reading },
    ghost step_fits: { step ≤ last_reading },
}

/// A hand of a clock in memory.
#[derive(Drop)]
pub struct MemHand {
    next: u64,
    step: u64,
    ghost next_fits: { next ≤ last_reading },
    ghost step_fits: { step ≤ last_reading },
}

impl Hand for MemHand {
    ghost ticks = { λ s. Some (record { next = s.next; step = s.step }) };

    fn now(&mut self) -> u64 {
        let reading = self.next;
        self.next = (reading + self.step).min(LAST_READING);
        reading
    }
}

impl Clock for MemClock {
    type Hand = MemHand;

    ghost ticks = { λ s worker. Some (record { next = s.next; step = s.step }) };

    fn hand(&self, _worker: u64) -> MemHand {
        MemHand {
            next: self.next,
            step: self.step,
        }
    }
}

/// The system's clock that doesn't run backwards, in microseconds from one before its making. It
/// tells no readings.
#[derive(Drop)]
pub struct RealClock<'a, R: time::Clock + Sync> {
    rt: &'a R,
    start: Option<Instant>,
}

impl<'a, R: time::Clock + Sync> RealClock<'a, R> {
    pub fn new(rt: &'a R) -> RealClock<'a, R> {
        RealClock {
            rt,
            start: Instant::now(rt).ok(),
        }
    }
}

/// A hand of the system's clock, seen as the reading that it answered last, 0 at first. One that
/// can't read the clock answers that again.
#[derive(Drop)]
pub struct RealHand<'a, R: time::Clock + Sync> {
    rt: &'a R,
    start: Option<Instant>,
    last: u64,
}

impl<'a, R: time::Clock + Sync> Model for RealHand<'a, R> {
    ghost use Rattle.std.specs.Prelude.{ℕ, ◌≤◌};
    ghost use Rattle.flow_io.specs.Clock.{last_reading};

    ghost Value = { ℕ };

    ghost view = { λ a. a.last };

    ghost invariant = { λ a. a.last ≤ last_reading };
}

/// The microseconds since the start, and one.
fn since_start<R: time::Clock>(rt: &R, start: Option<Instant>) -> Option<u64> {
    let passed = Instant::now(rt).ok()?.duration_since(start?);
    let micros = u64::try_from(passed.as_micros()).unwrap_or(LAST_READING);
    Some(micros.saturating_add(1))
}

impl<R: time::Clock + Sync> Hand for RealHand<'_, R> {
    ghost ticks = { λ _. None };

    fn now(&mut self) -> u64
        ensures most { result ≤ last_reading }
        ensures ticks { Reads None None result }
        ensures rising { self.old ≤ result }
        ensures last { self.new ≡ result }
    {
        if let Some(reading) = since_start(self.rt, self.start) {
            self.last = self.last.max(reading.min(LAST_READING));
        }
        self.last
    }
}

impl<'a, R: time::Clock + Sync> Clock for RealClock<'a, R> {
    type Hand = RealHand<'a, R>;

    ghost ticks = { λ _ worker. None };

    fn hand(&self, _worker: u64) -> RealHand<'a, R> {
        RealHand {
            rt: self.rt,
            start: self.start,
            last: 0,
        }
    }
}
