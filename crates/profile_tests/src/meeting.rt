//! A run whose two workers put while the calling thread takes, by a queue that tells of its calls.
ghost use Rattle.std.specs.Prelude.{◌≡◌, IfErr, IfOk, IsPermutation, false, refl, true, flat_map, map};
ghost use Rattle.std.specs.List.{All};
ghost use Rattle.std.proofs.Common.{inr};
ghost use Rattle.std.proofs.lemmas.Bool.{leb-true};
ghost use Rattle.rail.specs.Items.{IsRising, places};
ghost use Rattle.rail.specs.Outcome.{DropOutcome, IsAccepted, RetryOutcome, numbers_below};
ghost use Rattle.bbq_core.specs.declared.phase.Phase.{Phase};
ghost use Rattle.call_steps.specs.Queue.{IsSeatOf, Seated};

use crate::beside::MOST_TURNS;
use crate::command::{COUNTS, Case, DONE, is_left, tried_over};
use cursor_word::Shape;
use drop_rail::{DropRail, DropSeat};
use flow_io::MemClock;
use profile_cli::Rails;
use rail::{Batch, Put, Rail, Refused, Take};
use retry_rail::{RetryDone, RetryRail, RetrySeat};
use std::alloc::{AllocError, Global};
use std::marker::Model;
use std::sync::Arc;
use std::sync::atomic::{AtomicBool, AtomicU64, Ordering};
use std::test::Fail;
use word_workers::NoGate;

/// The number of the last of three seats.
const LAST: u64 = 2;

/// What the seats have begun: the first put of each but the last, and a take of the last; and how
/// many of these puts found all of it begun in time.
#[derive(Drop)]
struct Meeting {
    put: [AtomicBool; 2],
    take: AtomicBool,
    met: AtomicU64,
}

impl Meeting {
    fn has_begun(&self) -> bool {
        let [first, second] = &self.put;
        first.load(Ordering::SeqCst)
            && second.load(Ordering::SeqCst)
            && self.take.load(Ordering::SeqCst)
    }

    /// Holds a seat, for so many turns at most, until the others have begun.
    fn wait(&self) {
        for _ in 0..MOST_TURNS {
            if self.has_begun() {
                self.met.fetch_add(1, Ordering::SeqCst);
                return;
            }
        }
    }

    /// A seat begins a put.
    fn puts(&self, seat: u64) {
        let Some(put) = self.put.get(seat as usize) else {
            return;
        };
        if !put.swap(true, Ordering::SeqCst) {
            self.wait();
        }
    }

    /// A seat begins a take.
    fn takes(&self, seat: u64) {
        if seat == LAST {
            self.take.store(true, Ordering::SeqCst);
        }
    }
}

/// A queue whose seats meet. Contracts see the queue alone.
#[derive(Drop)]
struct MeetingRail {
    queue: RetryRail,
    meeting: Arc<Meeting>,
}

impl Model for MeetingRail {
    ghost use Rattle.call_steps.specs.Queue.{Queue};

    ghost Value = { Queue };

    ghost view = { λ r. r.queue };
}

impl Rail for MeetingRail {
    ghost use Rattle.std.specs.Prelude.{◌≡◌, false};
    ghost use Rattle.cursor_word.specs.Shape.{most_seats};
    ghost use Rattle.call_steps.specs.Queue.{IsSeatOf, told_of};

    type Seat = RetrySeat;

    type Done = RetryDone;

    const MOST_SEATS: u64 = 1024;

    const DROPS: bool = false;

    ghost MOST_SEATS = { most_seats };

    ghost DROPS = { false };

    ghost shape_of = { λ q. q.shape };

    ghost PutsInto = { IsSeatOf };

    ghost TakesFrom = { IsSeatOf };

    ghost number_of = { λ s. s.number };

    ghost made = { λ s. s.view.made };

    ghost taken = { λ s. s.view.taken };

    ghost told = { told_of };

    ghost done_shape = { λ d. d.shape };

    ghost done_accepted = { λ d. d.accepted };

    ghost done_taken = { λ d. d.taken };

    ghost done_left = { λ d. d.left };

    fn shape(&self) -> Shape {
        self.queue.shape()
    }

    fn put(&self, seat: &mut RetrySeat, entry: &[u64]) -> Put {
        self.meeting.puts(seat.number());
        self.queue.put(seat, entry)
    }

    fn take(&self, seat: &mut RetrySeat, out: &mut [u64]) -> Take {
        self.meeting.takes(seat.number());
        self.queue.take(seat, out)
    }

    fn close(
        self,
        alloc: Global,
        seats: Vec<Self::Seat>,
    ) -> Result<Self::Done, Refused<Self, Self::Seat>>
        requires seats { All (IsSeatOf self) seats.items }
        requires all { IsPermutation (map (λ (s : Seated Phase). s.number) seats.items)
            (numbers_below self.shape.seats) }
        ensures shape { IfOk result (λ done. done.shape ≡ self.shape) }
        ensures accepted { IfOk result
            (λ done. IsAccepted (flat_map (λ (s : Seated Phase). s.view.made) seats.items)
            done.accepted) }
        ensures taken { IfOk result
            (λ done. IsPermutation (flat_map (λ (s : Seated Phase). s.view.taken) seats.items)
            done.taken) }
        ensures order { IfOk result (λ done. IsRising (places done.taken)) }
        ensures retry { false ≡ false
            → IfOk result (λ done. RetryOutcome done.accepted done.taken done.left) }
        ensures drop { false ≡ true
            → IfOk result (λ done. DropOutcome done.shape done.accepted done.taken done.left) }
        ensures refused { IfErr result (λ refused. (refused.rail ≡ self)
            × (refused.seats.items ≡ seats.items)) }
    {
        let MeetingRail { queue, meeting } = self;
        match queue.close(alloc, seats) {
            Ok(done) => Ok(done),
            Err(Refused { rail, seats }) => Err(Refused {
                rail: MeetingRail {
                    queue: rail,
                    meeting,
                },
                seats,
            }),
        }
    }

    fn puts(seat: &RetrySeat) -> u64 {
        RetryRail::puts(seat)
    }

    fn accepted(done: &RetryDone) -> u64 {
        RetryRail::accepted(done)
    }

    fn left(done: &RetryDone) -> &Batch {
        RetryRail::left(done)
    }
}

/// Queues for many threads, of which the seats of one kind meet.
#[derive(Drop)]
struct MeetingRails {
    meeting: Arc<Meeting>,
}

impl Rails for MeetingRails {
    type Retry = MeetingRail;

    type DropOld = DropRail;

    ghost retry_keeps = { refl };

    ghost drop_old_drops = { refl };

    ghost retry_seats = { inr (leb-true 256 1024 refl) };

    ghost drop_old_seats = { inr (leb-true 256 1024 refl) };

    fn retry(
        &self,
        alloc: Global,
        shape: Shape,
    ) -> Result<(MeetingRail, Vec<RetrySeat>), AllocError> {
        let (queue, seats) = RetryRail::make(alloc, shape)?;
        let meeting = Arc::try_clone(&self.meeting)?;
        Ok((MeetingRail { queue, meeting }, seats))
    }

    fn drop_old(
        &self,
        alloc: Global,
        shape: Shape,
    ) -> Result<(DropRail, Vec<DropSeat>), AllocError> {
        DropRail::make(alloc, shape)
    }
}

#[test]
fn two_workers_put_while_the_caller_takes(rt: HostRuntime) -> Result<(), Fail> {
    let alloc = rt.alloc();
    let begun = Meeting {
        put: [AtomicBool::new(false), AtomicBool::new(false)],
        take: AtomicBool::new(false),
        met: AtomicU64::new(0),
    };
    let meeting = Arc::new(alloc, begun)?;
    let case = Case {
        words: &["--workers", "2", "ab.txt"],
        bytes: b"a b a\n",
        accepted: Some(3),
        out: COUNTS,
        ..DONE
    };
    let held = Vec::from_slice(alloc, case.bytes)?;
    let clock = MemClock { next: 0, step: 1 };
    let rails = MeetingRails {
        meeting: Arc::try_clone(&meeting)?,
    };
    let left = tried_over(
        &rt,
        alloc,
        case.words,
        "ab.txt",
        held,
        &case.world,
        &clock,
        &NoGate,
        &rails,
    )?;
    is_left(&rt, &left, &case);
    assert_eq!(rt; meeting.met.load(Ordering::SeqCst), 2);
    Ok(())
}
