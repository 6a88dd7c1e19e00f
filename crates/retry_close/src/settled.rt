//! The closing of a queue, and what a closed queue had.
ghost use Rattle.std.specs.Prelude.{◌≡◌, ◌-◌, ◌^◌, ◌≤◌, [], IfOk, IsPermutation, length, map, min};
ghost use Rattle.std.specs.List.{All};
ghost use Rattle.rail.specs.Items.{IsRising, places};
ghost use Rattle.rail.specs.Outcome.{IsAccepted, RetryOutcome, numbers_below};
ghost use Rattle.call_steps.specs.Queue.{IsSeatOf, Seated};
ghost use Rattle.shared_seats.specs.Seats.{made_by_all, taken_by_all};
ghost use Rattle.retry_close.specs.Closed.{counted_left};
ghost use Rattle.retry_close.specs.Settles.{Settles};

use call_laws::CallPhase;
use call_steps::read_left;
use cursor_word::Shape;
use rail::Batch;
use shared_seats::{SharedQueue, SharedSeat, totals};
use std::alloc::{AllocError, Global};
use std::marker::Model;
use std::snapshot::Snapshot;

/// What a closed queue had, of whose accepted entries the first are taken and the rest is left.
#[derive(Drop)]
pub struct SettledQueue<P: CallPhase> {
    shape: Shape,
    accepted: u64,
    left: Batch,
    seats: Snapshot<Vec<SharedSeat<P, ()>>>,
}

impl<P: CallPhase> Model for SettledQueue<P> {
    ghost use Rattle.std.specs.Prelude.{◌≡◌, length};
    ghost use Rattle.call_steps.specs.Queue.{Closed};
    ghost use Rattle.shared_seats.specs.Seats.{made_by_all};
    ghost use Rattle.retry_close.specs.Closed.{closed};

    ghost Value = { Closed };

    ghost view = { λ d. closed d.shape d.seats.value.items d.left.items };

    ghost invariant = { λ d. d.accepted ≡ length (made_by_all d.seats.value.items) };
}

impl<P: CallPhase> SettledQueue<P> {
    /// How many entries the queue had accepted.
    pub fn accepted(&self) -> u64
        ensures { result ≡ length self.now.accepted }
    {
        self.accepted
    }

    /// What was left in it.
    pub fn left(&self) -> &Batch
        ensures { result.now.items ≡ self.now.left }
    {
        &self.left
    }

    /// Gives up all but what was left in it.
    pub fn into_left(self) -> Batch
        ensures { result.items ≡ self.left }
    {
        let SettledQueue { left, .. } = self;
        left
    }
}

/// How many entries the close of a queue lays out, where its seats put and took so many.
pub fn left_number(puts: u64, takes: u64) -> u64
    ensures { result ≡ puts - takes }
{
    puts.saturating_sub(takes)
}

/// The memory that the close of a queue with these seats needs.
pub fn room_to_close<P: CallPhase>(
    alloc: Global,
    seats: &[SharedSeat<P, ()>],
) -> Result<Batch, AllocError>
    ensures { IfOk result
        (λ left. left ≡ record { items = []; spare = counted_left seats.now }) }
{
    let (puts, takes) = totals(seats);
    Batch::with_room(alloc, left_number(puts, takes) as usize)
}

/// Closes a queue, with all its seats, where its machine settles. It takes no memory.
pub fn close_into<P: CallPhase>(
    queue: SharedQueue<P, ()>,
    seats: Vec<SharedSeat<P, ()>>,
    left: Batch,
) -> SettledQueue<P>
    requires settles { Settles P.Holds }
    requires seats { All (IsSeatOf queue) seats.items }
    requires all { IsPermutation (map (λ (s : Seated P). s.number) seats.items)
        (numbers_below queue.shape.seats) }
    requires empty { left.items ≡ [] }
    requires room { counted_left seats.items ≤ left.spare }
    ensures shape { result.shape ≡ queue.shape }
    ensures accepted { IsAccepted (made_by_all seats.items) result.accepted }
    ensures taken { IsPermutation (taken_by_all seats.items) result.taken }
    ensures order { IsRising (places result.taken) }
    ensures retry { RetryOutcome result.accepted result.taken result.left }
{
    let (puts, takes) = totals(seats.as_slice());
    finish(queue, seats, puts, takes, left)
}

// Stops all steps, and reads what is left.
fn finish<P: CallPhase>(
    queue: SharedQueue<P, ()>,
    seats: Vec<SharedSeat<P, ()>>,
    puts: u64,
    takes: u64,
    mut left: Batch,
) -> SettledQueue<P>
    requires settles { Settles P.Holds }
    requires seats { All (IsSeatOf queue) seats.items }
    requires all { length seats.items ≡ queue.shape.seats }
    requires puts { puts ≡ min (length (made_by_all seats.items)) (2 ^ 64 - 1) }
    requires takes { takes ≡ min (length (taken_by_all seats.items)) (2 ^ 64 - 1) }
    requires empty { left.items ≡ [] }
    requires room { puts - takes ≤ left.spare }
    ensures shape { result.shape ≡ queue.shape }
    ensures accepted { IsAccepted (made_by_all seats.items) result.accepted }
    ensures taken { IsPermutation (taken_by_all seats.items) result.taken }
    ensures order { IsRising (places result.taken) }
    ensures retry { RetryOutcome result.accepted result.taken result.left }
{
    let before = Snapshot::of(&seats);
    let shape = queue.shape();
    let stopped = queue.stop(seats);
    read_left(&stopped, &shape, takes, left_number(puts, takes), &mut left);
    SettledQueue {
        shape,
        accepted: puts,
        left,
        seats: before,
    }
}
