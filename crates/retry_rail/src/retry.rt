//! The queue.
ghost use Rattle.std.specs.Prelude.{◌≡◌, ℕ, ◌<◌, ◌≤◌, List, [], Some, IfErr, IfOk, IsPermutation, false, true, flat_map, length, map};
ghost use Rattle.std.specs.List.{All};
ghost use Rattle.cursor_word.specs.Cursor.{most_puts};
ghost use Rattle.rail.specs.Items.{IsRising, places};
ghost use Rattle.rail.specs.Outcome.{DropOutcome, IsAccepted, RetryOutcome, numbers_below};
ghost use Rattle.rail.specs.Rail.{Puts, Takes};
ghost use Rattle.rail.specs.declared.answer.Answer.TheVariants as answer;
ghost use Rattle.step_log.specs.declared.log.Step.{Step};
ghost use Rattle.bbq_core.specs.Table.{table};
ghost use Rattle.bbq_core.specs.declared.phase.Phase.{Phase};
ghost use Rattle.call_steps.specs.Call.{TookSteps};
ghost use Rattle.call_steps.specs.Queue.{IsFresh, IsSeatOf, Queue, Seated};
ghost use Rattle.shared_seats.specs.Seats.{made_by_all, taken_by_all};
ghost use Rattle.retry_close.specs.Closed.{counted_left};

use bbq_core::{Phase, first_take};
use cursor_word::Shape;
use rail::{Batch, Put, Rail, Refused, Take};
use retry_close::{SettledQueue, close_into, room_to_close};
use shared_seats::{SharedQueue, SharedSeat};
use std::alloc::{AllocError, Global};
use std::marker::Model;

/// The token with which one caller puts and takes.
pub type RetrySeat = SharedSeat<Phase, ()>;

/// A queue that refuses entries when it is full. Each of its seats may be used from a thread of its
/// own.
#[derive(Drop)]
pub struct RetryRail {
    queue: SharedQueue<Phase, ()>,
}

impl Model for RetryRail {
    ghost use Rattle.call_steps.specs.Queue.{Queue};

    ghost Value = { Queue };

    ghost view = { λ r. r.queue };
}

/// What a closed `RetryRail` had.
pub type RetryDone = SettledQueue<Phase>;

impl RetryRail {
    /// A queue of this shape, and all its seats. None of them has made or taken anything.
    pub fn make(alloc: Global, shape: Shape) -> Result<(RetryRail, Vec<RetrySeat>), AllocError>
        ensures shape { IfOk result (λ r. r.0.shape ≡ shape) }
        ensures numbers { IfOk result (λ r. map (λ s. s.number) r.1.items
            ≡ numbers_below shape.seats) }
        ensures fresh { IfOk result (λ r. All (IsFresh r.0) r.1.items) }
    {
        let (queue, seats) = SharedQueue::<Phase, ()>::make(alloc, shape)?;
        Ok((RetryRail { queue }, seats))
    }

    /// Closes the queue, with all its seats. It takes no memory.
    pub fn close_into(self, seats: Vec<RetrySeat>, left: Batch) -> RetryDone
        requires seats { All (IsSeatOf self) seats.items }
        requires all { IsPermutation (map (λ (s : Seated Phase). s.number) seats.items)
            (numbers_below self.shape.seats) }
        requires empty { left.items ≡ [] }
        requires room { counted_left seats.items ≤ left.spare }
        ensures shape { result.shape ≡ self.shape }
        ensures accepted { IsAccepted (made_by_all seats.items) result.accepted }
        ensures taken { IsPermutation (taken_by_all seats.items) result.taken }
        ensures order { IsRising (places result.taken) }
        ensures retry { RetryOutcome result.accepted result.taken result.left }
    {
        close_into(self.queue, seats, left)
    }
}

impl Rail for RetryRail {
    ghost use Rattle.std.specs.Prelude.{◌≡◌, false};
    ghost use Rattle.cursor_word.specs.Shape.{most_seats};
    ghost use Rattle.call_steps.specs.Queue.{IsSeatOf, told_of};

    type Seat = RetrySeat;

    type Done = RetryDone;

    const MOST_SEATS: u64 = cursor_word::MOST_SEATS;

    const DROPS: bool = false;

    ghost MOST_SEATS = { most_seats };

    ghost DROPS = { false };

    ghost shape_of = { λ q. q.shape };

    ghost PutsInto = { IsSeatOf };

    ghost TakesFrom = { IsSeatOf };

    ghost number_of = { λ s. s.number };

    ghost made = { λ s. s.view.made };

    ghost taken = { λ s. s.view.taken };

    ghost told = { told_of };

    ghost done_shape = { λ d. d.shape };

    ghost done_accepted = { λ d. d.accepted };

    ghost done_taken = { λ d. d.taken };

    ghost done_left = { λ d. d.left };

    fn shape(&self) -> Shape {
        self.queue.shape()
    }

    /// Puts an entry, by the machine's steps and no other.
    fn put(&self, seat: &mut RetrySeat, entry: &[u64]) -> Put
        requires seat { IsSeatOf self.now seat.old }
        requires width { length entry.now ≡ self.now.shape.width }
        requires room { length seat.old.view.made < most_puts self.now.shape }
        ensures seat { (rail : Queue) → IsSeatOf rail seat.old → IsSeatOf rail seat.new }
        ensures takes { (rail : Queue) → IsSeatOf rail seat.old → IsSeatOf rail seat.new }
        ensures number { seat.new.number ≡ seat.old.number }
        ensures taken { seat.new.view.taken ≡ seat.old.view.taken }
        ensures answer { Puts self.now.shape false entry.now seat.old.view.made seat.new.view.made
            seat.new.view.trail result }
        ensures told { seat.new.view.answer ≡ Some (answer.Put result) }
        ensures steps { (steps : List Step)
            × TookSteps table self.now.shape entry.now table.first_put steps (answer.Put result)
            seat.new.view.trail seat.old.log seat.new.log }
    {
        self.queue.put(seat, entry)
    }

    /// Takes an entry, by the machine's steps and no other.
    fn take(&self, seat: &mut RetrySeat, out: &mut [u64]) -> Take
        requires seat { IsSeatOf self.now seat.old }
        requires width { length out.old ≡ self.now.shape.width }
        ensures seat { (rail : Queue) → IsSeatOf rail seat.old → IsSeatOf rail seat.new }
        ensures puts { (rail : Queue) → IsSeatOf rail seat.old → IsSeatOf rail seat.new }
        ensures number { seat.new.number ≡ seat.old.number }
        ensures made { seat.new.view.made ≡ seat.old.view.made }
        ensures answer { Takes self.now.shape false seat.new.view.made out.old out.new
            seat.old.view.taken seat.new.view.taken seat.new.view.trail result }
        ensures told { seat.new.view.answer ≡ Some (answer.Take result) }
        ensures steps { (steps : List Step)
            × TookSteps table self.now.shape []
            (table.first_take self.now.shape seat.old.view.taken) steps (answer.Take result)
            seat.new.view.trail seat.old.log seat.new.log }
    {
        self.queue.take(seat, first_take(), out)
    }

    fn close(
        self,
        alloc: Global,
        seats: Vec<Self::Seat>,
    ) -> Result<Self::Done, Refused<Self, Self::Seat>>
        requires seats { All (IsSeatOf self) seats.items }
        requires all { IsPermutation (map (λ (s : Seated Phase). s.number) seats.items)
            (numbers_below self.shape.seats) }
        ensures shape { IfOk result (λ done. done.shape ≡ self.shape) }
        ensures accepted { IfOk result
            (λ done. IsAccepted (flat_map (λ (s : Seated Phase). s.view.made) seats.items)
            done.accepted) }
        ensures taken { IfOk result
            (λ done. IsPermutation (flat_map (λ (s : Seated Phase). s.view.taken) seats.items)
            done.taken) }
        ensures order { IfOk result (λ done. IsRising (places done.taken)) }
        ensures retry { false ≡ false
            → IfOk result (λ done. RetryOutcome done.accepted done.taken done.left) }
        ensures drop { false ≡ true
            → IfOk result (λ done. DropOutcome done.shape done.accepted done.taken done.left) }
        ensures refused { IfErr result (λ refused. (refused.rail ≡ self)
            × (refused.seats.items ≡ seats.items)) }
    {
        match room_to_close(alloc, seats.as_slice()) {
            Ok(left) => Ok(self.close_into(seats, left)),
            Err(_) => Err(Refused { rail: self, seats }),
        }
    }

    fn puts(seat: &RetrySeat) -> u64 {
        seat.puts()
    }

    fn accepted(done: &RetryDone) -> u64 {
        done.accepted()
    }

    fn left(done: &RetryDone) -> &Batch {
        done.left()
    }
}
