//! The queue.
ghost use Rattle.std.specs.Prelude.{◌≡◌, ℕ, ◌+◌, ◌-◌, ◌^◌, ◌<◌, ◌≤◌, List, [], Some, IfErr, IfOk, IsPermutation, false, true, flat_map, length, map, min};
ghost use Rattle.std.specs.List.{All};
ghost use Rattle.cursor_word.specs.Cursor.{low, most_puts};
ghost use Rattle.rail.specs.Items.{IsRising, places};
ghost use Rattle.rail.specs.Outcome.{DropOutcome, IsAccepted, RetryOutcome, numbers_below};
ghost use Rattle.rail.specs.Rail.{Puts, Takes};
ghost use Rattle.rail.specs.declared.answer.Answer.TheVariants as answer;
ghost use Rattle.step_log.specs.declared.log.Step.{Step};
ghost use Rattle.drop_core.specs.Steps.{table};
ghost use Rattle.drop_core.specs.declared.phase.DropPhase.{DropPhase};
ghost use Rattle.call_steps.specs.Call.{TookSteps};
ghost use Rattle.call_steps.specs.Queue.{IsFresh, IsSeatOf, Queue, SeatedWith};
ghost use Rattle.shared_seats.specs.Seats.{made_by_all, taken_by_all};
ghost use Rattle.block_looks.specs.declared.looks.Looks.{Looks};
ghost use Rattle.block_looks.specs.Looks.{no_looks};
ghost use Rattle.drop_rail.specs.Closed.{counted_live};
ghost use Rattle.drop_rail.specs.Looking.{HasSeenAccepted};

use block_looks::Looks;
use call_laws::SharedPhase;
use call_steps::read_unreserved;
use cursor_word::Shape;
use drop_core::{DropPhase, drop_first_take};
use rail::{Batch, Put, Rail, Refused, Take};
use shared_seats::{Memory, SharedQueue, SharedSeat, totals};
use std::alloc::{AllocError, Global};
use std::marker::Model;
use std::snapshot::Snapshot;

/// The token with which one caller puts, takes and looks.
pub type DropSeat = SharedSeat<DropPhase, Looks>;

/// A queue that drops its oldest block of entries when it is full. Each of its seats may be used
/// from a thread of its own.
#[derive(Drop)]
pub struct DropRail {
    pub(crate) queue: SharedQueue<DropPhase, Looks>,
}

impl Model for DropRail {
    ghost use Rattle.call_steps.specs.Queue.{Queue};

    ghost Value = { Queue };

    ghost view = { λ r. r.queue };
}

/// What a closed `DropRail` had.
#[derive(Drop)]
pub struct DropDone {
    shape: Shape,
    accepted: u64,
    left: Batch,
    seats: Snapshot<Vec<DropSeat>>,
}

impl Model for DropDone {
    ghost use Rattle.std.specs.Prelude.{◌≡◌, length};
    ghost use Rattle.call_steps.specs.Queue.{Closed};
    ghost use Rattle.shared_seats.specs.Seats.{made_by_all};
    ghost use Rattle.drop_rail.specs.Closed.{closed};

    ghost Value = { Closed };

    ghost view = { λ d. closed d.shape d.seats.value.items d.left.items };

    ghost invariant = { λ d. d.accepted ≡ length (made_by_all d.seats.value.items) };
}

impl DropDone {
    /// Gives up all but what was left in it.
    pub fn into_left(self) -> Batch
        ensures { result.items ≡ self.left }
    {
        let DropDone { left, .. } = self;
        left
    }
}

/// How many entries the close of a queue lays out, where its seats put so many.
pub fn live_number(shape: &Shape, puts: u64) -> u64
    ensures { result ≡ puts - low shape.now puts }
{
    puts - shape.first_live_place(puts)
}

impl DropRail {
    /// A queue of this shape, and all its seats. None of them has made or taken anything.
    pub fn make(alloc: Global, shape: Shape) -> Result<(DropRail, Vec<DropSeat>), AllocError>
        ensures shape { IfOk result (λ r. r.0.shape ≡ shape) }
        ensures numbers { IfOk result (λ r. map (λ s. s.number) r.1.items
            ≡ numbers_below shape.seats) }
        ensures fresh { IfOk result (λ r. All (IsFresh r.0) r.1.items) }
        ensures looks { IfOk result (λ r. All (λ s. s.memory ≡ no_looks) r.1.items) }
    {
        let (queue, seats) = SharedQueue::<DropPhase, Looks>::make(alloc, shape)?;
        Ok((DropRail { queue }, seats))
    }

    /// The memory that the close of the queue with these seats needs.
    pub fn room_to_close(&self, alloc: Global, seats: &[DropSeat]) -> Result<Batch, AllocError>
        ensures { IfOk result (λ left. left
            ≡ record { items = []; spare = counted_live self.now.shape seats.now }) }
    {
        let (puts, _) = totals(seats);
        Batch::with_room(alloc, live_number(&self.queue.shape(), puts) as usize)
    }

    /// Closes the queue, with all its seats. It takes no memory.
    pub fn close_into(self, seats: Vec<DropSeat>, left: Batch) -> DropDone
        requires seats { All (IsSeatOf self) seats.items }
        requires all { IsPermutation
            (map (λ (s : SeatedWith DropPhase Looks). s.number) seats.items)
            (numbers_below self.shape.seats) }
        requires empty { left.items ≡ [] }
        requires room { counted_live self.shape seats.items ≤ left.spare }
        ensures shape { result.shape ≡ self.shape }
        ensures accepted { IsAccepted (made_by_all seats.items) result.accepted }
        ensures taken { IsPermutation (taken_by_all seats.items) result.taken }
        ensures order { IsRising (places result.taken) }
        ensures drop { DropOutcome result.shape result.accepted result.taken result.left }
        ensures looked { All (HasSeenAccepted result.accepted) seats.items }
    {
        let (puts, _) = totals(seats.as_slice());
        let from = self.queue.shape().first_live_place(puts);
        self.finish(seats, puts, from, left)
    }

    // Stops all steps, and reads what is left.
    fn finish(self, seats: Vec<DropSeat>, puts: u64, from: u64, mut left: Batch) -> DropDone
        requires seats { All (IsSeatOf self) seats.items }
        requires all { length seats.items ≡ self.shape.seats }
        requires puts { puts ≡ min (length (made_by_all seats.items)) (2 ^ 64 - 1) }
        requires from { from ≡ low self.shape puts }
        requires within { from ≤ puts }
        requires empty { left.items ≡ [] }
        requires room { puts - from ≤ left.spare }
        ensures shape { result.shape ≡ self.shape }
        ensures accepted { IsAccepted (made_by_all seats.items) result.accepted }
        ensures taken { IsPermutation (taken_by_all seats.items) result.taken }
        ensures order { IsRising (places result.taken) }
        ensures drop { DropOutcome result.shape result.accepted result.taken result.left }
        ensures looked { All (HasSeenAccepted result.accepted) seats.items }
    {
        DropPhase::seats();
        Looks::lasts();
        let before = Snapshot::of(&seats);
        let shape = self.queue.shape();
        let stopped = self.queue.stop(seats);
        read_unreserved(&stopped, &shape, from, puts - from, &mut left);
        DropDone {
            shape,
            accepted: puts,
            left,
            seats: before,
        }
    }
}

impl Rail for DropRail {
    ghost use Rattle.std.specs.Prelude.{◌≡◌, false};
    ghost use Rattle.cursor_word.specs.Shape.{most_seats};
    ghost use Rattle.call_steps.specs.Queue.{IsSeatOf, told_of};

    type Seat = DropSeat;

    type Done = DropDone;

    const MOST_SEATS: u64 = cursor_word::MOST_SEATS;

    const DROPS: bool = true;

    ghost MOST_SEATS = { most_seats };

    ghost DROPS = { true };

    ghost shape_of = { λ q. q.shape };

    ghost PutsInto = { IsSeatOf };

    ghost TakesFrom = { IsSeatOf };

    ghost number_of = { λ s. s.number };

    ghost made = { λ s. s.view.made };

    ghost taken = { λ s. s.view.taken };

    ghost told = { told_of };

    ghost done_shape = { λ d. d.shape };

    ghost done_accepted = { λ d. d.accepted };

    ghost done_taken = { λ d. d.taken };

    ghost done_left = { λ d. d.left };

    fn shape(&self) -> Shape {
        self.queue.shape()
    }

    /// Puts an entry, by the machine's steps and no other.
    fn put(&self, seat: &mut DropSeat, entry: &[u64]) -> Put
        requires seat { IsSeatOf self.now seat.old }
        requires width { length entry.now ≡ self.now.shape.width }
        requires room { length seat.old.view.made < most_puts self.now.shape }
        ensures seat { (rail : Queue) → IsSeatOf rail seat.old → IsSeatOf rail seat.new }
        ensures takes { (rail : Queue) → IsSeatOf rail seat.old → IsSeatOf rail seat.new }
        ensures number { seat.new.number ≡ seat.old.number }
        ensures taken { seat.new.view.taken ≡ seat.old.view.taken }
        ensures looks { seat.new.memory ≡ seat.old.memory }
        ensures answer { Puts self.now.shape true entry.now seat.old.view.made seat.new.view.made
            seat.new.view.trail result }
        ensures told { seat.new.view.answer ≡ Some (answer.Put result) }
        ensures steps { (steps : List Step)
            × TookSteps table self.now.shape entry.now table.first_put steps (answer.Put result)
            seat.new.view.trail seat.old.log seat.new.log }
    {
        self.queue.put(seat, entry)
    }

    /// Takes an entry, by the machine's steps and no other. After an answer that says that the
    /// place was overrun, `out` holds any numbers.
    fn take(&self, seat: &mut DropSeat, out: &mut [u64]) -> Take
        requires seat { IsSeatOf self.now seat.old }
        requires width { length out.old ≡ self.now.shape.width }
        ensures seat { (rail : Queue) → IsSeatOf rail seat.old → IsSeatOf rail seat.new }
        ensures puts { (rail : Queue) → IsSeatOf rail seat.old → IsSeatOf rail seat.new }
        ensures number { seat.new.number ≡ seat.old.number }
        ensures made { seat.new.view.made ≡ seat.old.view.made }
        ensures looks { seat.new.memory ≡ seat.old.memory }
        ensures answer { Takes self.now.shape true seat.new.view.made out.old out.new
            seat.old.view.taken seat.new.view.taken seat.new.view.trail result }
        ensures told { seat.new.view.answer ≡ Some (answer.Take result) }
        ensures steps { (steps : List Step)
            × TookSteps table self.now.shape []
            (table.first_take self.now.shape seat.old.view.taken) steps (answer.Take result)
            seat.new.view.trail seat.old.log seat.new.log }
    {
        self.queue.take(seat, drop_first_take(), out)
    }

    fn close(
        self,
        alloc: Global,
        seats: Vec<Self::Seat>,
    ) -> Result<Self::Done, Refused<Self, Self::Seat>>
        requires seats { All (IsSeatOf self) seats.items }
        requires all { IsPermutation
            (map (λ (s : SeatedWith DropPhase Looks). s.number) seats.items)
            (numbers_below self.shape.seats) }
        ensures shape { IfOk result (λ done. done.shape ≡ self.shape) }
        ensures accepted { IfOk result
            (λ done. IsAccepted
            (flat_map (λ (s : SeatedWith DropPhase Looks). s.view.made) seats.items)
            done.accepted) }
        ensures taken { IfOk result
            (λ done. IsPermutation
            (flat_map (λ (s : SeatedWith DropPhase Looks). s.view.taken) seats.items)
            done.taken) }
        ensures order { IfOk result (λ done. IsRising (places done.taken)) }
        ensures retry { true ≡ false
            → IfOk result (λ done. RetryOutcome done.accepted done.taken done.left) }
        ensures drop { true ≡ true
            → IfOk result (λ done. DropOutcome done.shape done.accepted done.taken done.left) }
        ensures looked { IfOk result (λ done. All (HasSeenAccepted done.accepted) seats.items) }
        ensures refused { IfErr result (λ refused. (refused.rail ≡ self)
            × (refused.seats.items ≡ seats.items)) }
    {
        match self.room_to_close(alloc, seats.as_slice()) {
            Ok(left) => Ok(self.close_into(seats, left)),
            Err(_) => Err(Refused { rail: self, seats }),
        }
    }

    fn puts(seat: &DropSeat) -> u64 {
        seat.puts()
    }

    fn accepted(done: &DropDone) -> u64 {
        done.accepted
    }

    fn left(done: &DropDone) -> &Batch {
        &done.left
    }
}
