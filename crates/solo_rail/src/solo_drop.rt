//! The queue that drops its oldest entries when full, for one seat.
ghost use Rattle.std.specs.Prelude.{◌≡◌, ℕ, ◌<◌, ◌≤◌, ◌-◌, List, [], IfErr, IfOk, IsPermutation, Some, false, flat_map, length, map, true};
ghost use Rattle.std.specs.List.{All};
ghost use Rattle.cursor_word.specs.Cursor.{low, most_puts};
ghost use Rattle.rail.specs.Items.{IsRising, places};
ghost use Rattle.rail.specs.Outcome.{DropOutcome, IsAccepted, RetryOutcome, numbers_below};
ghost use Rattle.rail.specs.Rail.{Puts, Takes};
ghost use Rattle.rail.specs.Sequential.{drop_put, drop_take};
ghost use Rattle.rail.specs.declared.answer.Answer.TheVariants as answer;
ghost use Rattle.step_log.specs.declared.log.Step.{Step};
ghost use Rattle.drop_core.specs.Steps.{table};
ghost use Rattle.drop_core.specs.declared.phase.DropPhase.{DropPhase};
ghost use Rattle.call_steps.specs.Call.{TookSteps};
ghost use Rattle.call_steps.specs.Queue.{IsFresh, IsSeatOf, Queue, Seated};
ghost use Rattle.solo_rail.specs.Drop.{lone, next_place};
ghost use Rattle.solo_rail.specs.Solo.{number_of};

use crate::done::SoloDone;
use crate::lone::LonePhase;
use crate::queue::SoloQueue;
use crate::seat::{SoloSeat, only, puts_of};
use call_steps::read_unreserved;
use cursor_word::Shape;
use drop_core::{DropPhase, drop_first_take};
use rail::{Batch, Put, Rail, Refused, Take};
use std::alloc::{AllocError, Global};
use std::marker::Model;
use std::snapshot::Snapshot;

impl LonePhase for DropPhase {
    ghost lone = { lone };

    fn answers_exactly() {}
}

/// The one seat of a `SoloDrop`.
pub type SoloDropSeat = SoloSeat<DropPhase>;

/// What a closed `SoloDrop` had.
pub type SoloDropDone = SoloDone<DropPhase>;

/// A queue for one seat that drops its oldest block of entries when it is full.
#[derive(Drop)]
pub struct SoloDrop {
    queue: SoloQueue<DropPhase>,
}

impl Model for SoloDrop {
    ghost use Rattle.call_steps.specs.Queue.{Queue};

    ghost Value = { Queue };

    ghost view = { λ r. r.queue };
}

impl SoloDrop {
    /// A queue of this shape and its one seat, which has made and taken nothing.
    pub fn make(alloc: Global, shape: Shape) -> Result<(SoloDrop, SoloDropSeat), AllocError>
        requires one { shape.seats ≡ 1 }
        ensures shape { IfOk result (λ r. r.0.shape ≡ shape) }
        ensures fresh { IfOk result (λ r. IsFresh r.0 r.1) }
    {
        let (queue, seat) = SoloQueue::<DropPhase>::make(alloc, shape)?;
        Ok((SoloDrop { queue }, seat))
    }

    // Reads what is left, from the first live place.
    fn finish(self, seat: SoloDropSeat, from: u64, mut left: Batch) -> SoloDropDone
        requires seat { IsSeatOf self seat }
        requires from { from ≡ low self.shape (length seat.view.made) }
        requires within { from ≤ length seat.view.made }
        requires empty { left.items ≡ [] }
        requires room { length seat.view.made - from ≤ left.spare }
        ensures shape { result.shape ≡ self.shape }
        ensures accepted { result.accepted ≡ seat.view.made }
        ensures taken { result.taken ≡ seat.view.taken }
        ensures whole { IsAccepted seat.view.made seat.view.made }
        ensures order { IsRising (places seat.view.taken) }
        ensures drop { DropOutcome self.shape seat.view.made seat.view.taken result.left }
    {
        let before = Snapshot::of(&seat);
        let shape = self.queue.shape();
        let puts = seat.puts();
        let stopped = self.queue.stop(seat);
        read_unreserved(&stopped, &shape, from, puts - from, &mut left);
        SoloDone {
            shape,
            accepted: puts,
            left,
            seat: before,
        }
    }
}

impl Rail for SoloDrop {
    ghost use Rattle.std.specs.Prelude.{◌≡◌, true};
    ghost use Rattle.call_steps.specs.Queue.{IsSeatOf, told_of};
    ghost use Rattle.solo_rail.specs.Solo.{number_of};

    type Seat = SoloDropSeat;

    type Done = SoloDropDone;

    const MOST_SEATS: u64 = 1;

    const DROPS: bool = true;

    ghost MOST_SEATS = { 1 };

    ghost DROPS = { true };

    ghost shape_of = { λ q. q.shape };

    ghost PutsInto = { IsSeatOf };

    ghost TakesFrom = { IsSeatOf };

    ghost number_of = { number_of };

    ghost made = { λ s. s.view.made };

    ghost taken = { λ s. s.view.taken };

    ghost told = { told_of };

    ghost done_shape = { λ d. d.shape };

    ghost done_accepted = { λ d. d.accepted };

    ghost done_taken = { λ d. d.taken };

    ghost done_left = { λ d. d.left };

    fn shape(&self) -> Shape {
        self.queue.shape()
    }

    /// Answers as one thread is answered, by the machine's steps.
    fn put(&self, seat: &mut SoloDropSeat, entry: &[u64]) -> Put
        requires seat { IsSeatOf self.now seat.old }
        requires width { length entry.now ≡ self.now.shape.width }
        requires room { length seat.old.view.made < most_puts self.now.shape }
        ensures seat { (rail : Queue) → IsSeatOf rail seat.old → IsSeatOf rail seat.new }
        ensures takes { (rail : Queue) → IsSeatOf rail seat.old → IsSeatOf rail seat.new }
        ensures number { number_of seat.new ≡ number_of seat.old }
        ensures taken { seat.new.view.taken ≡ seat.old.view.taken }
        ensures answer { Puts self.now.shape true entry.now seat.old.view.made seat.new.view.made
            seat.new.view.trail result }
        ensures told { seat.new.view.answer ≡ Some (answer.Put result) }
        ensures exact { result ≡ drop_put (length seat.old.view.made) }
        ensures steps { (steps : List Step)
            × TookSteps table self.now.shape entry.now table.first_put steps (answer.Put result)
            seat.new.view.trail seat.old.log seat.new.log }
    {
        self.queue.put(seat, entry)
    }

    /// Answers as one thread is answered, by the machine's steps.
    fn take(&self, seat: &mut SoloDropSeat, out: &mut [u64]) -> Take
        requires seat { IsSeatOf self.now seat.old }
        requires width { length out.old ≡ self.now.shape.width }
        ensures seat { (rail : Queue) → IsSeatOf rail seat.old → IsSeatOf rail seat.new }
        ensures puts { (rail : Queue) → IsSeatOf rail seat.old → IsSeatOf rail seat.new }
        ensures number { number_of seat.new ≡ number_of seat.old }
        ensures made { seat.new.view.made ≡ seat.old.view.made }
        ensures answer { Takes self.now.shape true seat.new.view.made out.old out.new
            seat.old.view.taken seat.new.view.taken seat.new.view.trail result }
        ensures told { seat.new.view.answer ≡ Some (answer.Take result) }
        ensures exact { result ≡ drop_take self.now.shape (length seat.old.view.made)
            (next_place seat.old.view.taken) }
        ensures steps { (steps : List Step)
            × TookSteps table self.now.shape []
            (table.first_take self.now.shape seat.old.view.taken) steps (answer.Take result)
            seat.new.view.trail seat.old.log seat.new.log }
    {
        self.queue.take(seat, drop_first_take(), out)
    }

    fn close(
        self,
        alloc: Global,
        seats: Vec<Self::Seat>,
    ) -> Result<Self::Done, Refused<Self, Self::Seat>>
        requires seats { All (IsSeatOf self) seats.items }
        requires all { IsPermutation (map number_of seats.items) (numbers_below self.shape.seats) }
        ensures shape { IfOk result (λ done. done.shape ≡ self.shape) }
        ensures accepted { IfOk result
            (λ done. IsAccepted (flat_map (λ (s : Seated DropPhase). s.view.made) seats.items)
            done.accepted) }
        ensures taken { IfOk result
            (λ done. IsPermutation (flat_map (λ (s : Seated DropPhase). s.view.taken) seats.items)
            done.taken) }
        ensures order { IfOk result (λ done. IsRising (places done.taken)) }
        ensures retry { true ≡ false
            → IfOk result (λ done. RetryOutcome done.accepted done.taken done.left) }
        ensures drop { true ≡ true
            → IfOk result (λ done. DropOutcome done.shape done.accepted done.taken done.left) }
        ensures refused { IfErr result (λ refused. (refused.rail ≡ self)
            × (refused.seats.items ≡ seats.items)) }
    {
        let puts = puts_of(&seats);
        let from = self.queue.shape().first_live_place(puts);
        match Batch::with_room(alloc, (puts - from) as usize) {
            Ok(left) => Ok(self.finish(only(seats), from, left)),
            Err(_) => Err(Refused { rail: self, seats }),
        }
    }

    fn puts(seat: &SoloDropSeat) -> u64 {
        seat.puts()
    }

    fn accepted(done: &SoloDropDone) -> u64 {
        done.accepted
    }

    fn left(done: &SoloDropDone) -> &Batch {
        &done.left
    }
}
