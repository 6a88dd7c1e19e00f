//! The queue that refuses when full, for one seat.
ghost use Rattle.std.specs.Prelude.{◌≡◌, ℕ, ◌<◌, ◌≤◌, ◌-◌, List, [], IfErr, IfOk, IsPermutation, Some, false, flat_map, length, map, true};
ghost use Rattle.std.specs.List.{All};
ghost use Rattle.cursor_word.specs.Cursor.{most_puts};
ghost use Rattle.rail.specs.Items.{IsRising, places};
ghost use Rattle.rail.specs.Outcome.{DropOutcome, IsAccepted, RetryOutcome, numbers_below};
ghost use Rattle.rail.specs.Rail.{Puts, Takes};
ghost use Rattle.rail.specs.Sequential.{RetryPut, retry_take};
ghost use Rattle.rail.specs.declared.answer.Answer.TheVariants as answer;
ghost use Rattle.step_log.specs.declared.log.Step.{Step};
ghost use Rattle.bbq_core.specs.Table.{table};
ghost use Rattle.bbq_core.specs.declared.phase.Phase.{Phase};
ghost use Rattle.call_steps.specs.Call.{TookSteps};
ghost use Rattle.call_steps.specs.Queue.{IsFresh, IsSeatOf, Queue, Seated};
ghost use Rattle.solo_rail.specs.Retry.{lone};
ghost use Rattle.solo_rail.specs.Solo.{number_of};

use crate::done::SoloDone;
use crate::lone::LonePhase;
use crate::queue::SoloQueue;
use crate::seat::{SoloSeat, only, untaken_of};
use bbq_core::{Phase, first_take};
use call_steps::read_left;
use cursor_word::Shape;
use rail::{Batch, Put, Rail, Refused, Take};
use std::alloc::{AllocError, Global};
use std::marker::Model;
use std::snapshot::Snapshot;

impl LonePhase for Phase {
    ghost lone = { lone };

    fn answers_exactly() {}
}

/// The one seat of a `SoloRetry`.
pub type SoloRetrySeat = SoloSeat<Phase>;

/// What a closed `SoloRetry` had.
pub type SoloRetryDone = SoloDone<Phase>;

/// A queue for one seat that refuses a put when it is full.
#[derive(Drop)]
pub struct SoloRetry {
    queue: SoloQueue<Phase>,
}

impl Model for SoloRetry {
    ghost use Rattle.call_steps.specs.Queue.{Queue};

    ghost Value = { Queue };

    ghost view = { λ r. r.queue };
}

impl SoloRetry {
    /// A queue of this shape and its one seat, which has made and taken nothing.
    pub fn make(alloc: Global, shape: Shape) -> Result<(SoloRetry, SoloRetrySeat), AllocError>
        requires one { shape.seats ≡ 1 }
        ensures shape { IfOk result (λ r. r.0.shape ≡ shape) }
        ensures fresh { IfOk result (λ r. IsFresh r.0 r.1) }
    {
        let (queue, seat) = SoloQueue::<Phase>::make(alloc, shape)?;
        Ok((SoloRetry { queue }, seat))
    }

    // Reads what is left.
    fn finish(self, seat: SoloRetrySeat, mut left: Batch) -> SoloRetryDone
        requires seat { IsSeatOf self seat }
        requires empty { left.items ≡ [] }
        requires room { length seat.view.made - length seat.view.taken ≤ left.spare }
        ensures shape { result.shape ≡ self.shape }
        ensures accepted { result.accepted ≡ seat.view.made }
        ensures taken { result.taken ≡ seat.view.taken }
        ensures whole { IsAccepted seat.view.made seat.view.made }
        ensures order { IsRising (places seat.view.taken) }
        ensures retry { RetryOutcome seat.view.made seat.view.taken result.left }
    {
        let before = Snapshot::of(&seat);
        let shape = self.queue.shape();
        let puts = seat.puts();
        let takes = seat.takes();
        let stopped = self.queue.stop(seat);
        read_left(
            &stopped,
            &shape,
            takes,
            puts.saturating_sub(takes),
            &mut left,
        );
        SoloDone {
            shape,
            accepted: puts,
            left,
            seat: before,
        }
    }
}

impl Rail for SoloRetry {
    ghost use Rattle.std.specs.Prelude.{◌≡◌, false};
    ghost use Rattle.call_steps.specs.Queue.{IsSeatOf, told_of};
    ghost use Rattle.solo_rail.specs.Solo.{number_of};

    type Seat = SoloRetrySeat;

    type Done = SoloRetryDone;

    const MOST_SEATS: u64 = 1;

    const DROPS: bool = false;

    ghost MOST_SEATS = { 1 };

    ghost DROPS = { false };

    ghost shape_of = { λ q. q.shape };

    ghost PutsInto = { IsSeatOf };

    ghost TakesFrom = { IsSeatOf };

    ghost number_of = { number_of };

    ghost made = { λ s. s.view.made };

    ghost taken = { λ s. s.view.taken };

    ghost told = { told_of };

    ghost done_shape = { λ d. d.shape };

    ghost done_accepted = { λ d. d.accepted };

    ghost done_taken = { λ d. d.taken };

    ghost done_left = { λ d. d.left };

    fn shape(&self) -> Shape {
        self.queue.shape()
    }

    /// Answers as one thread is answered, by the machine's steps.
    fn put(&self, seat: &mut SoloRetrySeat, entry: &[u64]) -> Put
        requires seat { IsSeatOf self.now seat.old }
        requires width { length entry.now ≡ self.now.shape.width }
        requires room { length seat.old.view.made < most_puts self.now.shape }
        ensures seat { (rail : Queue) → IsSeatOf rail seat.old → IsSeatOf rail seat.new }
        ensures takes { (rail : Queue) → IsSeatOf rail seat.old → IsSeatOf rail seat.new }
        ensures number { number_of seat.new ≡ number_of seat.old }
        ensures taken { seat.new.view.taken ≡ seat.old.view.taken }
        ensures answer { Puts self.now.shape false entry.now seat.old.view.made seat.new.view.made
            seat.new.view.trail result }
        ensures told { seat.new.view.answer ≡ Some (answer.Put result) }
        ensures exact { RetryPut self.now.shape (length seat.old.view.made)
            (length seat.old.view.taken) result }
        ensures steps { (steps : List Step)
            × TookSteps table self.now.shape entry.now table.first_put steps (answer.Put result)
            seat.new.view.trail seat.old.log seat.new.log }
    {
        self.queue.put(seat, entry)
    }

    /// Answers as one thread is answered, by the machine's steps.
    fn take(&self, seat: &mut SoloRetrySeat, out: &mut [u64]) -> Take
        requires seat { IsSeatOf self.now seat.old }
        requires width { length out.old ≡ self.now.shape.width }
        ensures seat { (rail : Queue) → IsSeatOf rail seat.old → IsSeatOf rail seat.new }
        ensures puts { (rail : Queue) → IsSeatOf rail seat.old → IsSeatOf rail seat.new }
        ensures number { number_of seat.new ≡ number_of seat.old }
        ensures made { seat.new.view.made ≡ seat.old.view.made }
        ensures answer { Takes self.now.shape false seat.new.view.made out.old out.new
            seat.old.view.taken seat.new.view.taken seat.new.view.trail result }
        ensures told { seat.new.view.answer ≡ Some (answer.Take result) }
        ensures exact { result
            ≡ retry_take (length seat.old.view.made) (length seat.old.view.taken) }
        ensures steps { (steps : List Step)
            × TookSteps table self.now.shape []
            (table.first_take self.now.shape seat.old.view.taken) steps (answer.Take result)
            seat.new.view.trail seat.old.log seat.new.log }
    {
        self.queue.take(seat, first_take(), out)
    }

    fn close(
        self,
        alloc: Global,
        seats: Vec<Self::Seat>,
    ) -> Result<Self::Done, Refused<Self, Self::Seat>>
        requires seats { All (IsSeatOf self) seats.items }
        requires all { IsPermutation (map number_of seats.items) (numbers_below self.shape.seats) }
        ensures shape { IfOk result (λ done. done.shape ≡ self.shape) }
        ensures accepted { IfOk result
            (λ done. IsAccepted (flat_map (λ (s : Seated Phase). s.view.made) seats.items)
            done.accepted) }
        ensures taken { IfOk result
            (λ done. IsPermutation (flat_map (λ (s : Seated Phase). s.view.taken) seats.items)
            done.taken) }
        ensures order { IfOk result (λ done. IsRising (places done.taken)) }
        ensures retry { false ≡ false
            → IfOk result (λ done. RetryOutcome done.accepted done.taken done.left) }
        ensures drop { false ≡ true
            → IfOk result (λ done. DropOutcome done.shape done.accepted done.taken done.left) }
        ensures refused { IfErr result (λ refused. (refused.rail ≡ self)
            × (refused.seats.items ≡ seats.items)) }
    {
        let _shape = self.queue.shape();
        match Batch::with_room(alloc, untaken_of(&seats) as usize) {
            Ok(left) => Ok(self.finish(only(seats), left)),
            Err(_) => Err(Refused { rail: self, seats }),
        }
    }

    fn puts(seat: &SoloRetrySeat) -> u64 {
        seat.puts()
    }

    fn accepted(done: &SoloRetryDone) -> u64 {
        done.accepted
    }

    fn left(done: &SoloRetryDone) -> &Batch {
        &done.left
    }
}
