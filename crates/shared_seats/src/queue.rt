//! A queue whose seats may each be used from a thread of its own.
ghost use Rattle.std.specs.Prelude.{◌≡◌, ◌<◌, List, [], ◌∷◌, ◌++◌, Some, IfOk, All, map, length};
ghost use Rattle.cursor_word.specs.Shape.{IsWithinLimits};
ghost use Rattle.rail.specs.Outcome.{numbers_below};
ghost use Rattle.cursor_word.specs.Cursor.{most_puts};
ghost use Rattle.cursor_word.specs.Layout.{word_count};
ghost use Rattle.rail.specs.Rail.{Puts, Takes};
ghost use Rattle.rail.specs.declared.answer.Answer.TheVariants as answer;
ghost use Rattle.machine.specs.declared.event.Start.TheVariants as start;
ghost use Rattle.step_log.specs.Log.{loaded};
ghost use Rattle.step_log.specs.declared.log.Step.{Step};
ghost use Rattle.call_steps.specs.Call.{TookSteps};
ghost use Rattle.call_steps.specs.Queue.{IsFresh, IsSeatOf, Queue};
ghost use Rattle.shared_seats.specs.Memory.{KeepsMemory};
ghost use Rattle.shared_seats.specs.Seats.{StandStill};

use crate::memory::{LoadFact, Memory};
use crate::rule::{Holdings, Remembers};
use crate::seats::{SharedSeat, deal, gather};
use call_laws::CallPhase;
use call_steps::{puts_after, run_put, run_take, takes_after};
use cursor_word::Shape;
use machine::start_words;
use rail::{Put, Take};
use std::alloc::{AllocError, Global};
use std::marker::{Brand, Model};
use step_log::{Stopped, Words};

/// The words of a queue, and what its seats do on them.
#[derive(Drop)]
pub struct SharedQueue<P: CallPhase, M: Memory<P>> {
    words: Words<Holdings<P, M>>,
    shape: Shape,
}

impl<P: CallPhase, M: Memory<P>> Model for SharedQueue<P, M> {
    ghost use Rattle.std.specs.Prelude.{◌≡◌};
    ghost use Rattle.cursor_word.specs.Layout.{word_count};
    ghost use Rattle.call_steps.specs.Queue.{Queue};

    ghost Value = { Queue };

    ghost view = { λ q. record { id = q.words.id; shape = q.words.key } };

    ghost invariant = { λ q. (q.words.key ≡ q.shape) × (q.words.id.words ≡ word_count q.shape) };
}

impl<P: CallPhase, M: Memory<P>> SharedQueue<P, M> {
    /// A queue of this shape, and all its seats. None of them has made or taken anything.
    pub fn make(
        alloc: Global,
        shape: Shape,
    ) -> Result<(SharedQueue<P, M>, Vec<SharedSeat<P, M>>), AllocError>
        ensures shape { IfOk result (λ r. r.0.shape ≡ shape) }
        ensures numbers { IfOk result (λ r. map (λ s. s.number) r.1.items
            ≡ numbers_below shape.seats) }
        ensures fresh { IfOk result (λ r. All (IsFresh r.0) r.1.items) }
        ensures memories { IfOk result (λ r. All (λ s. s.memory ≡ M.none) r.1.items) }
    {
        P::keeps();
        M::lasts();
        let _blocks = shape.blocks();
        let start = start_words(alloc, &shape)?;
        let (words, first) = Words::<Holdings<P, M>>::make(alloc, start, shape)?;
        let seats = deal::<P, M>(alloc, &words, first, &shape)?;
        Ok((SharedQueue { words, shape }, seats))
    }

    /// The shape of the queue.
    pub fn shape(&self) -> Shape
        ensures shape { result ≡ self.now.shape }
        ensures limits { IsWithinLimits result }
    {
        let _blocks = self.shape.blocks();
        self.shape
    }

    /// Puts an entry, by the machine's steps and no other.
    #[inline(always)]
    pub fn put(&self, seat: &mut SharedSeat<P, M>, entry: &[u64]) -> Put
        requires seat { IsSeatOf self.now seat.old }
        requires may { P.table.MayBegin self.now.shape seat.old.number (start.Put entry.now) }
        requires width { length entry.now ≡ self.now.shape.width }
        requires room { length seat.old.view.made < most_puts self.now.shape }
        ensures of { seat.new.of ≡ seat.old.of }
        ensures number { seat.new.number ≡ seat.old.number }
        ensures taken { seat.new.view.taken ≡ seat.old.view.taken }
        ensures memory { seat.new.memory ≡ seat.old.memory }
        ensures answer { Puts self.now.shape P.drops entry.now seat.old.view.made seat.new.view.made
            seat.new.view.trail result }
        ensures told { seat.new.view.answer ≡ Some (answer.Put result) }
        ensures steps { (steps : List Step)
            × TookSteps P.table self.now.shape entry.now P.table.first_put steps (answer.Put result)
            seat.new.view.trail seat.old.log seat.new.log }
    {
        let _blocks = self.shape.blocks();
        let result = run_put::<P, Holdings<P, M>, Brand>(
            &self.words,
            &self.shape,
            &mut seat.seat,
            entry,
        );
        seat.puts = puts_after(seat.puts, &result);
        result
    }

    /// Takes an entry, by the machine's steps and no other, from the phase in which a take begins.
    #[inline(always)]
    pub fn take(&self, seat: &mut SharedSeat<P, M>, first: P, out: &mut [u64]) -> Take
        requires seat { IsSeatOf self.now seat.old }
        requires may { P.table.MayBegin self.now.shape seat.old.number start.Take }
        requires first { first ≡ P.table.first_take self.now.shape seat.old.view.taken }
        requires width { length out.old ≡ self.now.shape.width }
        ensures of { seat.new.of ≡ seat.old.of }
        ensures number { seat.new.number ≡ seat.old.number }
        ensures made { seat.new.view.made ≡ seat.old.view.made }
        ensures memory { seat.new.memory ≡ seat.old.memory }
        ensures answer { Takes self.now.shape P.drops seat.new.view.made out.old out.new
            seat.old.view.taken seat.new.view.taken seat.new.view.trail result }
        ensures told { seat.new.view.answer ≡ Some (answer.Take result) }
        ensures steps { (steps : List Step)
            × TookSteps P.table self.now.shape [] first steps (answer.Take result)
            seat.new.view.trail seat.old.log seat.new.log }
    {
        let result = run_take::<P, Holdings<P, M>, Brand>(
            &self.words,
            &self.shape,
            &mut seat.seat,
            first,
            out,
        );
        seat.takes = takes_after(seat.takes, &result);
        result
    }

    /// Loads a word, which no step of the machine sees: of its seat nothing changes but what it
    /// remembers, and the log.
    #[inline(always)]
    pub fn load<F: LoadFact<P, M>>(&self, seat: &mut SharedSeat<P, M>, index: u64) -> u64
        requires seat { IsSeatOf self.now seat.old }
        requires index { index < word_count self.now.shape }
        requires keeps { KeepsMemory P.Holds M.Knows self.now.shape seat.old.view seat.old.memory
            index (F.then self.now.shape seat.old.view seat.old.memory) }
        ensures seat { seat.new ≡ record {
          of = seat.old.of;
          number = seat.old.number;
          view = seat.old.view;
          memory = seat.new.memory;
          log = seat.old.log ++ loaded index result ∷ [];
        } }
        ensures told { F.then self.now.shape seat.old.view seat.old.memory result
            seat.new.memory }
    {
        self.words.load::<Remembers<F>>(&mut seat.seat, index)
    }

    /// Stops all steps, with all seats of the queue.
    pub fn stop(self, seats: Vec<SharedSeat<P, M>>) -> Stopped
        requires seats { All (IsSeatOf self) seats.items }
        requires all { length seats.items ≡ self.shape.seats }
        ensures words { length result ≡ word_count self.shape }
        ensures stopped { StandStill P.table P.Holds M.Knows self.shape result seats.items }
    {
        let _blocks = self.shape.blocks();
        let SharedQueue { words, .. } = self;
        let all = gather::<P, M>(&words, seats);
        words.close(all)
    }
}
