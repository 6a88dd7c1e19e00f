//! The queue of any machine for one seat.
ghost use Rattle.std.specs.Prelude.{◌≡◌, ℕ, ◌<◌, List, [], IfOk, Some, length};
ghost use Rattle.cursor_word.specs.Cursor.{most_puts};
ghost use Rattle.cursor_word.specs.Layout.{word_count};
ghost use Rattle.cursor_word.specs.Shape.{IsWithinLimits};
ghost use Rattle.rail.specs.Rail.{Puts, Takes};
ghost use Rattle.rail.specs.declared.answer.Answer.TheVariants as answer;
ghost use Rattle.step_log.specs.declared.log.Step.{Step};
ghost use Rattle.call_steps.specs.Call.{TookSteps};
ghost use Rattle.call_steps.specs.Queue.{IsFresh, IsSeatOf};
ghost use Rattle.solo_rail.specs.Solo.{HasStopped};

use crate::lone::LonePhase;
use crate::rule::Alone;
use crate::seat::SoloSeat;
use call_steps::{puts_after, run_put, run_take, takes_after};
use cursor_word::Shape;
use machine::start_words;
use rail::{Put, Take};
use std::alloc::{AllocError, Global};
use std::marker::{Brand, Model};
use step_log::{Stopped, Words};

/// The words of a queue, and what its one seat does on them.
#[derive(Drop)]
pub struct SoloQueue<P: LonePhase> {
    words: Words<Alone<P>>,
    shape: Shape,
}

impl<P: LonePhase> Model for SoloQueue<P> {
    ghost use Rattle.std.specs.Prelude.{◌≡◌};
    ghost use Rattle.cursor_word.specs.Layout.{word_count};
    ghost use Rattle.call_steps.specs.Queue.{Queue};

    ghost Value = { Queue };

    ghost view = { λ q. record { id = q.words.id; shape = q.shape } };

    ghost invariant = { λ q. (q.words.key ≡ q.shape) × (q.words.id.words ≡ word_count q.shape)
        × (q.shape.seats ≡ 1) };
}

impl<P: LonePhase> SoloQueue<P> {
    /// A queue of this shape and its one seat, which has made and taken nothing.
    pub fn make(alloc: Global, shape: Shape) -> Result<(SoloQueue<P>, SoloSeat<P>), AllocError>
        requires one { shape.seats ≡ 1 }
        ensures shape { IfOk result (λ r. r.0.shape ≡ shape) }
        ensures fresh { IfOk result (λ r. IsFresh r.0 r.1) }
    {
        P::answers_exactly();
        let _blocks = shape.blocks();
        let start = start_words(alloc, &shape)?;
        let (words, seat) = Words::<Alone<P>>::make(alloc, start, shape)?;
        let seat = SoloSeat {
            seat,
            puts: 0,
            takes: 0,
        };
        Ok((SoloQueue { words, shape }, seat))
    }

    /// The shape of the queue.
    pub fn shape(&self) -> Shape
        ensures shape { result ≡ self.now.shape }
        ensures limits { IsWithinLimits result }
        ensures one { result.seats ≡ 1 }
    {
        let _blocks = self.shape.blocks();
        self.shape
    }

    /// Puts an entry by the machine's steps and no other, and answers as the machine answers a seat
    /// that is alone.
    #[inline(always)]
    pub fn put(&self, seat: &mut SoloSeat<P>, entry: &[u64]) -> Put
        requires seat { IsSeatOf self.now seat.old }
        requires width { length entry.now ≡ self.now.shape.width }
        requires room { length seat.old.view.made < most_puts self.now.shape }
        ensures of { seat.new.of ≡ seat.old.of }
        ensures taken { seat.new.view.taken ≡ seat.old.view.taken }
        ensures answer { Puts self.now.shape P.drops entry.now seat.old.view.made seat.new.view.made
            seat.new.view.trail result }
        ensures told { seat.new.view.answer ≡ Some (answer.Put result) }
        ensures exact { P.lone.Answers self.now.shape seat.old.view.made seat.old.view.taken
            (answer.Put result) }
        ensures steps { (steps : List Step)
            × TookSteps P.table self.now.shape entry.now P.table.first_put steps (answer.Put result)
            seat.new.view.trail seat.old.log seat.new.log }
    {
        P::keeps();
        P::calls();
        P::answers_exactly();
        let _blocks = self.shape.blocks();
        let result = run_put::<P, Alone<P>, Brand>(&self.words, &self.shape, &mut seat.seat, entry);
        seat.puts = puts_after(seat.puts, &result);
        result
    }

    /// Takes an entry so, from the phase in which a take begins.
    #[inline(always)]
    pub fn take(&self, seat: &mut SoloSeat<P>, first: P, out: &mut [u64]) -> Take
        requires seat { IsSeatOf self.now seat.old }
        requires first { first ≡ P.table.first_take self.now.shape seat.old.view.taken }
        requires width { length out.old ≡ self.now.shape.width }
        ensures of { seat.new.of ≡ seat.old.of }
        ensures made { seat.new.view.made ≡ seat.old.view.made }
        ensures answer { Takes self.now.shape P.drops seat.new.view.made out.old out.new
            seat.old.view.taken seat.new.view.taken seat.new.view.trail result }
        ensures told { seat.new.view.answer ≡ Some (answer.Take result) }
        ensures exact { P.lone.Answers self.now.shape seat.old.view.made seat.old.view.taken
            (answer.Take result) }
        ensures steps { (steps : List Step)
            × TookSteps P.table self.now.shape [] first steps (answer.Take result)
            seat.new.view.trail seat.old.log seat.new.log }
    {
        P::keeps();
        P::calls();
        P::answers_exactly();
        let result = run_take::<P, Alone<P>, Brand>(
            &self.words,
            &self.shape,
            &mut seat.seat,
            first,
            out,
        );
        seat.takes = takes_after(seat.takes, &result);
        result
    }

    /// Stops all steps, with the one seat.
    pub fn stop(self, seat: SoloSeat<P>) -> Stopped
        requires seat { IsSeatOf self seat }
        ensures words { length result ≡ word_count self.shape }
        ensures stopped { HasStopped P.Holds self.shape result seat.view }
    {
        P::answers_exactly();
        let SoloQueue { words, .. } = self;
        let SoloSeat { seat, .. } = seat;
        words.close(seat)
    }
}
