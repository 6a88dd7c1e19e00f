//! Looks: readings that take nothing.
ghost use Rattle.std.specs.Prelude.{◌≡◌, ◌<◌, ◌≤◌, [], ◌∷◌, ◌++◌, Some, length, slice_index, take};
ghost use Rattle.step_log.specs.Log.{loaded};
ghost use Rattle.call_steps.specs.Queue.{IsSeatOf};
ghost use Rattle.block_looks.specs.declared.look.LookAfter.TheVariants as after;
ghost use Rattle.block_looks.specs.declared.look.LookPhase.TheVariants as phase;
ghost use Rattle.block_looks.specs.Table.{IsLookInRange, look_after, look_want};
ghost use Rattle.block_looks.specs.Looks.{IsLookedAt, MayLook, found_before, looked_after, looked_on, looking_after};
ghost use Rattle.block_looks.specs.Shown.{BlockShown, IsNewest, LookShows};
ghost use Rattle.block_looks.specs.declared.look.LookPhase.{LookPhase};
ghost use Rattle.drop_rail.specs.Looking.{HasLooked, IsStepTold};

use crate::drop::{DropRail, DropSeat};
use block_looks::{Look, LookAfter, LookPhase, Looks, Seen, look_after, look_law, look_want};
use cursor_word::{Cursor, Shape};
use drop_core::DropPhase;
use shared_seats::LoadFact;
use std::marker::{Brand, PhantomData};

/// The step of a look that a load is. Its caller picks it.
pub trait LookStep {
    ghost phase: { LookPhase };
}

impl LookStep for Brand {
    ghost phase = { phase.Head };
}

/// What the load of a step tells.
pub struct StepOf<E> {
    step: PhantomData<E>,
}

impl<E: LookStep> LoadFact<DropPhase, Looks> for StepOf<E> {
    ghost then = { IsStepTold E.phase };
}

impl DropRail {
    // The load of a step.
    #[inline(always)]
    fn look_load<E: LookStep>(&self, shape: &Shape, seat: &mut DropSeat, step: &LookPhase) -> u64
        requires seat { IsSeatOf self.now seat.old }
        requires shape { shape.now ≡ self.now.shape }
        requires step { step.now ≡ E.phase }
        requires may { MayLook shape.now seat.old.memory step.now }
        requires range { IsLookInRange shape.now step.now }
        ensures seat { seat.new ≡ record {
          of = seat.old.of;
          number = seat.old.number;
          view = seat.old.view;
          memory = looked_on shape.now seat.old.memory step.now result;
          log = seat.old.log ++ loaded (look_want shape.now step.now) result ∷ [];
        } }
        ensures shows { LookShows shape.now seat.old.view.made step.now
            (found_before shape.now seat.old.memory step.now)
            (look_after shape.now step.now result) }
    {
        look_law();
        let index = look_want(shape, step);
        self.queue.load::<StepOf<E>>(seat, index)
    }

    // One step of a look.
    #[inline(always)]
    fn look_step(&self, shape: &Shape, seat: &mut DropSeat, step: &LookPhase) -> u64
        requires seat { IsSeatOf self.now seat.old }
        requires shape { shape.now ≡ self.now.shape }
        requires may { MayLook shape.now seat.old.memory step.now }
        requires range { IsLookInRange shape.now step.now }
        ensures seat { seat.new ≡ record {
          of = seat.old.of;
          number = seat.old.number;
          view = seat.old.view;
          memory = looked_on shape.now seat.old.memory step.now result;
          log = seat.old.log ++ loaded (look_want shape.now step.now) result ∷ [];
        } }
        ensures shows { LookShows shape.now seat.old.view.made step.now
            (found_before shape.now seat.old.memory step.now)
            (look_after shape.now step.now result) }
    {
        self.look_load::<Brand>(shape, seat, step)
    }

    /// The cursor that allocates in the newest block, as a put finds it: the producer head, and
    /// then the allocated cursor of its block.
    pub fn look_head(&self, seat: &mut DropSeat) -> Cursor
        requires seat { IsSeatOf self.now seat.old }
        ensures look { HasLooked self.now.shape seat.old seat.new phase.Head (after.Head result) }
        ensures looked { seat.new.memory.looked ≡ seat.old.memory.looked }
        ensures looking { seat.new.memory.looking ≡ seat.old.memory.looking }
        ensures newest { IsNewest self.now.shape seat.new.view.made
            (slice_index seat.new.memory.look_trail 0) result }
    {
        let shape = self.queue.shape();
        let head = self.look_step(&shape, seat, &LookPhase::Head);
        let found = self.look_step(&shape, seat, &LookPhase::HeadA { head });
        Cursor::unpack(found)
    }

    /// Whether a block's entries stand, and how many, by its committed cursor and then its
    /// allocated one.
    pub fn look_block(&self, seat: &mut DropSeat, block: u64) -> Look
        requires seat { IsSeatOf self.now seat.old }
        requires block { self.now.shape.blocks ≤ block }
        ensures look { HasLooked self.now.shape seat.old seat.new (phase.Com block)
            (after.Block result) }
        ensures looked { seat.new.memory.looked ≡ seat.old.memory.looked }
        ensures looking { seat.new.memory.looking
            ≡ looking_after seat.old.memory.looking (after.Block result) }
        ensures shown { BlockShown self.now.shape seat.new.view.made block result }
    {
        let shape = self.queue.shape();
        let found = self.look_step(&shape, seat, &LookPhase::Com { block });
        let committed = Cursor::unpack(found);
        if committed.block < block {
            return Look::Unopened { committed };
        }
        let step = LookPhase::All { block, committed };
        let found = self.look_step(&shape, seat, &step);
        match look_after(&shape, &step, found) {
            LookAfter::Block(look) => look,
            _ => unreachable!(),
        }
    }

    /// Reads the words of an entry, and then whether its block still stands: only then are they
    /// those of the entry. Otherwise `out` holds any numbers.
    pub fn look_entry(&self, seat: &mut DropSeat, at: Cursor, out: &mut [u64]) -> Seen
        requires seat { IsSeatOf self.now seat.old }
        requires looking { IsLookedAt seat.old.memory.looking at }
        requires offset { at.offset < self.now.shape.size }
        requires width { length out.old ≡ self.now.shape.width }
        ensures look { HasLooked self.now.shape seat.old seat.new (phase.Word at 0)
            (after.Entry result) }
        ensures looked { seat.new.memory.looked
            ≡ looked_after self.now.shape seat.old.memory.looked (phase.Check at) out.new
            (after.Entry result) }
        ensures looking { seat.new.memory.looking ≡ seat.old.memory.looking }
        ensures look_at { seat.new.memory.look_at ≡ Some at }
        ensures words { out.new ≡ take self.now.shape.width seat.new.memory.look_trail }
        ensures shown { LookShows self.now.shape seat.new.view.made (phase.Check at) out.new
            (after.Entry result) }
    {
        let shape = self.queue.shape();
        let width = shape.width();
        for next in 0..width {
            let step = LookPhase::Word { at, next };
            let found = self.look_step(&shape, seat, &step);
            out[next as usize] = found;
        }
        let last = self.look_step(&shape, seat, &LookPhase::Check { at });
        let now = Cursor::unpack(last);
        if now.block == at.block {
            Seen::Whole
        } else {
            Seen::Reused { now }
        }
    }
}
