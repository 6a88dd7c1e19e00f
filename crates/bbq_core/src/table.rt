//! The phases as those of a machine.
ghost use Rattle.std.specs.Prelude.{◌≡◌};
ghost use Rattle.bbq_core.specs.Table.{table};
ghost use Rattle.bbq_core.specs.Sound.{IsSound};

use crate::phase::{Phase, after, first_put, want};
use crate::take_phase::{TakePhase, first_take};
use cursor_word::Shape;
use machine::{After, Op};
use rail::Batch;

impl machine::Phase for Phase {
    ghost table = { table };

    ghost Holds = { IsSound };

    #[inline(always)]
    fn first_put() -> Phase {
        first_put()
    }

    #[inline(always)]
    fn first_take(_shape: &Shape, _taken: &Batch) -> Phase {
        first_take()
    }

    #[inline(always)]
    fn want(&self, shape: &Shape, entry: &[u64]) -> Op {
        want(shape, self, entry)
    }

    #[inline(always)]
    fn after(&self, shape: &Shape, old: u64) -> After<Phase> {
        after(shape, self, old)
    }

    #[inline(always)]
    fn word_read(&self) -> Option<u64> {
        match *self {
            Phase::Take(TakePhase::Read { next, .. }) => Some(next),
            _ => None,
        }
    }

    fn keeps() {}

    fn ends() {}
}
