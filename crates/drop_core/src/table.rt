//! The phases as those of a machine.
ghost use Rattle.std.specs.Prelude.{◌≡◌, Some, None};
ghost use Rattle.drop_core.specs.Steps.{reading, table};
ghost use Rattle.drop_core.specs.Sound.{IsSound};

use crate::phase::{DropPhase, drop_after, drop_first_put, drop_want};
use crate::take_phase::{DropTake, drop_first_take};
use cursor_word::Shape;
use machine::{After, Op};
use rail::Batch;

impl machine::Phase for DropPhase {
    ghost table = { table };

    ghost Holds = { IsSound };

    #[inline(always)]
    fn first_put() -> DropPhase {
        drop_first_put()
    }

    #[inline(always)]
    fn first_take(_shape: &Shape, _taken: &Batch) -> DropPhase {
        drop_first_take()
    }

    #[inline(always)]
    fn want(&self, shape: &Shape, entry: &[u64]) -> Op {
        drop_want(shape, self, entry)
    }

    #[inline(always)]
    fn after(&self, shape: &Shape, old: u64) -> After<DropPhase> {
        drop_after(shape, self, old)
    }

    #[inline(always)]
    fn word_read(&self) -> Option<u64> {
        match *self {
            DropPhase::Take(DropTake::Read { next, .. }) => Some(next),
            _ => None,
        }
    }

    fn keeps() {}

    fn ends() {}
}
