//! The phases as those of a machine.
ghost use Rattle.std.specs.Prelude.{◌≡◌};
ghost use Rattle.sole_core.specs.Table.{table};
ghost use Rattle.sole_core.specs.Sound.{IsSound};

use crate::phase::{SolePhase, sole_after, sole_first_put, sole_want};
use crate::take_phase::{SoleTake, sole_first_take};
use cursor_word::Shape;
use machine::{After, Op};
use rail::Batch;

impl machine::Phase for SolePhase {
    ghost table = { table };

    ghost Holds = { IsSound };

    #[inline(always)]
    fn first_put() -> SolePhase {
        sole_first_put()
    }

    #[inline(always)]
    fn first_take(shape: &Shape, taken: &Batch) -> SolePhase {
        sole_first_take(shape, taken)
    }

    #[inline(always)]
    fn want(&self, shape: &Shape, entry: &[u64]) -> Op {
        sole_want(shape, self, entry)
    }

    #[inline(always)]
    fn after(&self, shape: &Shape, old: u64) -> After<SolePhase> {
        sole_after(shape, self, old)
    }

    #[inline(always)]
    fn word_read(&self) -> Option<u64> {
        match *self {
            SolePhase::Take(SoleTake::Word { next, .. }) => Some(next),
            _ => None,
        }
    }

    fn keeps() {}

    fn ends() {}
}
