//! The phases as those of calls that run over shared words.
ghost use Rattle.std.specs.Prelude.{true};

use crate::phase::DropPhase;
use crate::take_phase::DropTake;
use call_laws::{CallPhase, SharedPhase};

impl CallPhase for DropPhase {
    ghost drops = { true };

    #[inline(always)]
    fn usual_step(&self) -> u64 {
        match *self {
            DropPhase::Put(put) => put.usual_step(),
            DropPhase::Take(DropTake::HeadC { .. }) => 0,
            DropPhase::Take(DropTake::SeeRes { .. }) => 1,
            DropPhase::Take(DropTake::SeeCom { .. }) => 2,
            DropPhase::Take(DropTake::SeeAll { .. }) => 3,
            DropPhase::Take(DropTake::Reserve { .. }) => 4,
            DropPhase::Take(DropTake::Read { .. }) => 5,
            _ => 6,
        }
    }

    fn calls() {}
}

impl SharedPhase for DropPhase {
    fn seats() {}
}
