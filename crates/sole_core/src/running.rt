//! The phases as those of calls that run over shared words.
ghost use Rattle.std.specs.Prelude.{false};

use crate::phase::SolePhase;
use crate::take_phase::SoleTake;
use call_laws::CallPhase;

impl CallPhase for SolePhase {
    ghost drops = { false };

    #[inline(always)]
    fn usual_step(&self) -> u64 {
        match *self {
            SolePhase::Put(put) => put.usual_step(),
            SolePhase::Take(SoleTake::Com { .. }) => 0,
            SolePhase::Take(SoleTake::All { .. }) => 1,
            SolePhase::Take(SoleTake::Word { .. }) => 2,
            SolePhase::Take(SoleTake::Consume { .. }) => 3,
            _ => 6,
        }
    }

    fn calls() {}
}
