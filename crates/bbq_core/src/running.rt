//! The phases as those of calls that run over shared words.
ghost use Rattle.std.specs.Prelude.{false};

use crate::phase::Phase;
use crate::take_phase::TakePhase;
use call_laws::CallPhase;

impl CallPhase for Phase {
    ghost drops = { false };

    #[inline(always)]
    fn usual_step(&self) -> u64 {
        match *self {
            Phase::Put(put) => put.usual_step(),
            Phase::Take(TakePhase::HeadC { .. }) => 0,
            Phase::Take(TakePhase::SeeRes { .. }) => 1,
            Phase::Take(TakePhase::SeeCom { .. }) => 2,
            Phase::Take(TakePhase::SeeAll { .. }) => 3,
            Phase::Take(TakePhase::Reserve { .. }) => 4,
            Phase::Take(TakePhase::Read { .. }) => 5,
            _ => 6,
        }
    }

    fn calls() {}
}
