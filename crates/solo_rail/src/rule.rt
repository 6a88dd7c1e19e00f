//! The rule of the words: the one seat knows them, and stands alone.
ghost use Rattle.solo_rail.specs.Holding.{IsHeld, alone_rule, first_holding, no_holding};

use crate::holding::Holding;
use crate::lone::LonePhase;
use call_steps::MachineRule;
use cursor_word::Shape;
use std::marker::PhantomData;
use step_log::StepRule;

/// The rule of a queue with one seat.
pub struct Alone<P> {
    of: PhantomData<P>,
}

impl<P: LonePhase> StepRule for Alone<P> {
    type Key = Shape;

    type View = Holding<P>;

    ghost holds = { IsHeld P.table P.lone };

    ghost first = { first_holding _ };

    ghost spent = { no_holding _ };
}

impl<P: LonePhase> MachineRule<P> for Alone<P> {
    ghost rule = { alone_rule P.table P.drops P.lone };

    fn runs() {
        P::keeps();
        P::calls();
        P::answers_exactly();
    }
}
