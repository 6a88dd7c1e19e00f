//! The rule of the shared words: between any two steps they and the views of all seats are a state
//! that the machine's invariant holds of.
ghost use Rattle.std.specs.Prelude.{◌≡◌};
ghost use Rattle.call_steps.specs.Rule.{value_of};
ghost use Rattle.shared_seats.specs.Holding.{HasLoaded, IsHeld, all_seats, first_seat, held_rule, joint_seats, no_seats, other_seats};

use crate::holding::Holding;
use crate::memory::{LoadFact, Memory};
use call_laws::CallPhase;
use call_steps::MachineRule;
use cursor_word::Shape;
use std::marker::PhantomData;
use step_log::{StepFact, StepRule};

pub struct Holdings<P, M> {
    of: PhantomData<(P, M)>,
}

impl<P: CallPhase, M: Memory<P>> StepRule for Holdings<P, M> {
    type Key = Shape;

    type View = Holding<P, M>;

    ghost holds = { IsHeld P.table P.Holds M.Knows };

    ghost first = { all_seats _ M.none };

    ghost spent = { no_seats _ _ };
}

impl<P: CallPhase, M: Memory<P>> MachineRule<P> for Holdings<P, M> {
    ghost rule = { held_rule P.table P.drops };

    fn runs() {
        P::keeps();
        P::calls();
        M::lasts();
    }
}

/// Seats are dealt, and gathered again.
pub struct Deal;

impl<P: CallPhase, M: Memory<P>> StepFact<Holdings<P, M>> for Deal {
    ghost then = { λ v t w. w ≡ v };

    ghost left = { other_seats };

    ghost right = { first_seat };

    ghost both = { joint_seats };
}

/// A load that only its seat's memory tells of.
pub(crate) struct Remembers<F> {
    fact: PhantomData<F>,
}

impl<P: CallPhase, M: Memory<P>, F: LoadFact<P, M>> StepFact<Holdings<P, M>> for Remembers<F> {
    ghost then = { λ v t w. HasLoaded M.none F.then v (value_of t) w };
}
