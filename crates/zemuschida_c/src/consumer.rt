//! The consumer's seat.
ghost use Rattle.std.specs.Prelude.{◌≡◌};
ghost use Rattle.sole_core.specs.Table.{consumer};
ghost use Rattle.sole_rail.specs.Consumer.{IsConsumerOf};

use crate::own::OwnSeat;
use sole_rail::SoleRail;
use std::marker::Model;

/// The seat that takes from a queue with a sole consumer.
#[derive(Drop)]
pub struct Consumer {
    pub(crate) own: OwnSeat<SoleRail>,
}

impl Model for Consumer {
    ghost use Rattle.std.specs.Prelude.{◌≡◌};
    ghost use Rattle.call_steps.specs.Queue.{Queue, Seated};
    ghost use Rattle.sole_core.specs.Table.{consumer};
    ghost use Rattle.sole_core.specs.declared.phase.SolePhase.{SolePhase};
    ghost use Rattle.zemuschida_c.specs.Owned.{Owned};

    ghost Value = { Owned Queue (Seated SolePhase) };

    ghost view = { λ s. s.own };

    ghost invariant = { λ s. s.own.seat.number ≡ consumer };
}

impl Consumer {
    pub(crate) fn of(own: OwnSeat<SoleRail>) -> Consumer
        requires { own.seat.number ≡ consumer }
        ensures { result ≡ own }
    {
        Consumer { own }
    }

    /// The seat takes. It does nothing when it runs.
    #[inline(always)]
    pub(crate) fn takes(&self)
        ensures { IsConsumerOf self.now.rail self.now.seat }
    {
        self.own.sits();
    }
}
