//! A closed queue.
use crate::lone::LonePhase;
use crate::seat::SoloSeat;
use cursor_word::Shape;
use rail::Batch;
use std::marker::Model;
use std::snapshot::Snapshot;

/// What a closed queue of one seat had.
#[derive(Drop)]
pub struct SoloDone<P: LonePhase> {
    pub(crate) shape: Shape,
    pub(crate) accepted: u64,
    pub(crate) left: Batch,
    pub(crate) seat: Snapshot<SoloSeat<P>>,
}

impl<P: LonePhase> Model for SoloDone<P> {
    ghost use Rattle.std.specs.Prelude.{◌≡◌, length};
    ghost use Rattle.call_steps.specs.Queue.{Closed};

    ghost Value = { Closed };

    ghost view = { λ d.
        record {
          shape = d.shape;
          accepted = d.seat.value.view.made;
          taken = d.seat.value.view.taken;
          left = d.left.items;
        } };

    ghost invariant = { λ d. d.accepted ≡ length d.seat.value.view.made };
}
