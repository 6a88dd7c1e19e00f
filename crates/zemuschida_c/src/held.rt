//! What lies in the memory behind a handle.
ghost use Rattle.std.specs.Prelude.{◌≡◌, IfOk};
ghost use Rattle.std.specs.Mem.{manually_drop_value};

use crate::consumer::Consumer;
use crate::ended::Ended;
use crate::own::OwnSeat;
use drop_rail::DropRail;
use retry_rail::RetryRail;
use sole_rail::SoleRail;
use std::alloc::{AllocError, Global};
use std::mem::ManuallyDrop;

/// A seat of a queue that refuses, of one that overwrites, or of one with a sole consumer, whose
/// seat is of a kind of its own; or what a closed queue had.
#[derive(Drop)]
pub enum Held {
    Seat(OwnSeat<RetryRail>),
    RingSeat(OwnSeat<DropRail>),
    LogSeat(OwnSeat<SoleRail>),
    LogConsumer(Consumer),
    Closed(Ended),
}

/// It stays on the heap while its pointer is with C, whatever code is left by then.
pub(crate) type Kept = Box<ManuallyDrop<Held>>;

pub(crate) fn keep(alloc: Global, held: Held) -> Result<Kept, AllocError>
    ensures { IfOk result (λ kept. manually_drop_value kept.value ≡ held) }
{
    match Box::new(alloc, ManuallyDrop::new(held)) {
        Ok(kept) => Ok(kept),
        Err(failed) => {
            drop(ManuallyDrop::into_inner(failed.value));
            Err(AllocError)
        }
    }
}

pub(crate) fn give_up(kept: Kept) {
    drop(ManuallyDrop::into_inner(Box::into_inner(kept)));
}
