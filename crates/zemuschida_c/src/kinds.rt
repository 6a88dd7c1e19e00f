//! The handles that C holds, one for each kind of seat.
ghost use Rattle.std.specs.Prelude.{◌≡◌, true};
ghost use Rattle.zemuschida_c.specs.Held.{fits, is_closed, is_log_consumer, is_log_seat, is_ring_seat, is_seat};

use crate::answer::ZemAnswer;
use crate::calls::{Putting, SeatHandle, Taking};
use crate::handle::Handle;
use crate::held::{Held, Kept};
use bbq_core::Phase;
use block_looks::Looks;
use drop_core::DropPhase;
use sole_core::SolePhase;
use std::alloc::Global;

/// A seat of a queue that refuses, or none.
#[repr(C)]
#[derive(Drop)]
pub struct ZemSeat {
    pub(crate) handle: Handle,
    ghost kind: { fits is_seat handle.slot.value ≡ true },
}

/// A seat of a queue that overwrites, or none.
#[repr(C)]
#[derive(Drop)]
pub struct ZemRingSeat {
    pub(crate) handle: Handle,
    ghost kind: { fits is_ring_seat handle.slot.value ≡ true },
}

/// A seat of a queue with a sole consumer that puts, or none.
#[repr(C)]
#[derive(Drop)]
pub struct ZemLogSeat {
    pub(crate) handle: Handle,
    ghost kind: { fits is_log_seat handle.slot.value ≡ true },
}

/// The seat that takes from a queue with a sole consumer, or none.
#[repr(C)]
#[derive(Drop)]
pub struct ZemLogConsumer {
    pub(crate) handle: Handle,
    ghost kind: { fits is_log_consumer handle.slot.value ≡ true },
}

/// What a closed queue had, or nothing.
#[repr(C)]
#[derive(Drop)]
pub struct ZemClosed {
    pub(crate) handle: Handle,
    ghost kind: { fits is_closed handle.slot.value ≡ true },
}

impl SeatHandle for ZemSeat {
    ghost use Rattle.std.specs.Prelude.{false};
    ghost use Rattle.zemuschida_c.specs.Held.{is_seat};
    ghost use Rattle.zemuschida_c.specs.Seats.{in_seat, retry_kind};

    type Phase = Phase;

    type Memory = ();

    ghost drops = { false };

    ghost kind = { retry_kind };

    ghost is_kind = { is_seat };

    ghost value = { in_seat };

    fn none(alloc: Global) -> ZemSeat {
        ZemSeat {
            handle: Handle::none(alloc),
        }
    }

    fn of(alloc: Global, kept: Kept) -> ZemSeat {
        ZemSeat {
            handle: Handle::of(alloc, kept),
        }
    }

    fn into_kept(self) -> Option<Kept> {
        let ZemSeat { handle } = self;
        handle.into_kept()
    }
}

impl SeatHandle for ZemRingSeat {
    ghost use Rattle.std.specs.Prelude.{true};
    ghost use Rattle.zemuschida_c.specs.Held.{is_ring_seat};
    ghost use Rattle.zemuschida_c.specs.Seats.{in_ring_seat, ring_kind};

    type Phase = DropPhase;

    type Memory = Looks;

    ghost drops = { true };

    ghost kind = { ring_kind };

    ghost is_kind = { is_ring_seat };

    ghost value = { in_ring_seat };

    fn none(alloc: Global) -> ZemRingSeat {
        ZemRingSeat {
            handle: Handle::none(alloc),
        }
    }

    fn of(alloc: Global, kept: Kept) -> ZemRingSeat {
        ZemRingSeat {
            handle: Handle::of(alloc, kept),
        }
    }

    fn into_kept(self) -> Option<Kept> {
        let ZemRingSeat { handle } = self;
        handle.into_kept()
    }
}

impl SeatHandle for ZemLogSeat {
    ghost use Rattle.std.specs.Prelude.{false};
    ghost use Rattle.zemuschida_c.specs.Held.{is_log_seat};
    ghost use Rattle.zemuschida_c.specs.Seats.{in_log_seat, log_kind};

    type Phase = SolePhase;

    type Memory = ();

    ghost drops = { false };

    ghost kind = { log_kind };

    ghost is_kind = { is_log_seat };

    ghost value = { in_log_seat };

    fn none(alloc: Global) -> ZemLogSeat {
        ZemLogSeat {
            handle: Handle::none(alloc),
        }
    }

    fn of(alloc: Global, kept: Kept) -> ZemLogSeat {
        ZemLogSeat {
            handle: Handle::of(alloc, kept),
        }
    }

    fn into_kept(self) -> Option<Kept> {
        let ZemLogSeat { handle } = self;
        handle.into_kept()
    }
}

impl SeatHandle for ZemLogConsumer {
    ghost use Rattle.std.specs.Prelude.{false};
    ghost use Rattle.zemuschida_c.specs.Held.{is_log_consumer};
    ghost use Rattle.zemuschida_c.specs.Seats.{consumer_kind, in_log_consumer};

    type Phase = SolePhase;

    type Memory = ();

    ghost drops = { false };

    ghost kind = { consumer_kind };

    ghost is_kind = { is_log_consumer };

    ghost value = { in_log_consumer };

    fn none(alloc: Global) -> ZemLogConsumer {
        ZemLogConsumer {
            handle: Handle::none(alloc),
        }
    }

    fn of(alloc: Global, kept: Kept) -> ZemLogConsumer {
        ZemLogConsumer {
            handle: Handle::of(alloc, kept),
        }
    }

    fn into_kept(self) -> Option<Kept> {
        let ZemLogConsumer { handle } = self;
        handle.into_kept()
    }
}

impl Putting for ZemSeat {
    #[inline(always)]
    fn put_held(held: &mut Held, entry: &[u64], answer: &mut ZemAnswer) -> u32 {
        match held {
            Held::Seat(own) => own.put(entry, answer),
            _ => unreachable!(),
        }
    }
}

impl Putting for ZemRingSeat {
    #[inline(always)]
    fn put_held(held: &mut Held, entry: &[u64], answer: &mut ZemAnswer) -> u32 {
        match held {
            Held::RingSeat(own) => own.put(entry, answer),
            _ => unreachable!(),
        }
    }
}

impl Putting for ZemLogSeat {
    #[inline(always)]
    fn put_held(held: &mut Held, entry: &[u64], answer: &mut ZemAnswer) -> u32 {
        match held {
            Held::LogSeat(own) => own.put(entry, answer),
            _ => unreachable!(),
        }
    }
}

impl Taking for ZemSeat {
    #[inline(always)]
    fn take_held(held: &mut Held, out: &mut [u64], answer: &mut ZemAnswer) -> u32 {
        match held {
            Held::Seat(own) => {
                own.sits();
                own.take(out, answer)
            }
            _ => unreachable!(),
        }
    }
}

impl Taking for ZemRingSeat {
    #[inline(always)]
    fn take_held(held: &mut Held, out: &mut [u64], answer: &mut ZemAnswer) -> u32 {
        match held {
            Held::RingSeat(own) => {
                own.sits();
                own.take(out, answer)
            }
            _ => unreachable!(),
        }
    }
}

impl Taking for ZemLogConsumer {
    #[inline(always)]
    fn take_held(held: &mut Held, out: &mut [u64], answer: &mut ZemAnswer) -> u32 {
        match held {
            Held::LogConsumer(consumer) => {
                consumer.takes();
                consumer.own.take(out, answer)
            }
            _ => unreachable!(),
        }
    }
}
