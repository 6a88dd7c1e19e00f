//! How a new seat goes into a handle of its kind.
ghost use Rattle.std.specs.Prelude.{◌≡◌, IfOk, Some};
ghost use Rattle.std.specs.Arc.{arc_value};
ghost use Rattle.call_steps.specs.Queue.{IsSeatOf};
ghost use Rattle.sole_rail.specs.Consumer.{IsConsumerOf};
ghost use Rattle.zemuschida_c.specs.Owned.{owned};
ghost use Rattle.zemuschida_c.specs.Seats.{consumer_kind, in_log_consumer, in_log_seat, in_ring_seat, in_seat, log_kind, retry_kind, ring_kind};

use crate::calls::SeatHandle;
use crate::consumer::Consumer;
use crate::held::{Held, keep};
use crate::kinds::{ZemLogConsumer, ZemLogSeat, ZemRingSeat, ZemSeat};
use crate::making::Seating;
use crate::own::OwnSeat;
use drop_rail::{DropRail, DropSeat};
use retry_rail::{RetryRail, RetrySeat};
use sole_rail::{SoleRail, SoleSeat};
use std::alloc::{AllocError, Global};
use std::sync::Arc;

impl Seating for ZemSeat {
    ghost use Rattle.call_steps.specs.Queue.{IsSeatOf};
    ghost use Rattle.zemuschida_c.specs.Owned.{owned};
    ghost use Rattle.zemuschida_c.specs.Seats.{retry_kind};

    type Queue = RetryRail;

    ghost MayHave = { IsSeatOf };

    ghost own = { λ rail seat. retry_kind (owned rail seat) };

    fn seated(
        alloc: Global,
        rail: Arc<RetryRail, Global>,
        seat: RetrySeat,
    ) -> Result<ZemSeat, AllocError>
        requires { IsSeatOf (arc_value rail) seat }
        ensures { IfOk result (λ handle. in_seat handle
            ≡ Some (retry_kind (owned (arc_value rail) seat))) }
    {
        let held = Held::Seat(OwnSeat::of(rail, seat));
        Ok(ZemSeat::of(alloc, keep(alloc, held)?))
    }
}

impl Seating for ZemRingSeat {
    ghost use Rattle.call_steps.specs.Queue.{IsSeatOf};
    ghost use Rattle.zemuschida_c.specs.Owned.{owned};
    ghost use Rattle.zemuschida_c.specs.Seats.{ring_kind};

    type Queue = DropRail;

    ghost MayHave = { IsSeatOf };

    ghost own = { λ rail seat. ring_kind (owned rail seat) };

    fn seated(
        alloc: Global,
        rail: Arc<DropRail, Global>,
        seat: DropSeat,
    ) -> Result<ZemRingSeat, AllocError>
        requires { IsSeatOf (arc_value rail) seat }
        ensures { IfOk result (λ handle. in_ring_seat handle
            ≡ Some (ring_kind (owned (arc_value rail) seat))) }
    {
        let held = Held::RingSeat(OwnSeat::of(rail, seat));
        Ok(ZemRingSeat::of(alloc, keep(alloc, held)?))
    }
}

impl Seating for ZemLogSeat {
    ghost use Rattle.call_steps.specs.Queue.{IsSeatOf};
    ghost use Rattle.zemuschida_c.specs.Owned.{owned};
    ghost use Rattle.zemuschida_c.specs.Seats.{log_kind};

    type Queue = SoleRail;

    ghost MayHave = { IsSeatOf };

    ghost own = { λ rail seat. log_kind (owned rail seat) };

    fn seated(
        alloc: Global,
        rail: Arc<SoleRail, Global>,
        seat: SoleSeat,
    ) -> Result<ZemLogSeat, AllocError>
        requires { IsSeatOf (arc_value rail) seat }
        ensures { IfOk result (λ handle. in_log_seat handle
            ≡ Some (log_kind (owned (arc_value rail) seat))) }
    {
        let held = Held::LogSeat(OwnSeat::of(rail, seat));
        Ok(ZemLogSeat::of(alloc, keep(alloc, held)?))
    }
}

impl Seating for ZemLogConsumer {
    ghost use Rattle.sole_rail.specs.Consumer.{IsConsumerOf};
    ghost use Rattle.zemuschida_c.specs.Owned.{owned};
    ghost use Rattle.zemuschida_c.specs.Seats.{consumer_kind};

    type Queue = SoleRail;

    ghost MayHave = { IsConsumerOf };

    ghost own = { λ rail seat. consumer_kind (owned rail seat) };

    fn seated(
        alloc: Global,
        rail: Arc<SoleRail, Global>,
        seat: SoleSeat,
    ) -> Result<ZemLogConsumer, AllocError>
        requires { IsConsumerOf (arc_value rail) seat }
        ensures { IfOk result (λ handle. in_log_consumer handle
            ≡ Some (consumer_kind (owned (arc_value rail) seat))) }
    {
        let held = Held::LogConsumer(Consumer::of(OwnSeat::of(rail, seat)));
        Ok(ZemLogConsumer::of(alloc, keep(alloc, held)?))
    }
}
