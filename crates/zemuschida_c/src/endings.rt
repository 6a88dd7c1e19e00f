//! How the queue of each kind of handle is closed.
ghost use Rattle.std.specs.Prelude.{◌≡◌, ◌≤◌, [], IsPermutation, false, map, true};
ghost use Rattle.std.specs.List.{All};
ghost use Rattle.rail.specs.Outcome.{numbers_below};
ghost use Rattle.bbq_core.specs.declared.phase.Phase.{Phase};
ghost use Rattle.drop_core.specs.declared.phase.DropPhase.{DropPhase};
ghost use Rattle.block_looks.specs.declared.looks.Looks.{Looks};
ghost use Rattle.call_steps.specs.Queue.{IsSeatOf, Seated, SeatedWith};
ghost use Rattle.shared_seats.specs.Seats.{made_by_all, taken_by_all};
ghost use Rattle.retry_close.specs.Closed.{counted_left};
ghost use Rattle.drop_rail.specs.Closed.{counted_live};
ghost use Rattle.zemuschida_c.specs.Closed.{HasEnded};

use crate::closing::Closing;
use crate::ended::Ended;
use crate::held::Held;
use crate::kinds::{ZemRingSeat, ZemSeat};
use crate::own::OwnSeat;
use cursor_word::Shape;
use drop_rail::{DropRail, DropSeat, live_number};
use rail::{Batch, Rail};
use retry_close::left_number;
use retry_rail::{RetryRail, RetrySeat};

impl Closing for ZemSeat {
    ghost use Rattle.std.specs.Prelude.{◌-◌};

    ghost number_left = { λ shape puts takes. puts - takes };

    fn number_left(_shape: &Shape, puts: u64, takes: u64) -> u64 {
        left_number(puts, takes)
    }

    fn own_seat(held: &Held) -> &OwnSeat<RetryRail> {
        match held {
            Held::Seat(own) => own,
            _ => unreachable!(),
        }
    }

    fn into_own(held: Held) -> OwnSeat<RetryRail> {
        match held {
            Held::Seat(own) => own,
            _ => unreachable!(),
        }
    }

    fn takes(seat: &RetrySeat) -> u64 {
        seat.taken()
    }

    fn close_into(rail: RetryRail, seats: Vec<RetrySeat>, left: Batch) -> Ended
        requires seats { All (IsSeatOf rail) seats.items }
        requires all { IsPermutation (map (λ (s : Seated Phase). s.number) seats.items)
            (numbers_below rail.shape.seats) }
        requires empty { left.items ≡ [] }
        requires room { counted_left seats.items ≤ left.spare }
        ensures { HasEnded rail.shape false (made_by_all seats.items)
            (taken_by_all seats.items) result }
    {
        let done = rail.close_into(seats, left);
        let accepted = RetryRail::accepted(&done);
        Ended {
            accepted,
            left: done.into_left(),
        }
    }
}

impl Closing for ZemRingSeat {
    ghost use Rattle.std.specs.Prelude.{◌-◌};
    ghost use Rattle.cursor_word.specs.Cursor.{low};

    ghost number_left = { λ shape puts takes. puts - low shape puts };

    fn number_left(shape: &Shape, puts: u64, _takes: u64) -> u64 {
        live_number(shape, puts)
    }

    fn own_seat(held: &Held) -> &OwnSeat<DropRail> {
        match held {
            Held::RingSeat(own) => own,
            _ => unreachable!(),
        }
    }

    fn into_own(held: Held) -> OwnSeat<DropRail> {
        match held {
            Held::RingSeat(own) => own,
            _ => unreachable!(),
        }
    }

    fn takes(seat: &DropSeat) -> u64 {
        seat.taken()
    }

    fn close_into(rail: DropRail, seats: Vec<DropSeat>, left: Batch) -> Ended
        requires seats { All (IsSeatOf rail) seats.items }
        requires all { IsPermutation
            (map (λ (s : SeatedWith DropPhase Looks). s.number) seats.items)
            (numbers_below rail.shape.seats) }
        requires empty { left.items ≡ [] }
        requires room { counted_live rail.shape seats.items ≤ left.spare }
        ensures { HasEnded rail.shape true (made_by_all seats.items)
            (taken_by_all seats.items) result }
    {
        let done = rail.close_into(seats, left);
        let accepted = DropRail::accepted(&done);
        Ended {
            accepted,
            left: done.into_left(),
        }
    }
}
