//! Closing a queue, with all its seats.
ghost use Rattle.std.specs.Prelude.{◌≡◌, ◌≢◌, ◌<◌, ◌≤◌, ◌⊎◌, ◌↔◌, List, false, length, map, true};
ghost use Rattle.bbq_core.specs.declared.phase.Phase.{Phase};
ghost use Rattle.drop_core.specs.declared.phase.DropPhase.{DropPhase};
ghost use Rattle.block_looks.specs.declared.looks.Looks.{Looks};
ghost use Rattle.call_steps.specs.Queue.{Queue, Seated, SeatedWith};
ghost use Rattle.shared_seats.specs.Seats.{made_by_all, taken_by_all};
ghost use Rattle.zemuschida_c.specs.Closed.{AreEmpty, AreFull, HasClosed, HasEnded, HaveSeatsOf};
ghost use Rattle.zemuschida_c.specs.Codes.{given_up, no_memory, no_seat, not_all_seats, ok};
ghost use Rattle.zemuschida_c.specs.Made.{Hold};
ghost use Rattle.zemuschida_c.specs.Seats.{in_ring_seat, in_seat, retry_kind, ring_kind};
ghost use Rattle.zemuschida_c.specs.declared.ended.Ended.{Ended};

use crate::closing::close_all;
use crate::kinds::{ZemClosed, ZemRingSeat, ZemSeat};
use std::alloc::Global;

/// Closes a queue that refuses, with all its seats: what it had goes into `closed`.
#[unsafe(no_mangle)]
pub extern "C" fn zem_close(alloc: Global, seats: &mut [ZemSeat], closed: &mut ZemClosed) -> u32
    requires all { AreFull in_seat seats.old → HaveSeatsOf retry_kind in_seat seats.old }
    ensures none { (result ≡ no_seat) ↔ (AreFull in_seat seats.old → ⊥) }
    ensures missing { AreFull in_seat seats.old → (queue : Queue) (all : List (Seated Phase))
        → Hold retry_kind in_seat queue seats.old all
        → length all ≢ queue.shape.seats → result ≡ not_all_seats }
    ensures complete { AreFull in_seat seats.old → (queue : Queue) (all : List (Seated Phase))
        → Hold retry_kind in_seat queue seats.old all → 0 < length all
        → length all ≡ queue.shape.seats → result ≢ not_all_seats }
    ensures refused { no_seat ≤ result → (map in_seat seats.new ≡ map in_seat seats.old)
        × (closed.new ≡ closed.old) }
    ensures given_up { result ≡ given_up → AreEmpty in_seat seats.new
        × (closed.new ≡ closed.old) }
    ensures closed { result ≡ ok → AreEmpty in_seat seats.new
        × ((queue : Queue) (all : List (Seated Phase))
        → Hold retry_kind in_seat queue seats.old all → (ended : Ended) × HasClosed closed.new ended
        × HasEnded queue.shape false (made_by_all all) (taken_by_all all) ended) }
    ensures known { (result ≡ ok) ⊎ (result ≡ given_up) ⊎ (result ≡ no_seat)
        ⊎ (result ≡ no_memory) ⊎ (result ≡ not_all_seats) }
{
    close_all(alloc, seats, closed)
}

/// Closes a queue that overwrites, with all its seats: what it had goes into `closed`.
#[unsafe(no_mangle)]
pub extern "C" fn zem_ring_close(
    alloc: Global,
    seats: &mut [ZemRingSeat],
    closed: &mut ZemClosed,
) -> u32
    requires all { AreFull in_ring_seat seats.old → HaveSeatsOf ring_kind in_ring_seat seats.old }
    ensures none { (result ≡ no_seat) ↔ (AreFull in_ring_seat seats.old → ⊥) }
    ensures missing { AreFull in_ring_seat seats.old → (queue : Queue)
        (all : List (SeatedWith DropPhase Looks)) → Hold ring_kind in_ring_seat queue seats.old all
        → length all ≢ queue.shape.seats → result ≡ not_all_seats }
    ensures complete { AreFull in_ring_seat seats.old → (queue : Queue)
        (all : List (SeatedWith DropPhase Looks)) → Hold ring_kind in_ring_seat queue seats.old all
        → 0 < length all → length all ≡ queue.shape.seats → result ≢ not_all_seats }
    ensures refused { no_seat ≤ result → (map in_ring_seat seats.new ≡ map in_ring_seat seats.old)
        × (closed.new ≡ closed.old) }
    ensures given_up { result ≡ given_up → AreEmpty in_ring_seat seats.new
        × (closed.new ≡ closed.old) }
    ensures closed { result ≡ ok → AreEmpty in_ring_seat seats.new
        × ((queue : Queue) (all : List (SeatedWith DropPhase Looks))
        → Hold ring_kind in_ring_seat queue seats.old all
        → (ended : Ended) × HasClosed closed.new ended
        × HasEnded queue.shape true (made_by_all all) (taken_by_all all) ended) }
    ensures known { (result ≡ ok) ⊎ (result ≡ given_up) ⊎ (result ≡ no_seat)
        ⊎ (result ≡ no_memory) ⊎ (result ≡ not_all_seats) }
{
    close_all(alloc, seats, closed)
}
