//! What the closing of a queue of any kind does.
ghost use Rattle.std.specs.Prelude.{◌≡◌, ◌≢◌, ℕ, ◌+◌, ◌-◌, ◌^◌, ◌≤◌, ◌<◌, ◌⊎◌, ◌↔◌, ◌++◌, [], List, None, Option, Some, IfOk, IfSome, IsSome, IsPermutation, false, flat_map, length, map, min, true, vec_capacity, vec_len};
ghost use Rattle.std.specs.Arc.{arc_value};
ghost use Rattle.std.specs.List.{All};
ghost use Rattle.cursor_word.specs.Shape.{Grid};
ghost use Rattle.rail.specs.Outcome.{numbers_below};
ghost use Rattle.zemuschida_c.specs.Closed.{AreEmpty, AreFull, HasClosed, HasEnded, HaveSeats, in_closed};
ghost use Rattle.zemuschida_c.specs.Codes.{given_up, no_memory, no_seat, not_all_seats, ok};
ghost use Rattle.zemuschida_c.specs.Owned.{owned};
ghost use Rattle.zemuschida_c.specs.declared.ended.Ended.{Ended};
ghost use Rattle.zemuschida_c.specs.declared.held.Held.{Held};

use crate::answer::{CLOSED, GIVEN_UP, MEMORY, NOT_ALL_SEATS, OK};
use crate::calls::{SeatHandle, take_out};
use crate::ended::Ended;
use crate::held::{Held, Kept, give_up, keep};
use crate::kinds::ZemClosed;
use crate::making::Seating;
use crate::own::OwnSeat;
use cursor_word::Shape;
use rail::{Batch, Rail};
use std::alloc::{AllocError, Global};
use std::mem::ManuallyDrop;
use std::sync::Arc;

/// A handle of a queue that can be closed.
pub trait Closing: Seating {
    /// How many entries a close lays out, by the shape and how many its seats put and took.
    ghost number_left: { Grid → ℕ → ℕ → ℕ };

    fn number_left(shape: &Shape, puts: u64, takes: u64) -> u64
        ensures { result ≡ number_left shape.now puts takes };

    fn own_seat(held: &Held) -> &OwnSeat<Self::Queue>
        requires { Self.is_kind held.now ≡ true }
        ensures { (rail : Self.Queue) (seat : Self.Queue.Seat) → held.now ≡ Self.own rail seat
            → result.now ≡ owned rail seat };

    fn into_own(held: Held) -> OwnSeat<Self::Queue>
        requires { Self.is_kind held ≡ true }
        ensures { (rail : Self.Queue) (seat : Self.Queue.Seat) → held ≡ Self.own rail seat
            → result ≡ owned rail seat };

    fn takes(seat: &<Self::Queue as Rail>::Seat) -> u64
        ensures { result ≡ min (length (Self.Queue.taken seat.now)) (2 ^ 64 - 1) };

    fn close_into(rail: Self::Queue, seats: Vec<<Self::Queue as Rail>::Seat>, left: Batch) -> Ended
        requires seats { All (Self.Queue.PutsInto rail) seats.items }
        requires all { IsPermutation (map Self.Queue.number_of seats.items)
            (numbers_below (Self.Queue.shape_of rail).seats) }
        requires empty { left.items ≡ [] }
        requires room { number_left (Self.Queue.shape_of rail)
            (min (length (flat_map Self.Queue.made seats.items)) (2 ^ 64 - 1))
            (min (length (flat_map Self.Queue.taken seats.items)) (2 ^ 64 - 1)) ≤ left.spare }
        ensures { HasEnded (Self.Queue.shape_of rail) Self.Queue.DROPS
            (flat_map Self.Queue.made seats.items) (flat_map Self.Queue.taken seats.items) result };
}

/// The shape of the queue that some seats are of, and how many entries they put and took; at most
/// 2^64 - 1.
#[derive(Drop)]
pub(crate) struct Totals {
    shape: Option<Shape>,
    puts: u64,
    takes: u64,
}

impl Totals {
    pub(crate) fn none() -> Totals
        ensures { (result.shape ≡ None) × (result.puts ≡ 0) × (result.takes ≡ 0) }
    {
        Totals {
            shape: None,
            puts: 0,
            takes: 0,
        }
    }
}

// Counts a seat in, unless the handle has none.
fn count<H: Closing>(alloc: Global, handle: &mut H, totals: &mut Totals) -> bool
    ensures same { H.value handle.new ≡ H.value handle.old }
    ensures full { result ≡ true → H.value handle.old ≢ None }
    ensures none { result ≡ false → H.value handle.old ≡ None }
    ensures shape { result ≡ true → (rail : H.Queue) (seat : H.Queue.Seat)
        → H.value handle.old ≡ Some (H.own rail seat)
        → totals.new.shape ≡ Some (H.Queue.shape_of rail) }
    ensures puts { result ≡ true → (rail : H.Queue) (seat : H.Queue.Seat)
        → H.value handle.old ≡ Some (H.own rail seat)
        → totals.new.puts ≡ min (totals.old.puts + length (H.Queue.made seat)) (2 ^ 64 - 1) }
    ensures takes { result ≡ true → (rail : H.Queue) (seat : H.Queue.Seat)
        → H.value handle.old ≡ Some (H.own rail seat)
        → totals.new.takes ≡ min (totals.old.takes + length (H.Queue.taken seat)) (2 ^ 64 - 1) }
{
    match take_out(alloc, handle) {
        None => false,
        Some(kept) => {
            let own = H::own_seat(&kept);
            totals.shape = Some(own.shape());
            totals.puts = totals.puts.saturating_add(H::Queue::puts(own.seat()));
            totals.takes = totals.takes.saturating_add(H::takes(own.seat()));
            *handle = H::of(alloc, kept);
            true
        }
    }
}

// Counts all seats in, unless a handle has none.
fn count_all<H: Closing>(alloc: Global, handles: &mut [H], totals: &mut Totals) -> bool
    ensures same { map H.value handles.new ≡ map H.value handles.old }
    ensures full { result ≡ true → AreFull H.value handles.old }
    ensures none { result ≡ false → AreFull H.value handles.old → ⊥ }
    ensures shape { result ≡ true → (rail : H.Queue) (seats : List H.Queue.Seat)
        → map H.value handles.old ≡ map (λ seat. Some (H.own rail seat)) seats
        → 0 < length seats → totals.new.shape ≡ Some (H.Queue.shape_of rail) }
    ensures puts { result ≡ true → (rail : H.Queue) (seats : List H.Queue.Seat)
        → map H.value handles.old ≡ map (λ seat. Some (H.own rail seat)) seats
        → totals.new.puts
        ≡ min (totals.old.puts + length (flat_map H.Queue.made seats)) (2 ^ 64 - 1) }
    ensures takes { result ≡ true → (rail : H.Queue) (seats : List H.Queue.Seat)
        → map H.value handles.old ≡ map (λ seat. Some (H.own rail seat)) seats
        → totals.new.takes
        ≡ min (totals.old.takes + length (flat_map H.Queue.taken seats)) (2 ^ 64 - 1) }
{
    for index in 0..handles.len() {
        if !count(alloc, &mut handles[index], totals) {
            return false;
        }
    }
    true
}

// The memory that a close needs.
struct Room<Q: Rail> {
    left: Batch,
    seats: Vec<Q::Seat>,
    kept: Kept,
}

fn take_room<Q: Rail>(alloc: Global, left: u64, seats: usize) -> Result<Room<Q>, AllocError>
    ensures left { IfOk result
        (λ room. room.left ≡ record { items = []; spare = left }) }
    ensures seats { IfOk result
        (λ room. (room.seats.items ≡ []) × (seats ≤ vec_capacity room.seats)) }
{
    let left = Batch::with_room(alloc, left as usize)?;
    let seats = Vec::with_capacity(alloc, seats)?;
    let nothing = Ended {
        accepted: 0,
        left: Batch::new(alloc),
    };
    let kept = keep(alloc, Held::Closed(nothing))?;
    Ok(Room { left, seats, kept })
}

// Takes a seat out of a handle that has one.
fn take_seat<H: Closing>(alloc: Global, handle: &mut H) -> OwnSeat<H::Queue>
    requires { H.value handle.old ≢ None }
    ensures empty { H.value handle.new ≡ None }
    ensures own { (rail : H.Queue) (seat : H.Queue.Seat)
        → H.value handle.old ≡ Some (H.own rail seat) → result ≡ owned rail seat }
{
    match take_out(alloc, handle) {
        Some(kept) => H::into_own(ManuallyDrop::into_inner(Box::into_inner(kept))),
        None => unreachable!(),
    }
}

// Takes all seats out of handles that have one each, and an owner of their queue.
fn gather<H: Closing>(
    alloc: Global,
    handles: &mut [H],
    all: &mut Vec<<H::Queue as Rail>::Seat>,
) -> Option<Arc<H::Queue, Global>>
    requires full { AreFull H.value handles.old }
    requires room { length all.old.items + length handles.old ≤ vec_capacity all.old }
    ensures empty { AreEmpty H.value handles.new }
    ensures some { 0 < length handles.old → IsSome result }
    ensures seats { (rail : H.Queue) (seats : List H.Queue.Seat)
        → map H.value handles.old ≡ map (λ seat. Some (H.own rail seat)) seats
        → all.new.items ≡ all.old.items ++ seats }
    ensures rail { (rail : H.Queue) (seats : List H.Queue.Seat)
        → map H.value handles.old ≡ map (λ seat. Some (H.own rail seat)) seats
        → IfSome result (λ own. arc_value own ≡ rail) }
{
    let mut last = None;
    for index in 0..handles.len() {
        let (rail, seat) = take_seat(alloc, &mut handles[index]).into_parts();
        match all.push(seat) {
            Ok(()) => last = Some(rail),
            Err(_) => unreachable!(),
        }
    }
    last
}

// Closes a queue with all its seats.
fn finish<H: Closing>(
    alloc: Global,
    rail: Arc<H::Queue, Global>,
    room: Room<H::Queue>,
    closed: &mut ZemClosed,
) -> u32
    requires seats { All (H.Queue.PutsInto (arc_value rail)) room.seats.items }
    requires all { IsPermutation (map H.Queue.number_of room.seats.items)
        (numbers_below (H.Queue.shape_of (arc_value rail)).seats) }
    requires empty { room.left.items ≡ [] }
    requires room { H.number_left (H.Queue.shape_of (arc_value rail))
        (min (length (flat_map H.Queue.made room.seats.items)) (2 ^ 64 - 1))
        (min (length (flat_map H.Queue.taken room.seats.items)) (2 ^ 64 - 1)) ≤ room.left.spare }
    ensures known { (result ≡ ok) ⊎ (result ≡ given_up) }
    ensures closed { result ≡ ok → (ended : Ended) × HasClosed closed.new ended
        × HasEnded (H.Queue.shape_of (arc_value rail)) H.Queue.DROPS
        (flat_map H.Queue.made room.seats.items) (flat_map H.Queue.taken room.seats.items) ended }
    ensures lost { result ≡ given_up → closed.new ≡ closed.old }
{
    let Room {
        left,
        seats,
        mut kept,
    } = room;
    match Arc::try_unwrap(rail) {
        Ok(rail) => {
            *kept = ManuallyDrop::new(Held::Closed(H::close_into(rail, seats, left)));
            *closed = ZemClosed::of(alloc, kept);
            OK
        }
        Err(_) => {
            give_up(kept);
            GIVEN_UP
        }
    }
}

/// Closes the queue of these handles, which have all its seats. What it had goes into `closed`.
pub(crate) fn close_all<H: Closing>(alloc: Global, handles: &mut [H], closed: &mut ZemClosed) -> u32
    requires { AreFull H.value handles.old → HaveSeats H.own H.value H.Queue.PutsInto
        H.Queue.number_of H.Queue.shape_of handles.old }
    ensures none { (result ≡ no_seat) ↔ (AreFull H.value handles.old → ⊥) }
    ensures missing { AreFull H.value handles.old → (rail : H.Queue) (seats : List H.Queue.Seat)
        → map H.value handles.old ≡ map (λ seat. Some (H.own rail seat)) seats
        → length seats ≢ (H.Queue.shape_of rail).seats → result ≡ not_all_seats }
    ensures complete { AreFull H.value handles.old → (rail : H.Queue) (seats : List H.Queue.Seat)
        → map H.value handles.old ≡ map (λ seat. Some (H.own rail seat)) seats
        → 0 < length seats → length seats ≡ (H.Queue.shape_of rail).seats
        → result ≢ not_all_seats }
    ensures refused { no_seat ≤ result → (map H.value handles.new ≡ map H.value handles.old)
        × (closed.new ≡ closed.old) }
    ensures given_up { result ≡ given_up → AreEmpty H.value handles.new
        × (closed.new ≡ closed.old) }
    ensures closed { result ≡ ok → AreEmpty H.value handles.new
        × ((rail : H.Queue) (seats : List H.Queue.Seat)
        → map H.value handles.old ≡ map (λ seat. Some (H.own rail seat)) seats
        → (ended : Ended) × HasClosed closed.new ended
        × HasEnded (H.Queue.shape_of rail) H.Queue.DROPS (flat_map H.Queue.made seats)
        (flat_map H.Queue.taken seats) ended) }
    ensures known { (result ≡ ok) ⊎ (result ≡ given_up) ⊎ (result ≡ no_seat)
        ⊎ (result ≡ no_memory) ⊎ (result ≡ not_all_seats) }
{
    let mut totals = Totals::none();
    if !count_all(alloc, handles, &mut totals) {
        return CLOSED;
    }
    let Some(shape) = totals.shape else {
        return NOT_ALL_SEATS;
    };
    if handles.len() as u64 != shape.seats() {
        return NOT_ALL_SEATS;
    }
    let left = H::number_left(&shape, totals.puts, totals.takes);
    let Ok(mut room) = take_room::<H::Queue>(alloc, left, handles.len()) else {
        return MEMORY;
    };
    let Some(rail) = gather(alloc, handles, &mut room.seats) else {
        unreachable!()
    };
    finish::<H>(alloc, rail, room, closed)
}
