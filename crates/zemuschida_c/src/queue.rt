//! A queue that refuses entries when it is full.
ghost use Rattle.std.specs.Prelude.{◌≡◌, ◌≢◌, ◌<◌, ◌≤◌, ◌⊎◌, ◌↔◌, IfOk, None, false, length};
ghost use Rattle.cursor_word.specs.Cursor.{most_puts};
ghost use Rattle.cursor_word.specs.Shape.{least_blocks, most_blocks, most_seats, most_size, most_width};
ghost use Rattle.zemuschida_c.specs.Calls.{HasPut, HasTaken};
ghost use Rattle.zemuschida_c.specs.Codes.{bad_blocks, bad_seats, bad_size, bad_width, no_memory, no_seat, ok, spent, wrong_width};
ghost use Rattle.zemuschida_c.specs.Made.{HoldQueue};
ghost use Rattle.zemuschida_c.specs.Seats.{Has, RetrySeat, in_seat, retry_kind};

use crate::answer::{MEMORY, OK, ZemAnswer};
use crate::calls::{SeatHandle, put, take};
use crate::kinds::ZemSeat;
use crate::making::{hand_out, seat_all, shape_of};
use cursor_word::Shape;
use retry_rail::RetryRail;
use std::alloc::{AllocError, Global};
use std::sync::Arc;

/// Makes a queue for as many seats as there are handles, and puts a seat into each. A seat that a
/// handle had is given up.
#[unsafe(no_mangle)]
pub extern "C" fn zem_make(
    alloc: Global,
    blocks: u64,
    size: u64,
    width: u64,
    seats: &mut [ZemSeat],
) -> u32
    ensures made { result ≡ ok → HoldQueue retry_kind in_seat (record {
      blocks = blocks;
      size = size;
      width = width;
      seats = length seats.old;
    }) seats.new }
    ensures refused { result ≢ ok → seats.new ≡ seats.old }
    ensures blocks { (result ≡ bad_blocks) ↔ ((blocks < least_blocks) ⊎ (most_blocks < blocks)) }
    ensures size { (result ≡ bad_size) ↔ ((least_blocks ≤ blocks) × (blocks ≤ most_blocks)
        × ((size < 1) ⊎ (most_size < size))) }
    ensures width { (result ≡ bad_width) ↔ ((least_blocks ≤ blocks) × (blocks ≤ most_blocks)
        × (1 ≤ size) × (size ≤ most_size) × ((width < 1) ⊎ (most_width < width))) }
    ensures seats { (result ≡ bad_seats) ↔ ((least_blocks ≤ blocks) × (blocks ≤ most_blocks)
        × (1 ≤ size) × (size ≤ most_size) × (1 ≤ width) × (width ≤ most_width)
        × ((length seats.old < 1) ⊎ (most_seats < length seats.old))) }
    ensures known { (result ≡ ok) ⊎ ((no_memory ≤ result) × (result ≤ bad_seats)) }
{
    let shape = match shape_of(blocks, size, width, seats.len() as u64) {
        Ok(shape) => shape,
        Err(code) => return code,
    };
    match make_queue(alloc, shape) {
        Ok(all) => {
            hand_out(seats, all);
            OK
        }
        Err(_) => MEMORY,
    }
}

// The seats of a new queue, in order of their numbers.
fn make_queue(alloc: Global, shape: Shape) -> Result<Vec<ZemSeat>, AllocError>
    ensures count { IfOk result (λ all. length all.items ≡ shape.seats) }
    ensures made { IfOk result (λ all. HoldQueue retry_kind in_seat shape all.items) }
{
    let (rail, seats) = RetryRail::make(alloc, shape)?;
    let rail = Arc::new(alloc, rail)?;
    seat_all(alloc, &rail, seats)
}

/// Puts an entry into a queue that refuses.
#[unsafe(no_mangle)]
pub extern "C" fn zem_put(
    alloc: Global,
    seat: &mut ZemSeat,
    entry: &[u64],
    answer: &mut ZemAnswer,
) -> u32
    ensures none { seat.old.handle.slot.value ≡ None → (result ≡ no_seat)
        × (seat.new.handle.slot.value ≡ None) × (answer.new ≡ answer.old) }
    ensures width { (s : RetrySeat) → Has seat.old s → length entry.now ≢ s.rail.shape.width
        → (result ≡ wrong_width) × Has seat.new s × (answer.new ≡ answer.old) }
    ensures spent { (s : RetrySeat) → Has seat.old s → length entry.now ≡ s.rail.shape.width
        → most_puts s.rail.shape ≤ length s.seat.view.made
        → (result ≡ spent) × Has seat.new s × (answer.new ≡ answer.old) }
    ensures puts { (s : RetrySeat) → Has seat.old s → length entry.now ≡ s.rail.shape.width
        → length s.seat.view.made < most_puts s.rail.shape
        → (t : RetrySeat) × Has seat.new t × HasPut false s t entry.now result answer.new }
{
    put(alloc, seat, entry, answer)
}

/// Takes an entry from a queue that refuses.
#[unsafe(no_mangle)]
pub extern "C" fn zem_take(
    alloc: Global,
    seat: &mut ZemSeat,
    out: &mut [u64],
    answer: &mut ZemAnswer,
) -> u32
    ensures none { seat.old.handle.slot.value ≡ None → (result ≡ no_seat)
        × (seat.new.handle.slot.value ≡ None) × (out.new ≡ out.old) × (answer.new ≡ answer.old) }
    ensures width { (s : RetrySeat) → Has seat.old s → length out.old ≢ s.rail.shape.width
        → (result ≡ wrong_width) × Has seat.new s × (out.new ≡ out.old)
        × (answer.new ≡ answer.old) }
    ensures takes { (s : RetrySeat) → Has seat.old s → length out.old ≡ s.rail.shape.width
        → (t : RetrySeat) × Has seat.new t
        × HasTaken false s t out.old out.new result answer.new }
{
    take(alloc, seat, out, answer)
}

/// Gives up a seat. The last seat of a queue frees the queue.
#[unsafe(no_mangle)]
pub extern "C" fn zem_free(alloc: Global, seat: &mut ZemSeat)
    ensures { seat.new.handle.slot.value ≡ None }
{
    *seat = ZemSeat::none(alloc);
}
