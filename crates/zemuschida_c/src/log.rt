//! A queue with a sole consumer.
ghost use Rattle.std.specs.Prelude.{◌≡◌, ◌≢◌, ◌+◌, ◌<◌, ◌≤◌, ◌⊎◌, ◌↔◌, IfOk, None, false, length};
ghost use Rattle.cursor_word.specs.Cursor.{most_puts};
ghost use Rattle.cursor_word.specs.Shape.{least_blocks, most_blocks, most_seats, most_size, most_width};
ghost use Rattle.zemuschida_c.specs.Calls.{HasPut, HasTaken};
ghost use Rattle.zemuschida_c.specs.Codes.{bad_blocks, bad_seats, bad_size, bad_width, no_memory, no_seat, ok, spent, wrong_width};
ghost use Rattle.zemuschida_c.specs.Made.{HoldLog};
ghost use Rattle.zemuschida_c.specs.Seats.{HasConsumer, HasLog, LogSeat};

use crate::answer::{MEMORY, OK, ZemAnswer};
use crate::calls::{SeatHandle, put, take};
use crate::kinds::{ZemLogConsumer, ZemLogSeat};
use crate::making::{Seating, hand_out, seat_all, shape_of};
use cursor_word::Shape;
use sole_rail::SoleRail;
use std::alloc::{AllocError, Global};
use std::sync::Arc;

/// Makes a queue for its consumer and for as many seats that put as there are handles, and puts a
/// seat into each. A seat that a handle had is given up.
#[unsafe(no_mangle)]
pub extern "C" fn zem_log_make(
    alloc: Global,
    blocks: u64,
    size: u64,
    width: u64,
    consumer: &mut ZemLogConsumer,
    seats: &mut [ZemLogSeat],
) -> u32
    ensures made { result ≡ ok → HoldLog (record {
      blocks = blocks;
      size = size;
      width = width;
      seats = length seats.old + 1;
    }) consumer.new seats.new }
    ensures refused { result ≢ ok → (consumer.new ≡ consumer.old) × (seats.new ≡ seats.old) }
    ensures blocks { (result ≡ bad_blocks) ↔ ((blocks < least_blocks) ⊎ (most_blocks < blocks)) }
    ensures size { (result ≡ bad_size) ↔ ((least_blocks ≤ blocks) × (blocks ≤ most_blocks)
        × ((size < 1) ⊎ (most_size < size))) }
    ensures width { (result ≡ bad_width) ↔ ((least_blocks ≤ blocks) × (blocks ≤ most_blocks)
        × (1 ≤ size) × (size ≤ most_size) × ((width < 1) ⊎ (most_width < width))) }
    ensures seats { (result ≡ bad_seats) ↔ ((least_blocks ≤ blocks) × (blocks ≤ most_blocks)
        × (1 ≤ size) × (size ≤ most_size) × (1 ≤ width) × (width ≤ most_width)
        × (most_seats < length seats.old + 1)) }
    ensures known { (result ≡ ok) ⊎ ((no_memory ≤ result) × (result ≤ bad_seats)) }
{
    let shape = match shape_of(blocks, size, width, (seats.len() as u64).saturating_add(1)) {
        Ok(shape) => shape,
        Err(code) => return code,
    };
    match make_log(alloc, shape) {
        Ok((first, others)) => {
            *consumer = first;
            hand_out(seats, others);
            OK
        }
        Err(_) => MEMORY,
    }
}

// The consumer of a new queue, and its other seats in order of their numbers.
fn make_log(alloc: Global, shape: Shape) -> Result<(ZemLogConsumer, Vec<ZemLogSeat>), AllocError>
    ensures count { IfOk result (λ all. length all.1.items + 1 ≡ shape.seats) }
    ensures made { IfOk result (λ all. HoldLog shape all.0 all.1.items) }
{
    let _seats = shape.seats();
    let (rail, mut seats) = SoleRail::make(alloc, shape)?;
    let rail = Arc::new(alloc, rail)?;
    let first = seats.remove(0);
    let consumer = ZemLogConsumer::seated(alloc, Arc::try_clone(&rail)?, first)?;
    let others = seat_all(alloc, &rail, seats)?;
    Ok((consumer, others))
}

/// Puts an entry into a queue with a sole consumer.
#[unsafe(no_mangle)]
pub extern "C" fn zem_log_put(
    alloc: Global,
    seat: &mut ZemLogSeat,
    entry: &[u64],
    answer: &mut ZemAnswer,
) -> u32
    ensures none { seat.old.handle.slot.value ≡ None → (result ≡ no_seat)
        × (seat.new.handle.slot.value ≡ None) × (answer.new ≡ answer.old) }
    ensures width { (s : LogSeat) → HasLog seat.old s → length entry.now ≢ s.rail.shape.width
        → (result ≡ wrong_width) × HasLog seat.new s × (answer.new ≡ answer.old) }
    ensures spent { (s : LogSeat) → HasLog seat.old s → length entry.now ≡ s.rail.shape.width
        → most_puts s.rail.shape ≤ length s.seat.view.made
        → (result ≡ spent) × HasLog seat.new s × (answer.new ≡ answer.old) }
    ensures puts { (s : LogSeat) → HasLog seat.old s → length entry.now ≡ s.rail.shape.width
        → length s.seat.view.made < most_puts s.rail.shape
        → (t : LogSeat) × HasLog seat.new t × HasPut false s t entry.now result answer.new }
{
    put(alloc, seat, entry, answer)
}

/// Takes an entry from a queue with a sole consumer.
#[unsafe(no_mangle)]
pub extern "C" fn zem_log_take(
    alloc: Global,
    consumer: &mut ZemLogConsumer,
    out: &mut [u64],
    answer: &mut ZemAnswer,
) -> u32
    ensures none { consumer.old.handle.slot.value ≡ None → (result ≡ no_seat)
        × (consumer.new.handle.slot.value ≡ None) × (out.new ≡ out.old)
        × (answer.new ≡ answer.old) }
    ensures width { (s : LogSeat) → HasConsumer consumer.old s → length out.old ≢ s.rail.shape.width
        → (result ≡ wrong_width) × HasConsumer consumer.new s × (out.new ≡ out.old)
        × (answer.new ≡ answer.old) }
    ensures takes { (s : LogSeat) → HasConsumer consumer.old s → length out.old ≡ s.rail.shape.width
        → (t : LogSeat) × HasConsumer consumer.new t
        × HasTaken false s t out.old out.new result answer.new }
{
    take(alloc, consumer, out, answer)
}

/// Gives up a seat. The last seat of a queue frees the queue.
#[unsafe(no_mangle)]
pub extern "C" fn zem_log_free(alloc: Global, seat: &mut ZemLogSeat)
    ensures { seat.new.handle.slot.value ≡ None }
{
    *seat = ZemLogSeat::none(alloc);
}

/// Gives up the consumer's seat, after which nobody takes. The last seat of a queue frees it.
#[unsafe(no_mangle)]
pub extern "C" fn zem_log_consumer_free(alloc: Global, consumer: &mut ZemLogConsumer)
    ensures { consumer.new.handle.slot.value ≡ None }
{
    *consumer = ZemLogConsumer::none(alloc);
}
