//! What the making of a queue of any kind does.
ghost use Rattle.std.specs.Prelude.{◌≡◌, ◌<◌, ◌≤◌, ◌⊎◌, ◌↔◌, Err, IfErr, IfOk, length, map, Some};
ghost use Rattle.std.specs.Arc.{arc_value};
ghost use Rattle.std.specs.List.{All};
ghost use Rattle.cursor_word.specs.Shape.{least_blocks, most_blocks, most_seats, most_size, most_width};
ghost use Rattle.zemuschida_c.specs.Codes.{bad_blocks, bad_seats, bad_size, bad_width};
ghost use Rattle.zemuschida_c.specs.declared.held.Held.{Held};

use crate::answer::{BAD_BLOCKS, BAD_SEATS, BAD_SIZE, BAD_WIDTH};
use crate::calls::SeatHandle;
use cursor_word::{Shape, ShapeError};
use rail::Rail;
use std::alloc::{AllocError, Global};
use std::sync::Arc;

/// A handle into which a seat of a queue can be put.
pub trait Seating: SeatHandle {
    type Queue: Rail;

    /// The handle may have this seat of this queue.
    ghost MayHave: { Self.Queue → Self.Queue.Seat → Type 0 };

    /// The seat with its queue, as it lies behind a handle.
    ghost own: { Self.Queue → Self.Queue.Seat → Held };

    fn seated(
        alloc: Global,
        rail: Arc<Self::Queue, Global>,
        seat: <Self::Queue as Rail>::Seat,
    ) -> Result<Self, AllocError>
        requires { MayHave (arc_value rail) seat }
        ensures { IfOk result (λ handle. Self.value handle ≡ Some (own (arc_value rail) seat)) };
}

/// A handle for each of these seats of a queue, in their order.
pub(crate) fn seat_all<H: Seating>(
    alloc: Global,
    rail: &Arc<H::Queue, Global>,
    seats: Vec<<H::Queue as Rail>::Seat>,
) -> Result<Vec<H>, AllocError>
    requires { All (H.MayHave (arc_value rail.now)) seats.items }
    ensures { IfOk result (λ all. map H.value all.items
        ≡ map (λ seat. Some (H.own (arc_value rail.now) seat)) seats.items) }
{
    let mut all = Vec::new(alloc);
    for seat in seats {
        let rail = Arc::try_clone(rail)?;
        all.push(H::seated(alloc, rail, seat)?)?;
    }
    Ok(all)
}

/// Puts the new handles in place of the old ones.
pub(crate) fn hand_out<H: Drop>(handles: &mut [H], mut all: Vec<H>)
    requires { length handles.old ≡ length all.items }
    ensures { handles.new ≡ all.items }
{
    handles.swap_with_slice(&mut all);
}

/// A shape of these numbers, or the code of the first of them that is out of range.
pub(crate) fn shape_of(blocks: u64, size: u64, width: u64, seats: u64) -> Result<Shape, u32>
    ensures ok { IfOk result (λ shape. shape ≡ record {
      blocks = blocks;
      size = size;
      width = width;
      seats = seats;
    }) }
    ensures blocks { (result ≡ Err bad_blocks)
        ↔ ((blocks < least_blocks) ⊎ (most_blocks < blocks)) }
    ensures size { (result ≡ Err bad_size) ↔ ((least_blocks ≤ blocks) × (blocks ≤ most_blocks)
        × ((size < 1) ⊎ (most_size < size))) }
    ensures width { (result ≡ Err bad_width) ↔ ((least_blocks ≤ blocks) × (blocks ≤ most_blocks)
        × (1 ≤ size) × (size ≤ most_size) × ((width < 1) ⊎ (most_width < width))) }
    ensures seats { (result ≡ Err bad_seats) ↔ ((least_blocks ≤ blocks) × (blocks ≤ most_blocks)
        × (1 ≤ size) × (size ≤ most_size) × (1 ≤ width) × (width ≤ most_width)
        × ((seats < 1) ⊎ (most_seats < seats))) }
    ensures known { IfErr result (λ code. (bad_blocks ≤ code) × (code ≤ bad_seats)) }
{
    match Shape::new(blocks, size, width, seats) {
        Ok(shape) => Ok(shape),
        Err(ShapeError::Blocks) => Err(BAD_BLOCKS),
        Err(ShapeError::Size) => Err(BAD_SIZE),
        Err(ShapeError::Width) => Err(BAD_WIDTH),
        Err(ShapeError::Seats) => Err(BAD_SEATS),
    }
}
