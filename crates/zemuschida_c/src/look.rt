//! Looks at a running queue that overwrites, which take nothing.
ghost use Rattle.std.specs.Prelude.{◌≡◌, ◌≢◌, ◌<◌, ◌≤◌, None, length, true};
ghost use Rattle.cursor_word.specs.Cursor.{cursor};
ghost use Rattle.zemuschida_c.specs.Codes.{bad_block, no_seat, ok, shown, wrong_width};
ghost use Rattle.zemuschida_c.specs.Held.{is_ring_seat};
ghost use Rattle.zemuschida_c.specs.Looked.{HasLookedAtBlock, HasLookedAtEntry, HasLookedAtHead};
ghost use Rattle.zemuschida_c.specs.Seats.{HasRing, RingSeat, ring_kind};

use crate::answer::{CLOSED, OK, ZemCursor, ZemLook, show};
use crate::calls::{SeatHandle, take_out};
use crate::held::Held;
use crate::kinds::ZemRingSeat;
use cursor_word::Cursor;
use std::alloc::Global;

/// Looks how far a running queue has come, without taking: its newest block, and how many of its
/// entries are given out to puts.
#[unsafe(no_mangle)]
pub extern "C" fn zem_ring_look_head(
    alloc: Global,
    seat: &mut ZemRingSeat,
    newest: &mut ZemCursor,
) -> u32
    ensures none { seat.old.handle.slot.value ≡ None → (result ≡ no_seat)
        × (seat.new.handle.slot.value ≡ None) × (newest.new ≡ newest.old) }
    ensures look { (s : RingSeat) → HasRing seat.old s → (t : RingSeat) × HasRing seat.new t
        × (result ≡ ok) × HasLookedAtHead s t newest.new }
{
    match take_out(alloc, seat) {
        None => CLOSED,
        Some(mut kept) => {
            *newest = look_held(&mut kept);
            *seat = ZemRingSeat::of(alloc, kept);
            OK
        }
    }
}

/// Looks at a block without taking: whether its entries are all there, and how many.
#[unsafe(no_mangle)]
pub extern "C" fn zem_ring_look_block(
    alloc: Global,
    seat: &mut ZemRingSeat,
    block: u64,
    look: &mut ZemLook,
) -> u32
    ensures none { seat.old.handle.slot.value ≡ None → (result ≡ no_seat)
        × (seat.new.handle.slot.value ≡ None) × (look.new ≡ look.old) }
    ensures block { (s : RingSeat) → HasRing seat.old s → block < s.rail.shape.blocks
        → (result ≡ bad_block) × HasRing seat.new s × (look.new ≡ look.old) }
    ensures look { (s : RingSeat) → HasRing seat.old s → s.rail.shape.blocks ≤ block
        → (t : RingSeat) × HasRing seat.new t × HasLookedAtBlock s t block result look.new }
{
    match take_out(alloc, seat) {
        None => CLOSED,
        Some(mut kept) => {
            let code = look_block_held(&mut kept, block, look);
            *seat = ZemRingSeat::of(alloc, kept);
            code
        }
    }
}

/// Looks at a block and then at its entry of an offset, without taking, and copies the words of the
/// entry.
#[unsafe(no_mangle)]
pub extern "C" fn zem_ring_look_entry(
    alloc: Global,
    seat: &mut ZemRingSeat,
    block: u64,
    offset: u64,
    out: &mut [u64],
    look: &mut ZemLook,
) -> u32
    ensures none { seat.old.handle.slot.value ≡ None → (result ≡ no_seat)
        × (seat.new.handle.slot.value ≡ None) × (out.new ≡ out.old) × (look.new ≡ look.old) }
    ensures width { (s : RingSeat) → HasRing seat.old s → length out.old ≢ s.rail.shape.width
        → (result ≡ wrong_width) × HasRing seat.new s × (out.new ≡ out.old)
        × (look.new ≡ look.old) }
    ensures block { (s : RingSeat) → HasRing seat.old s → length out.old ≡ s.rail.shape.width
        → block < s.rail.shape.blocks
        → (result ≡ bad_block) × HasRing seat.new s × (out.new ≡ out.old)
        × (look.new ≡ look.old) }
    ensures look { (s : RingSeat) → HasRing seat.old s → length out.old ≡ s.rail.shape.width
        → s.rail.shape.blocks ≤ block → (t : RingSeat) × HasRing seat.new t
        × HasLookedAtEntry s t (cursor block offset) out.old out.new result look.new }
{
    match take_out(alloc, seat) {
        None => CLOSED,
        Some(mut kept) => {
            let at = Cursor { block, offset };
            let code = look_entry_held(&mut kept, at, out, look);
            *seat = ZemRingSeat::of(alloc, kept);
            code
        }
    }
}

fn look_held(held: &mut Held) -> ZemCursor
    requires { is_ring_seat held.old ≡ true }
    ensures kind { is_ring_seat held.new ≡ true }
    ensures look { (s : RingSeat) → held.old ≡ ring_kind s → (t : RingSeat)
        × (held.new ≡ ring_kind t) × HasLookedAtHead s t result }
{
    match held {
        Held::RingSeat(own) => show(own.look_head()),
        _ => unreachable!(),
    }
}

fn look_block_held(held: &mut Held, block: u64, look: &mut ZemLook) -> u32
    requires { is_ring_seat held.old ≡ true }
    ensures kind { is_ring_seat held.new ≡ true }
    ensures block { (s : RingSeat) → held.old ≡ ring_kind s → block < s.rail.shape.blocks
        → (result ≡ bad_block) × (held.new ≡ held.old) × (look.new ≡ look.old) }
    ensures look { (s : RingSeat) → held.old ≡ ring_kind s → s.rail.shape.blocks ≤ block
        → (t : RingSeat) × (held.new ≡ ring_kind t) × HasLookedAtBlock s t block result look.new }
{
    match held {
        Held::RingSeat(own) => own.look_block(block, look),
        _ => unreachable!(),
    }
}

fn look_entry_held(held: &mut Held, at: Cursor, out: &mut [u64], look: &mut ZemLook) -> u32
    requires { is_ring_seat held.old ≡ true }
    ensures kind { is_ring_seat held.new ≡ true }
    ensures width { (s : RingSeat) → held.old ≡ ring_kind s
        → length out.old ≢ s.rail.shape.width → (result ≡ wrong_width) × (held.new ≡ held.old)
        × (out.new ≡ out.old) × (look.new ≡ look.old) }
    ensures block { (s : RingSeat) → held.old ≡ ring_kind s
        → length out.old ≡ s.rail.shape.width → at.block < s.rail.shape.blocks
        → (result ≡ bad_block) × (held.new ≡ held.old) × (out.new ≡ out.old)
        × (look.new ≡ look.old) }
    ensures look { (s : RingSeat) → held.old ≡ ring_kind s
        → length out.old ≡ s.rail.shape.width → s.rail.shape.blocks ≤ at.block
        → (t : RingSeat) × (held.new ≡ ring_kind t)
        × HasLookedAtEntry s t at out.old out.new result look.new }
{
    match held {
        Held::RingSeat(own) => own.look_entry(at, out, look),
        _ => unreachable!(),
    }
}
