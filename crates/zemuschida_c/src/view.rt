//! Views of a running queue that overwrites.
ghost use Rattle.std.specs.Prelude.{◌≡◌, ◌≤◌, ◌++◌, None, drop, length, map, true};
ghost use Rattle.zemuschida_c.specs.Codes.{no_seat};
ghost use Rattle.zemuschida_c.specs.Held.{is_ring_seat};
ghost use Rattle.zemuschida_c.specs.Seats.{HasRing, RingSeat, ring_kind};
ghost use Rattle.zemuschida_c.specs.Viewed.{HasViewed, filled, gap_of, item_of, room, view_code};

use crate::answer::{CLOSED, MEMORY, OK, ROOM, ZemCursor, show};
use crate::calls::{SeatHandle, take_out};
use crate::held::Held;
use crate::kinds::ZemRingSeat;
use flight_view::{Gap, Gaps, View};
use rail::Placed;
use std::alloc::Global;

/// An item of a view: its place and its words. The words that it doesn't have are 0.
#[repr(C)]
#[derive(Clone, Copy)]
pub struct ZemItem {
    pub place: u64,
    pub words: [u64; 8],
}

/// A block of which a view may lack items, and the two cursors that tell why.
#[repr(C)]
#[derive(Clone, Copy)]
pub struct ZemGap {
    pub block: u64,
    pub committed: ZemCursor,
    pub allocated: ZemCursor,
}

/// How many items and gaps a view has.
#[repr(C)]
#[derive(Clone, Copy)]
pub struct ZemView {
    pub items: u64,
    pub gaps: u64,
}

/// Copies what a running queue holds, without taking: its items in rising order of place, and the
/// blocks of which it may lack some. Where there is too little room or memory, nothing is copied.
#[unsafe(no_mangle)]
pub extern "C" fn zem_ring_view(
    alloc: Global,
    seat: &mut ZemRingSeat,
    items: &mut [ZemItem],
    gaps: &mut [ZemGap],
    counts: &mut ZemView,
) -> u32
    ensures none { seat.old.handle.slot.value ≡ None → (result ≡ no_seat)
        × (seat.new.handle.slot.value ≡ None)
        × (room items.new gaps.new counts.new ≡ room items.old gaps.old counts.old) }
    ensures view { (s : RingSeat) → HasRing seat.old s → (t : RingSeat) × HasRing seat.new t
        × HasViewed s t (room items.old gaps.old counts.old) (room items.new gaps.new counts.new)
        result }
{
    match take_out(alloc, seat) {
        None => CLOSED,
        Some(mut kept) => {
            let code = view_held(&mut kept, alloc, items, gaps, counts);
            *seat = ZemRingSeat::of(alloc, kept);
            code
        }
    }
}

fn view_held(
    held: &mut Held,
    alloc: Global,
    items: &mut [ZemItem],
    gaps: &mut [ZemGap],
    counts: &mut ZemView,
) -> u32
    requires { is_ring_seat held.old ≡ true }
    ensures kind { is_ring_seat held.new ≡ true }
    ensures view { (s : RingSeat) → held.old ≡ ring_kind s → (t : RingSeat)
        × (held.new ≡ ring_kind t)
        × HasViewed s t (room items.old gaps.old counts.old) (room items.new gaps.new counts.new)
        result }
{
    match held {
        Held::RingSeat(own) => match own.view(alloc) {
            Ok(view) => show_view(&view, items, gaps, counts),
            Err(_) => MEMORY,
        },
        _ => unreachable!(),
    }
}

// Copies a view, where there is room for all of it.
fn show_view(view: &View, items: &mut [ZemItem], gaps: &mut [ZemGap], counts: &mut ZemView) -> u32
    ensures code { result ≡ view_code view.now (room items.old gaps.old counts.old) }
    ensures filled { room items.new gaps.new counts.new
        ≡ filled view.now (room items.old gaps.old counts.old) }
{
    let found = view.items.as_slice();
    if found.len() > items.len() || view.gaps.len() > gaps.len() {
        return ROOM;
    }
    show_items(found, items);
    show_gaps(&view.gaps, gaps);
    *counts = ZemView {
        items: found.len() as u64,
        gaps: view.gaps.len() as u64,
    };
    OK
}

fn show_items(found: &[Placed], items: &mut [ZemItem])
    requires { length found.now ≤ length items.old }
    ensures { items.new ≡ map item_of found.now ++ drop (length found.now) items.old }
{
    for index in 0..found.len() {
        items[index] = show_item(&found[index]);
    }
}

fn show_gaps(found: &Gaps, gaps: &mut [ZemGap])
    requires { length found.now ≤ length gaps.old }
    ensures { gaps.new ≡ map gap_of found.now ++ drop (length found.now) gaps.old }
{
    for index in 0..found.len() {
        let Some(gap) = found.get(index) else {
            unreachable!()
        };
        gaps[index] = show_gap(gap);
    }
}

fn show_item(item: &Placed) -> ZemItem
    ensures { result ≡ item_of item.now }
{
    let found = item.words.words();
    let mut words = [0; 8];
    words[..found.len()].copy_from_slice(found);
    ZemItem {
        place: item.place,
        words,
    }
}

fn show_gap(gap: &Gap) -> ZemGap
    ensures { result ≡ gap_of gap.now }
{
    ZemGap {
        block: gap.block,
        committed: show(gap.committed),
        allocated: show(gap.allocated),
    }
}
