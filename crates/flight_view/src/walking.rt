//! The walk of a view: a look at the head, and then block by block.
ghost use Rattle.std.specs.Prelude.{◌≡◌, ◌+◌, ◌<◌, ◌≤◌, ◌∷◌, ◌++◌, [], All, IfOk, Some, vec_capacity, vec_len};
ghost use Rattle.cursor_word.specs.Cursor.{HasPlace, block_span};
ghost use Rattle.rail.specs.Items.{IsRising, places};
ghost use Rattle.call_steps.specs.Queue.{IsSeatOf};
ghost use Rattle.block_looks.specs.Looks.{IsLookedAt};
ghost use Rattle.flight_view.specs.Walks.{entry_items, gap};
ghost use Rattle.flight_view.specs.Views.{HasWalked, IsCaused, gap_blocks};
ghost use Rattle.flight_view.specs.Parts.{IsInOrder, SawBlock, SawEntries, SawEntry, entry_look, midway};

use crate::gaps::{Gap, Gaps};
use cursor_word::Cursor;
use drop_rail::{DropRail, DropSeat, Look, Seen};
use rail::{Batch, Entry, Placed, Rail};
use std::alloc::{AllocError, Global};

/// What a running queue was seen to hold: accepted items in rising order of place, each whole, and
/// the blocks of which it may lack some.
#[derive(Drop)]
pub struct View {
    pub items: Batch,
    pub gaps: Gaps,
}

/// A view of a running queue. It takes nothing and stops nobody, and shows no one moment of the
/// queue: each block is as its own looks found it. Room is made before each look that may need it.
pub fn flight_view(alloc: Global, rail: &DropRail, seat: &mut DropSeat) -> Result<View, AllocError>
    requires seat { IsSeatOf rail.now seat.old }
    ensures seat { seat.new.of ≡ seat.old.of }
    ensures number { seat.new.number ≡ seat.old.number }
    ensures made { seat.new.view.made ≡ seat.old.view.made }
    ensures taken { seat.new.view.taken ≡ seat.old.view.taken }
    ensures walk { HasWalked rail.now.shape seat.old seat.new result }
    ensures rising { IfOk result (λ view. IsRising (places view.items.items)) }
    ensures gaps { IfOk result (λ view. IsRising (gap_blocks view.gaps)) }
    ensures causes { IfOk result (λ view. All IsCaused view.gaps) }
{
    let blocks = rail.shape().blocks();
    let newest = rail.look_head(seat);
    let first = blocks.max(newest.block + 1 - blocks);
    let mut items = Batch::new(alloc);
    let mut gaps = Vec::new(alloc);
    for block in first..newest.block + blocks + 1 {
        gaps.reserve(1)?;
        if !view_block(rail, seat, block, &mut items, &mut gaps)? {
            return Ok(View {
                items,
                gaps: Gaps { gaps },
            });
        }
    }
    Ok(View {
        items,
        gaps: Gaps { gaps },
    })
}

// Looks at a block and at its entries, and adds what they show. Whether the block is opened.
fn view_block(
    rail: &DropRail,
    seat: &mut DropSeat,
    block: u64,
    items: &mut Batch,
    gaps: &mut Vec<Gap>,
) -> Result<bool, AllocError>
    requires seat { IsSeatOf rail.now seat.old }
    requires block { rail.now.shape.blocks ≤ block }
    requires span { block < block_span }
    requires room { vec_len gaps.old < vec_capacity gaps.old }
    requires order { IsInOrder rail.now.shape items.old.items block }
    ensures looks { SawBlock rail.now.shape block (midway seat.old items.old.items gaps.old.items)
        (midway seat.new items.new.items gaps.new.items) result }
    ensures order { IsInOrder rail.now.shape items.new.items (block + 1) }
{
    match rail.look_block(seat, block) {
        Look::Unopened { .. } => Ok(false),
        Look::Gap {
            committed,
            allocated,
        } => {
            note(gaps, block, committed, allocated);
            Ok(true)
        }
        Look::Whole {
            count,
            committed,
            ..
        } => {
            let counted = Cursor {
                block,
                offset: count,
            };
            let Some(now) = view_entries(rail, seat, counted, items)? else {
                return Ok(true);
            };
            note(gaps, block, committed, now);
            Ok(true)
        }
    }
}

// Looks at the entries before a cursor, one after another, and adds their items. The cursor by
// which one of them found the block reused, which ends it.
fn view_entries(
    rail: &DropRail,
    seat: &mut DropSeat,
    counted: Cursor,
    items: &mut Batch,
) -> Result<Option<Cursor>, AllocError>
    requires seat { IsSeatOf rail.now seat.old }
    requires looking { seat.old.memory.looking ≡ Some counted }
    requires block { rail.now.shape.blocks ≤ counted.block }
    requires span { counted.block < block_span }
    requires count { counted.offset ≤ rail.now.shape.size }
    requires order { IsInOrder rail.now.shape items.old.items counted.block }
    ensures looks { SawEntries rail.now.shape counted (midway seat.old items.old.items [])
        (midway seat.new items.new.items []) result }
    ensures order { IsInOrder rail.now.shape items.new.items (counted.block + 1) }
{
    for offset in 0..counted.offset {
        items.reserve_one()?;
        let at = Cursor {
            block: counted.block,
            offset,
        };
        if let Seen::Reused { now } = view_entry(rail, seat, at, items) {
            return Ok(Some(now));
        }
    }
    Ok(None)
}

// Looks at the entry at a cursor, and adds its item where its block still stands.
fn view_entry(rail: &DropRail, seat: &mut DropSeat, at: Cursor, items: &mut Batch) -> Seen
    requires seat { IsSeatOf rail.now seat.old }
    requires looking { IsLookedAt seat.old.memory.looking at }
    requires place { HasPlace rail.now.shape at }
    requires room { 1 ≤ items.old.spare }
    ensures look { SawEntry rail.now.shape seat.old seat.new
        (entry_look at seat.new.memory.look_trail result) }
    ensures items { items.new.items ≡ items.old.items
        ++ entry_items rail.now.shape (entry_look at seat.new.memory.look_trail result) }
{
    let shape = rail.shape();
    let width = shape.width() as usize;
    let mut words = [0; 8];
    let out = &mut words[..width];
    if let Seen::Reused { now } = rail.look_entry(seat, at, out) {
        return Seen::Reused { now };
    }
    items.push(Placed {
        place: at.place_of(&shape),
        words: Entry::new(out),
    });
    Seen::Whole
}

// Adds the gap of a block, where there is room.
fn note(gaps: &mut Vec<Gap>, block: u64, committed: Cursor, allocated: Cursor)
    requires room { vec_len gaps.old < vec_capacity gaps.old }
    ensures { gaps.new.items ≡ gaps.old.items ++ gap block committed allocated ∷ [] }
{
    let gap = Gap {
        block,
        committed,
        allocated,
    };
    match gaps.push(gap) {
        Ok(()) => {}
        Err(_) => unreachable!(),
    }
}
