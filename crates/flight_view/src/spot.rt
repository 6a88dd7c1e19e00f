//! Where the walk of a view stands between two of its loads, and what follows each of them.
ghost use Rattle.std.specs.Prelude.{◌≡◌, ℕ, ◌+◌, ◌<◌, List, [], Some, length};
ghost use Rattle.cursor_word.specs.Shape.{Grid, IsWithinLimits};
ghost use Rattle.cursor_word.specs.Cursor.{block_span, unpacked};
ghost use Rattle.block_looks.specs.Table.{look_after};
ghost use Rattle.block_looks.specs.Shown.{LookLeads};
ghost use Rattle.block_looks.specs.declared.look.Look.TheVariants as look;
ghost use Rattle.block_looks.specs.declared.look.LookAfter.TheVariants as after;
ghost use Rattle.block_looks.specs.declared.look.LookPhase.TheVariants as phase;
ghost use Rattle.block_looks.specs.declared.look.Seen.TheVariants as seen;
ghost use Rattle.flight_view.specs.declared.spot.Shown.TheVariants as shown;
ghost use Rattle.flight_view.specs.Walks.{end_block, first_block};
ghost use Rattle.flight_view.specs.Spots.{HavePassed, IsAt, IsAtEntry, IsCount, IsFit, Leaves, SoFar, read_after, with_load, with_look};

use crate::gaps::Gap;
use block_looks::{Look, LookAfter, LookPhase, Seen, look_after};
use cursor_word::{Cursor, Shape};
use rail::{Entry, Placed};

/// Where a walk stands: its next step, the block before which it ends, and what its last whole look
/// at a block counted, with the committed cursor that told.
#[derive(Clone, Copy)]
pub struct Spot {
    pub phase: LookPhase,
    pub end: u64,
    pub count: u64,
    pub committed: Cursor,
}

/// What a load adds to a view.
#[derive(Clone, Copy)]
pub enum Shown {
    Nothing,
    Item(Placed),
    Gap(Gap),
}

/// What follows a load: where the walk stands then, unless it has ended, and what the load showed.
#[derive(Clone, Copy)]
pub struct Loaded {
    pub next: Option<Spot>,
    pub shown: Shown,
}

impl Spot {
    /// Where a walk begins.
    pub fn start() -> Spot
        ensures { result.phase ≡ phase.Head }
    {
        Spot {
            phase: LookPhase::Head,
            end: 0,
            count: 0,
            committed: Cursor {
                block: 0,
                offset: 0,
            },
        }
    }

    // The spot in another phase.
    fn in_phase(&self, phase: LookPhase) -> Spot
        ensures { result ≡ record {
          phase = phase;
          end = self.now.end;
          count = self.now.count;
          committed = self.now.committed;
        } }
    {
        Spot {
            phase,
            end: self.end,
            count: self.count,
            committed: self.committed,
        }
    }
}

/// What follows where the next load of a walk found a value.
pub fn follow(shape: &Shape, spot: &Spot, read: &[u64], found: u64) -> Loaded
    requires stands { (view : SoFar) × IsAt shape.now spot.now read.now view }
    requires count { IsCount shape.now spot.now.phase (unpacked found) }
    ensures { (view : SoFar) → IsAt shape.now spot.now read.now view
        → Leaves shape.now (read_after spot.now.phase read.now found)
        (with_load shape.now spot.now.phase found result.shown view) result.next }
{
    let _blocks = shape.blocks();
    match (spot.phase, look_after(shape, &spot.phase, found)) {
        (_, LookAfter::Next(next)) => on(spot.in_phase(next)),
        (LookPhase::HeadA { .. }, LookAfter::Head(newest)) => on(begun(shape, newest)),
        (LookPhase::Com { block }, LookAfter::Block(look)) => saw_block(spot, block, look),
        (LookPhase::All { block, .. }, LookAfter::Block(look)) => saw_block(spot, block, look),
        (LookPhase::Check { at }, LookAfter::Entry(seen)) => saw_entry(shape, spot, at, read, seen),
        _ => unreachable!(),
    }
}

// The walk goes on.
fn on(next: Spot) -> Loaded
    ensures { result ≡ record { next = Some next; shown = shown.Nothing } }
{
    Loaded {
        next: Some(next),
        shown: Shown::Nothing,
    }
}

// Where a walk looks at its first block.
fn begun(shape: &Shape, newest: Cursor) -> Spot
    requires fits { newest.block < block_span }
    ensures phase { result.phase ≡ phase.Com (first_block shape.now newest) }
    ensures end { result.end ≡ end_block shape.now newest }
{
    let blocks = shape.blocks();
    Spot {
        phase: LookPhase::Com {
            block: blocks.max((newest.block + 1).saturating_sub(blocks)),
        },
        end: newest.block + blocks + 1,
        count: 0,
        committed: newest,
    }
}

// Where a walk has passed a block.
fn passed(spot: &Spot, block: u64, shown: Shown) -> Loaded
    requires within { block < spot.now.end }
    ensures shown { result.shown ≡ shown }
    ensures next { (shape : Grid) (view : SoFar) → HavePassed shape spot.now.end (block + 1) view
        → Leaves shape [] view result.next }
{
    let end = spot.end;
    let next = block + 1;
    if next < end {
        return Loaded {
            next: Some(spot.in_phase(LookPhase::Com { block: next })),
            shown,
        };
    }
    Loaded { next: None, shown }
}

// A look at a block came to its end.
fn saw_block(spot: &Spot, block: u64, look: Look) -> Loaded
    requires within { block < spot.now.end }
    ensures { (shape : Grid) (view : SoFar) (found : List ℕ)
        → IsWithinLimits shape → IsFit shape look → HavePassed shape spot.now.end block view
        → LookLeads shape (after.Next (phase.Com block)) found (after.Block look)
        → Leaves shape [] (with_look shape block found result.shown view) result.next }
{
    match look {
        Look::Unopened { .. } => Loaded {
            next: None,
            shown: Shown::Nothing,
        },
        Look::Gap {
            committed,
            allocated,
        } => passed(
            spot,
            block,
            Shown::Gap(Gap {
                block,
                committed,
                allocated,
            }),
        ),
        Look::Whole {
            count,
            committed,
            ..
        } => counted(spot, block, count, committed),
    }
}

// The look found the block whole.
fn counted(spot: &Spot, block: u64, count: u64, committed: Cursor) -> Loaded
    requires within { block < spot.now.end }
    ensures { (shape : Grid) (view : SoFar) (found : List ℕ) (allocated : Cursor)
        → IsWithinLimits shape → IsFit shape (look.Whole count committed allocated)
        → HavePassed shape spot.now.end block view
        → LookLeads shape (after.Next (phase.Com block)) found
        (after.Block (look.Whole count committed allocated))
        → Leaves shape [] (with_look shape block found result.shown view) result.next }
{
    if count == 0 {
        return passed(spot, block, Shown::Nothing);
    }
    on(Spot {
        phase: LookPhase::Word {
            at: Cursor { block, offset: 0 },
            next: 0,
        },
        end: spot.end,
        count,
        committed,
    })
}

// A look at an entry came to its end.
fn saw_entry(shape: &Shape, spot: &Spot, at: Cursor, read: &[u64], seen: Seen) -> Loaded
    requires stands { (view : SoFar)
        × IsAtEntry shape.now spot.now at read.now (phase.Check at) view }
    requires read { length read.now ≡ shape.now.width }
    ensures { (view : SoFar) (found : ℕ)
        → IsAtEntry shape.now spot.now at read.now (phase.Check at) view
        → look_after shape.now (phase.Check at) found ≡ after.Entry seen
        → Leaves shape.now [] (with_load shape.now (phase.Check at) found result.shown view)
        result.next }
{
    match seen {
        Seen::Whole => saw_item(shape, spot, at, read),
        Seen::Reused { now } => {
            let gap = Gap {
                block: at.block,
                committed: spot.committed,
                allocated: now,
            };
            passed(spot, at.block, Shown::Gap(gap))
        }
    }
}

// The entry was found whole.
fn saw_item(shape: &Shape, spot: &Spot, at: Cursor, read: &[u64]) -> Loaded
    requires stands { (view : SoFar)
        × IsAtEntry shape.now spot.now at read.now (phase.Check at) view }
    requires read { length read.now ≡ shape.now.width }
    ensures { (view : SoFar) (found : ℕ)
        → IsAtEntry shape.now spot.now at read.now (phase.Check at) view
        → look_after shape.now (phase.Check at) found ≡ after.Entry seen.Whole
        → Leaves shape.now [] (with_load shape.now (phase.Check at) found result.shown view)
        result.next }
{
    let _width = shape.width();
    let count = spot.count;
    let item = Shown::Item(Placed {
        place: at.place_of(shape),
        words: Entry::new(read),
    });
    let offset = at.offset + 1;
    if offset >= count {
        return passed(spot, at.block, item);
    }
    let next = Cursor {
        block: at.block,
        offset,
    };
    Loaded {
        next: Some(spot.in_phase(LookPhase::Word { at: next, next: 0 })),
        shown: item,
    }
}
