//! The steps of a look, each a load, and what follows them.
ghost use Rattle.std.specs.Prelude.{◌≡◌, ◌<◌};
ghost use Rattle.cursor_word.specs.Layout.{word_count};
ghost use Rattle.block_looks.specs.Table.{IsLookInRange, look_after, look_of, look_want};

use cursor_word::{Cursor, Shape};

/// Where a look stands.
#[derive(Clone, Copy, Debug, PartialEq, Eq)]
pub enum LookPhase {
    Head,
    HeadA { head: u64 },
    Com { block: u64 },
    All { block: u64, committed: Cursor },
    Word { at: Cursor, next: u64 },
    Check { at: Cursor },
}

/// What a look at a block found: it isn't opened, its first entries up to `count` are all there, or
/// some puts of it are still under way.
#[derive(Clone, Copy, Debug, PartialEq, Eq)]
pub enum Look {
    Unopened {
        committed: Cursor,
    },
    Whole {
        count: u64,
        committed: Cursor,
        allocated: Cursor,
    },
    Gap {
        committed: Cursor,
        allocated: Cursor,
    },
}

/// What a look at an entry found: its words, or that its block was reused.
#[derive(Clone, Copy, Debug, PartialEq, Eq)]
pub enum Seen {
    Whole,
    Reused { now: Cursor },
}

/// What follows a step of a look.
#[derive(Clone, Copy, Debug, PartialEq, Eq)]
pub enum LookAfter {
    Next(LookPhase),
    Head(Cursor),
    Block(Look),
    Entry(Seen),
}

/// The word that the step of a phase loads.
#[inline(always)]
pub fn look_want(shape: &Shape, phase: &LookPhase) -> u64
    requires phase { IsLookInRange shape.now phase.now }
    ensures index { result ≡ look_want shape.now phase.now }
    ensures within { result < word_count shape.now }
{
    let _blocks = shape.blocks();
    match *phase {
        LookPhase::Head => cursor_word::producer_head(),
        LookPhase::HeadA { head } => cursor_word::allocated(shape, head),
        LookPhase::Com { block } => cursor_word::committed(shape, block),
        LookPhase::All { block, .. } => cursor_word::allocated(shape, block),
        LookPhase::Word { at, next } => cursor_word::entry_word(shape, at, next),
        LookPhase::Check { at } => cursor_word::allocated(shape, at.block),
    }
}

/// What follows where the step found a value.
#[inline(always)]
pub fn look_after(shape: &Shape, phase: &LookPhase, old: u64) -> LookAfter
    requires phase { IsLookInRange shape.now phase.now }
    ensures { result ≡ look_after shape.now phase.now old }
{
    match *phase {
        LookPhase::Head => LookAfter::Next(LookPhase::HeadA { head: old }),
        LookPhase::HeadA { .. } => LookAfter::Head(Cursor::unpack(old)),
        LookPhase::Com { block } => {
            let committed = Cursor::unpack(old);
            if committed.block < block {
                LookAfter::Block(Look::Unopened { committed })
            } else {
                LookAfter::Next(LookPhase::All { block, committed })
            }
        }
        LookPhase::All { block, committed } => {
            LookAfter::Block(look_of(shape, block, committed, Cursor::unpack(old)))
        }
        LookPhase::Word { at, next } => {
            let width = shape.width();
            if next + 1 < width {
                LookAfter::Next(LookPhase::Word { at, next: next + 1 })
            } else {
                LookAfter::Next(LookPhase::Check { at })
            }
        }
        LookPhase::Check { at } => {
            let now = Cursor::unpack(old);
            if now.block == at.block {
                LookAfter::Entry(Seen::Whole)
            } else {
                LookAfter::Entry(Seen::Reused { now })
            }
        }
    }
}

// What both cursors of a block tell.
#[inline(always)]
fn look_of(shape: &Shape, block: u64, committed: Cursor, allocated: Cursor) -> Look
    ensures { result ≡ look_of shape.now block committed allocated }
{
    let size = shape.size();
    let gap = Look::Gap {
        committed,
        allocated,
    };
    if committed.block != block {
        return gap;
    }
    if allocated.block != block {
        return gap;
    }
    let whole = Look::Whole {
        count: committed.offset,
        committed,
        allocated,
    };
    if committed.offset == size {
        return whole;
    }
    if allocated.offset == committed.offset {
        return whole;
    }
    gap
}
