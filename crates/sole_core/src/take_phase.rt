ghost use Rattle.std.specs.Prelude.{◌≡◌, ℕ, ◌+◌, ◌*◌, ◌^◌, ◌<◌, ◌≤◌};
ghost use Rattle.sole_core.specs.TakeSteps.{IsTakeInRange, after_take, all_or_not, committed_or_not, first_take, next_cursor, rank_take, read_from, take_at, want_take, empty};
ghost use Rattle.sole_core.specs.declared.take_phase.SoleTake.TheVariants.{All, Com};
ghost use Rattle.machine.specs.Ops.{index};
ghost use Rattle.cursor_word.specs.Layout.{word_count};

use crate::phase::{SoleAfter, SolePhase};
use cursor_word::{Cursor, Shape};
use machine::Op;
use rail::{Answer, Batch, Take, Why};

// How many blocks the seats of a queue may fill together.
const BLOCK_ROOM: u64 = 1 << 42;

/// Where a take stands.
#[derive(Clone, Copy, Debug, PartialEq, Eq)]
pub enum SoleTake {
    Com { r: Cursor },
    All { r: Cursor, m: Cursor },
    Word { r: Cursor, next: u64 },
    Consume { r: Cursor },
}

/// The consumer's private cursor, where it has taken so many entries.
pub fn next_cursor(shape: &Shape, taken: u64) -> Cursor
    ensures { result ≡ next_cursor shape.now taken }
{
    Cursor::at_place(shape, taken.min(BLOCK_ROOM * shape.size()))
}

/// Where a take begins, with the consumer's private cursor.
#[inline(always)]
pub fn sole_take_at(next: Cursor) -> SolePhase
    ensures { result ≡ take_at next }
{
    SolePhase::Take(SoleTake::Com { r: next })
}

/// Where a take of a consumer begins that has taken these.
pub fn sole_first_take(shape: &Shape, taken: &Batch) -> SolePhase
    ensures { result ≡ first_take shape.now taken.now.items }
{
    sole_take_at(next_cursor(shape, taken.len() as u64))
}

/// The step of a phase.
#[inline(always)]
pub fn want_take(shape: &Shape, phase: &SoleTake) -> Op
    requires phase { IsTakeInRange shape.now phase.now }
    ensures op { result ≡ want_take shape.now phase.now }
    ensures within { index result < word_count shape.now }
{
    let _blocks = shape.blocks();
    match *phase {
        SoleTake::Com { r } => Op::Load(cursor_word::committed(shape, r.block)),
        SoleTake::All { r, .. } => Op::Load(cursor_word::allocated(shape, r.block)),
        SoleTake::Word { r, next } => Op::Load(cursor_word::entry_word(shape, r, next)),
        SoleTake::Consume { r } => Op::Max(cursor_word::consumed(shape, r.block), r.pack() + 1),
    }
}

/// What follows where the step found a value.
#[inline(always)]
pub fn after_take(shape: &Shape, phase: &SoleTake, old: u64) -> SoleAfter
    requires phase { IsTakeInRange shape.now phase.now }
    ensures { result ≡ after_take shape.now phase.now old }
{
    let _blocks = shape.blocks();
    match *phase {
        SoleTake::Com { r } => committed_or_not(shape, r, old),
        SoleTake::All { r, m } => all_or_not(r, m, old),
        SoleTake::Word { r, next } => {
            let width = shape.width();
            if next + 1 < width {
                SoleAfter::Next(SolePhase::Take(SoleTake::Word { r, next: next + 1 }))
            } else {
                SoleAfter::Next(SolePhase::Take(SoleTake::Consume { r }))
            }
        }
        SoleTake::Consume { r } => SoleAfter::Done(Answer::Take(Take::Ok(r.place_of(shape)))),
    }
}

// What follows where the committed cursor of the block of r was found.
#[inline(always)]
fn committed_or_not(shape: &Shape, r: Cursor, old: u64) -> SoleAfter
    requires { IsTakeInRange shape.now (Com r) }
    ensures { result ≡ committed_or_not shape.now r old }
{
    let found = Cursor::unpack(old);
    let size = shape.size();
    if old == r.pack() {
        empty(shape, r)
    } else if found.block < r.block {
        empty(shape, r)
    } else if found.offset == size {
        read_from(r)
    } else {
        SoleAfter::Next(SolePhase::Take(SoleTake::All { r, m: found }))
    }
}

// A whole entry stands at r.
#[inline(always)]
fn read_from(r: Cursor) -> SoleAfter
    ensures { result ≡ read_from r }
{
    SoleAfter::Next(SolePhase::Take(SoleTake::Word { r, next: 0 }))
}

// No entry stands at r.
#[inline(always)]
fn empty(shape: &Shape, r: Cursor) -> SoleAfter
    requires { IsTakeInRange shape.now (Com r) }
    ensures { result ≡ empty shape.now r }
{
    let _blocks = shape.blocks();
    SoleAfter::Done(Answer::Take(Take::Empty {
        place: r.place_of(shape),
    }))
}

// What follows where the allocated cursor of that block was found.
#[inline(always)]
fn all_or_not(r: Cursor, m: Cursor, old: u64) -> SoleAfter
    ensures { result ≡ all_or_not r m old }
{
    let found = Cursor::unpack(old);
    if found.block == m.block && found.offset == m.offset {
        read_from(r)
    } else {
        SoleAfter::Done(Answer::Take(Take::Busy(Why::Unfinished {
            block: r.block,
            before: m,
            after: found,
        })))
    }
}

/// A number that falls at each step.
pub fn rank_take(shape: &Shape, phase: &SoleTake) -> u64
    requires { IsTakeInRange shape.now phase.now }
    ensures { result ≡ rank_take shape.now phase.now }
{
    let width = shape.width();
    match *phase {
        SoleTake::Com { .. } => width + 3,
        SoleTake::All { .. } => width + 2,
        SoleTake::Word { next, .. } => width - next + 1,
        SoleTake::Consume { .. } => 1,
    }
}
