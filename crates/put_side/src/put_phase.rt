//! The phases of a put that all queues share.
ghost use Rattle.std.specs.Prelude.{◌≡◌, ℕ, ◌+◌, ◌*◌, ◌<◌, ◌≤◌, length};
ghost use Rattle.put_side.specs.PutSteps.{FindsFit, IsInRange, after, by_turn, filled, first_put, rank, want};
ghost use Rattle.machine.specs.Ops.{index};
ghost use Rattle.cursor_word.specs.Cursor.{block_span, offset_span};
ghost use Rattle.cursor_word.specs.Layout.{word_count};

use cursor_word::{Cursor, Shape};
use machine::{After, Op};
use rail::{Answer, Put, Why};

/// Where a put stands. Where it found a block filled, the phases of its queue follow.
#[derive(Clone, Copy, Debug, PartialEq, Eq)]
pub enum PutPhase {
    HeadP { turn: u64, first: Cursor },
    SeeA { turn: u64, first: Cursor, head: u64 },
    AddA { turn: u64, first: Cursor, head: u64 },
    Write { at: Cursor, next: u64 },
    Commit { at: Cursor },
    OpenM { full: Cursor },
    OpenA { full: Cursor },
    RaiseP { full: Cursor },
}

/// The phases of a queue whose puts take the shared steps.
pub trait SharesPuts: Copy {
    ghost use Rattle.put_side.specs.declared.put_phase.PutPhase.{PutPhase};
    ghost use Rattle.cursor_word.specs.declared.cursor.Cursor.{Cursor};

    // The phase that is this one of a put.
    ghost to_phase: { PutPhase → Self };

    // Where a put goes on that found this block filled in its first turn.
    ghost to_fill: { Cursor → Self };

    /// The phase that is this one of a put.
    fn put(phase: PutPhase) -> Self
        ensures { result ≡ to_phase phase };

    /// Where a put goes on that found this block filled in its first turn.
    fn fills(full: Cursor) -> Self
        ensures { result ≡ to_fill full };
}

impl PutPhase {
    /// The number of the phase on the usual way of a put. Only the speed of the code depends on it.
    #[inline(always)]
    pub fn usual_step(&self) -> u64 {
        match *self {
            PutPhase::HeadP { .. } => 0,
            PutPhase::SeeA { .. } => 1,
            PutPhase::AddA { .. } => 2,
            PutPhase::Write { .. } => 3,
            PutPhase::Commit { .. } => 4,
            _ => 6,
        }
    }
}

/// Where a put begins.
#[inline(always)]
pub fn first_put() -> PutPhase
    ensures { result ≡ first_put }
{
    PutPhase::HeadP {
        turn: 1,
        first: Cursor {
            block: 0,
            offset: 0,
        },
    }
}

/// The step of a phase.
#[inline(always)]
pub fn want_put(shape: &Shape, phase: &PutPhase, entry: &[u64]) -> Op
    requires width { length entry.now ≡ shape.now.width }
    requires phase { IsInRange shape.now phase.now }
    ensures op { result ≡ want shape.now phase.now entry.now }
    ensures within { index result < word_count shape.now }
{
    let _blocks = shape.blocks();
    match *phase {
        PutPhase::HeadP { .. } => Op::Load(cursor_word::producer_head()),
        PutPhase::SeeA { head, .. } => Op::Load(cursor_word::allocated(shape, head)),
        PutPhase::AddA { head, .. } => Op::AddOne(cursor_word::allocated(shape, head)),
        PutPhase::Write { at, next } => Op::Store(
            cursor_word::entry_word(shape, at, next),
            entry[next as usize],
        ),
        PutPhase::Commit { at } => Op::AddOne(cursor_word::committed(shape, at.block)),
        PutPhase::OpenM { full } => Op::Max(
            cursor_word::committed(shape, full.block + 1),
            opened(full.block + 1),
        ),
        PutPhase::OpenA { full } => Op::Max(
            cursor_word::allocated(shape, full.block + 1),
            opened(full.block + 1),
        ),
        PutPhase::RaiseP { full } => Op::Max(cursor_word::producer_head(), full.block + 1),
    }
}

/// What follows where the step found a value.
#[inline(always)]
pub fn after_put<P: SharesPuts>(shape: &Shape, phase: &PutPhase, old: u64) -> After<P>
    requires phase { IsInRange shape.now phase.now }
    requires found { FindsFit phase.now old }
    ensures { result ≡ after P.to_phase P.to_fill shape.now phase.now old }
{
    match *phase {
        PutPhase::HeadP { turn, first } => After::Next(P::put(PutPhase::SeeA {
            turn,
            first,
            head: old,
        })),
        PutPhase::SeeA { turn, first, head } => {
            let seen = Cursor::unpack(old);
            if seen.offset < shape.size() {
                After::Next(P::put(PutPhase::AddA { turn, first, head }))
            } else {
                filled::<P>(turn, first, seen)
            }
        }
        PutPhase::AddA { turn, first, .. } => {
            let found = Cursor::unpack(old);
            if found.offset < shape.size() {
                After::Next(P::put(PutPhase::Write { at: found, next: 0 }))
            } else {
                filled::<P>(turn, first, found)
            }
        }
        PutPhase::Write { at, next } => {
            let width = shape.width();
            if next + 1 < width {
                After::Next(P::put(PutPhase::Write { at, next: next + 1 }))
            } else {
                After::Next(P::put(PutPhase::Commit { at }))
            }
        }
        PutPhase::Commit { at } => After::Done(Answer::Put(Put::Ok(at.place_of(shape)))),
        PutPhase::OpenM { full } => After::Next(P::put(PutPhase::OpenA { full })),
        PutPhase::OpenA { full } => After::Next(P::put(PutPhase::RaiseP { full })),
        PutPhase::RaiseP { full } => After::Next(P::put(PutPhase::HeadP {
            turn: 2,
            first: full,
        })),
    }
}

// What follows where a block was found filled.
#[inline(always)]
fn filled<P: SharesPuts>(turn: u64, first: Cursor, found: Cursor) -> After<P>
    ensures { result ≡ filled P.to_phase P.to_fill turn first found }
{
    if turn == 1 {
        After::Next(P::fills(found))
    } else {
        After::Done(Answer::Put(Put::Busy(Why::Moved {
            earlier: first,
            later: found,
        })))
    }
}

/// The word of a block that was just opened.
#[inline(always)]
pub fn opened(block: u64) -> u64
    requires { block < block_span }
    ensures { result ≡ block * offset_span }
{
    Cursor { block, offset: 0 }.pack()
}

/// How many steps may follow, this one among them.
pub fn rank_put(shape: &Shape, phase: &PutPhase) -> u64
    requires { IsInRange shape.now phase.now }
    ensures rank { result ≡ rank shape.now phase.now }
    ensures some { 1 ≤ result }
    ensures first { phase.now ≡ first_put → result ≡ shape.now.width + 11 }
{
    let width = shape.width();
    match *phase {
        PutPhase::HeadP { turn, .. } => by_turn(turn, width + 11, width + 4),
        PutPhase::SeeA { turn, .. } => by_turn(turn, width + 10, width + 3),
        PutPhase::AddA { turn, .. } => by_turn(turn, width + 9, width + 2),
        PutPhase::Write { next, .. } => width - next + 1,
        PutPhase::Commit { .. } => 1,
        PutPhase::OpenM { .. } => width + 7,
        PutPhase::OpenA { .. } => width + 6,
        PutPhase::RaiseP { .. } => width + 5,
    }
}

/// One number in the first turn, and another in the second.
pub fn by_turn(turn: u64, first: u64, second: u64) -> u64
    ensures { result ≡ by_turn turn first second }
{
    if turn == 1 { first } else { second }
}
