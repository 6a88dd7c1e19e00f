ghost use Rattle.std.specs.Prelude.{◌≡◌, ℕ, ◌+◌, ◌*◌, ◌^◌, ◌<◌, ◌≤◌, length};
ghost use Rattle.put_side.specs.PutSteps.{IsBlock};
ghost use Rattle.sole_core.specs.PutSteps.{FindsFit, IsInRange, after, consumed_or_full, first_put, rank, want};
ghost use Rattle.sole_core.specs.TakeSteps.{take_at};
ghost use Rattle.sole_core.specs.declared.phase.SolePhase.{SolePhase};
ghost use Rattle.sole_core.specs.declared.phase.SolePhase.TheVariants.{Put, SeeX};
ghost use Rattle.machine.specs.declared.op.After.TheVariants.{Next};
ghost use Rattle.machine.specs.Ops.{index};
ghost use Rattle.cursor_word.specs.Layout.{word_count};
ghost use Rattle.cursor_word.specs.declared.cursor.Cursor.{Cursor};

use crate::take_phase::{SoleTake, after_take, rank_take, want_take};
use cursor_word::{Cursor, Shape};
use machine::Op;
use put_side::{PutPhase, SharesPuts, after_put, first_put, rank_put, want_put};
use rail::Answer;

/// What follows a step.
pub type SoleAfter = machine::After<SolePhase>;

/// Where a call stands.
#[derive(Clone, Copy, Debug, PartialEq, Eq)]
pub enum SolePhase {
    Put(PutPhase),
    SeeX { full: Cursor },
    Take(SoleTake),
}

impl SharesPuts for SolePhase {
    ghost to_phase = { Put };

    ghost to_fill = { SeeX };

    #[inline(always)]
    fn put(phase: PutPhase) -> SolePhase {
        SolePhase::Put(phase)
    }

    #[inline(always)]
    fn fills(full: Cursor) -> SolePhase {
        SolePhase::SeeX { full }
    }
}

/// Where a put begins.
#[inline(always)]
pub fn sole_first_put() -> SolePhase
    ensures { result ≡ first_put }
{
    SolePhase::Put(first_put())
}

/// The step of a phase.
#[inline(always)]
pub fn sole_want(shape: &Shape, phase: &SolePhase, entry: &[u64]) -> Op
    requires width { length entry.now ≡ shape.now.width }
    requires phase { IsInRange shape.now phase.now }
    ensures op { result ≡ want shape.now phase.now entry.now }
    ensures within { index result < word_count shape.now }
{
    let _blocks = shape.blocks();
    match *phase {
        SolePhase::Put(put) => want_put(shape, &put, entry),
        SolePhase::SeeX { full } => Op::Load(cursor_word::consumed(shape, full.block + 1)),
        SolePhase::Take(take) => want_take(shape, &take),
    }
}

/// What follows where the step found a value.
#[inline(always)]
pub fn sole_after(shape: &Shape, phase: &SolePhase, old: u64) -> SoleAfter
    requires phase { IsInRange shape.now phase.now }
    requires found { FindsFit phase.now old }
    ensures { result ≡ after shape.now phase.now old }
{
    match *phase {
        SolePhase::Put(put) => after_put::<SolePhase>(shape, &put, old),
        SolePhase::SeeX { full } => consumed_or_full(shape, full, old),
        SolePhase::Take(take) => after_take(shape, &take, old),
    }
}

// What follows where the older block was found consumed or not.
#[inline(always)]
fn consumed_or_full(shape: &Shape, full: Cursor, old: u64) -> SoleAfter
    requires { IsBlock shape.now full.block }
    ensures { result ≡ consumed_or_full shape.now full old }
{
    let blocks = shape.blocks();
    let consumed = Cursor {
        block: full.block + 1 - blocks,
        offset: shape.size(),
    };
    if consumed.pack() <= old {
        SoleAfter::Next(SolePhase::Put(PutPhase::OpenM { full }))
    } else {
        SoleAfter::Done(Answer::Put(rail::Put::Full {
            head: full.block,
            consumed: Cursor::unpack(old),
        }))
    }
}

/// How many steps may follow, this one among them: a number that falls at each step.
pub fn sole_rank(shape: &Shape, phase: &SolePhase) -> u64
    requires { IsInRange shape.now phase.now }
    ensures rank { result ≡ rank shape.now phase.now }
    ensures some { 1 ≤ result }
    ensures falls { (old : ℕ) (next : SolePhase)
        → after shape.now phase.now old ≡ Next next → rank shape.now next < result }
    ensures put { phase.now ≡ first_put → result ≡ shape.now.width + 11 }
    ensures take { (next : Cursor) → phase.now ≡ take_at next → result ≡ shape.now.width + 3 }
{
    let width = shape.width();
    match *phase {
        SolePhase::Put(put) => rank_put(shape, &put),
        SolePhase::SeeX { .. } => width + 8,
        SolePhase::Take(take) => rank_take(shape, &take),
    }
}
