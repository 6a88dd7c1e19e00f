//! Noting a span in any queue.
#![tactic(auto)]

ghost use Rattle.std.specs.Prelude.{◌≡◌, ◌+◌, ◌<◌, ◌≤◌, true, false, length, Some, IfOk, OnOk, OnErr, IsOk};
ghost use Rattle.cursor_word.specs.Cursor.{most_puts};
ghost use Rattle.rail.specs.Rail.{Puts};
ghost use Rattle.rail.specs.declared.answer.Answer.{Answer};
ghost use Rattle.span_words.specs.Span.{IsTid, spelling};
ghost use Rattle.span_recorder.specs.Gain.{GainsEntry, GainAlike, TakesIfFull};

use crossbeam_utils::Backoff;
use rail::{Batch, Entry, Placed, Put, Rail, Take};
use span_words::{SPAN_WORDS, SpanEvent, encode};
use std::alloc::{AllocError, Global};
use std::sync::Wait;

/// Puts the words of an event. Where the queue is busy it pauses, and where it is full it takes an
/// entry into the batch; then it tries again.
pub fn note_span<R: Rail>(
    rt: &impl Wait,
    alloc: Global,
    rail: &R,
    seat: &mut R::Seat,
    batch: &mut Batch,
    event: &SpanEvent,
) -> Result<(), AllocError>
    requires puts { R.PutsInto rail.now seat.old }
    requires takes { R.TakesFrom rail.now seat.old }
    requires width { (R.shape_of rail.now).width ≡ SPAN_WORDS }
    requires room { length (R.made seat.old) < most_puts (R.shape_of rail.now) }
    requires tid { IsTid event.now.tid }
    ensures puts { (q : R) → R.PutsInto q seat.old → R.PutsInto q seat.new }
    ensures takes { (q : R) → R.TakesFrom q seat.old → R.TakesFrom q seat.new }
    ensures number { R.number_of seat.new ≡ R.number_of seat.old }
    ensures made { OnOk result
        (GainsEntry (R.made seat.old) (R.made seat.new) (spelling event.now)) }
    ensures memory { OnErr result (R.made seat.new ≡ R.made seat.old) }
    ensures taken { GainAlike
        (R.taken seat.old) (R.taken seat.new) batch.old.items batch.new.items }
    ensures drops { R.DROPS ≡ true → IsOk result
        × (R.taken seat.new ≡ R.taken seat.old) × (batch.new.items ≡ batch.old.items) }
{
    let words = encode(event);
    let backoff = Backoff::new();
    for _ in rt.forever() {
        match put_or_take(alloc, rail, seat, batch, &words)? {
            Put::Ok(_) => break,
            Put::Busy(_) => backoff.snooze(),
            Put::Full {
                head: _,
                consumed: _,
            } => (),
        }
    }
    Ok(())
}

// Puts once, and where the queue is full takes once, into the batch. The answer is that of the put.
fn put_or_take<R: Rail>(
    alloc: Global,
    rail: &R,
    seat: &mut R::Seat,
    batch: &mut Batch,
    words: &[u64],
) -> Result<Put, AllocError>
    requires puts { R.PutsInto rail.now seat.old }
    requires takes { R.TakesFrom rail.now seat.old }
    requires width { (R.shape_of rail.now).width ≡ SPAN_WORDS }
    requires words { length words.now ≡ SPAN_WORDS }
    requires room { length (R.made seat.old) < most_puts (R.shape_of rail.now) }
    ensures puts { (q : R) → R.PutsInto q seat.old → R.PutsInto q seat.new }
    ensures takes { (q : R) → R.TakesFrom q seat.old → R.TakesFrom q seat.new }
    ensures number { R.number_of seat.new ≡ R.number_of seat.old }
    ensures answer { IfOk result (λ put. Puts (R.shape_of rail.now) R.DROPS words.now
        (R.made seat.old) (R.made seat.new) (R.told seat.new).found put) }
    ensures memory { OnErr result (R.made seat.new ≡ R.made seat.old) }
    ensures taken { GainAlike
        (R.taken seat.old) (R.taken seat.new) batch.old.items batch.new.items }
    ensures full { IfOk result (λ put. TakesIfFull put (R.taken seat.old) (R.taken seat.new)) }
    ensures drops { R.DROPS ≡ true → IsOk result
        × (R.taken seat.new ≡ R.taken seat.old) × (batch.new.items ≡ batch.old.items) }
{
    let answer = rail.put(seat, words);
    if let Put::Full {
        head: _,
        consumed: _,
    } = answer
    {
        let _taken = collect_one(alloc, rail, seat, batch)?;
    }
    Ok(answer)
}

/// Takes once, and puts what was taken into the batch. The answer is that of the take. The room is
/// made first, so no entry is lost for want of memory.
pub fn collect_one<R: Rail>(
    _alloc: Global,
    rail: &R,
    seat: &mut R::Seat,
    batch: &mut Batch,
) -> Result<Take, AllocError>
    requires keeps { R.DROPS ≡ false }
    requires takes { R.TakesFrom rail.now seat.old }
    requires width { (R.shape_of rail.now).width ≡ SPAN_WORDS }
    ensures puts { (q : R) → R.PutsInto q seat.old → R.PutsInto q seat.new }
    ensures takes { (q : R) → R.TakesFrom q seat.old → R.TakesFrom q seat.new }
    ensures number { R.number_of seat.new ≡ R.number_of seat.old }
    ensures made { R.made seat.new ≡ R.made seat.old }
    ensures taken { GainAlike
        (R.taken seat.old) (R.taken seat.new) batch.old.items batch.new.items }
    ensures told { IfOk result (λ take. (R.told seat.new).answer ≡ Some (Answer.Take take)) }
    ensures one { length (R.taken seat.new) ≤ length (R.taken seat.old) + 1 }
    ensures memory { OnErr result (R.taken seat.new ≡ R.taken seat.old) }
{
    batch.reserve_one()?;
    let mut words = [0; SPAN_WORDS];
    let answer = rail.take(seat, &mut words);
    if let Take::Ok(place) = answer {
        batch.push(Placed {
            place,
            words: Entry::new(&words),
        });
    }
    Ok(answer)
}
