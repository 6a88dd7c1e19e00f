//! Takes by one thread from queues that were filled before.
ghost use Rattle.std.specs.Prelude.{◌≡◌, ◌≤◌};

use crate::pairs::entry_of;
use crate::rounds::{Costs, Work, shape_of};
use crossbeam_queue::ArrayQueue;
use rail::{Put, Rail, Take};
use retry_rail::RetryRail;
use sole_rail::{Consuming, SoleRail};
use std::alloc::Global;
use std::sync::Wait;
use std::time::{Clock, Instant};

/// No queue here has room for more entries.
const MOST_ENTRIES: u64 = 16384;

/// Takes from each queue in turn. Filling them isn't timed.
pub fn take_costs<R: Clock + Wait>(
    rt: &R,
    alloc: Global,
    work: &Work,
) -> Result<Costs, anyhow::Error> {
    let mut least = Costs::none();
    for _ in 0..work.pair_rounds {
        let (kept, cost) = kit_take_round(rt, alloc, work)?;
        least.add(kept);
        least.kit = least.kit.min(cost);
        let (kept, cost) = retry_take_round(rt, alloc, work)?;
        least.add(kept);
        least.retry = least.retry.min(cost);
        let (kept, cost) = sole_take_round(rt, alloc, work)?;
        least.add(kept);
        least.sole = least.sole.min(cost);
    }
    Ok(least)
}

fn kit_take_round<R: Clock + Wait>(
    rt: &R,
    alloc: Global,
    work: &Work,
) -> Result<(u64, u128), anyhow::Error> {
    let queue = ArrayQueue::new(alloc, 512)?;
    let (mut kept, mut cost) = (0u64, 0u128);
    for _ in 0..work.pairs {
        let left = work.pairs.saturating_sub(kept);
        if left == 0 {
            break;
        }
        let count = kit_fill(rt, &queue);
        let start = Instant::now(rt)?;
        kept = kept.wrapping_add(kit_drain(rt, &queue, count.min(left)));
        cost = cost.wrapping_add(start.elapsed(rt)?.as_nanos());
    }
    Ok((kept, cost))
}

fn retry_take_round<R: Clock>(
    rt: &R,
    alloc: Global,
    work: &Work,
) -> Result<(u64, u128), anyhow::Error> {
    let shape = shape_of(work.blocks, 1)?;
    let (rail, mut seats) = RetryRail::make(alloc, shape)?;
    match seats.pop() {
        Some(mut seat) => timed_takes(rt, &rail, &mut seat, work.pairs),
        None => Ok((0, 0)),
    }
}

fn sole_take_round<R: Clock>(
    rt: &R,
    alloc: Global,
    work: &Work,
) -> Result<(u64, u128), anyhow::Error> {
    let shape = shape_of(work.blocks, 1)?;
    let (rail, mut seats) = SoleRail::make(alloc, shape)?;
    match seats.pop() {
        Some(mut seat) if seat.takes() => timed_takes(rt, &rail, &mut seat, work.pairs),
        _ => Ok((0, 0)),
    }
}

// Fills the queue and empties it, until so many entries were taken, and answers how many came whole
// and the nanoseconds of the takes.
fn timed_takes<R: Clock, Q: Rail>(
    rt: &R,
    rail: &Q,
    seat: &mut Q::Seat,
    times: u64,
) -> Result<(u64, u128), anyhow::Error>
    requires puts { Q.PutsInto rail.now seat.old }
    requires takes { Q.TakesFrom rail.now seat.old }
    requires width { (Q.shape_of rail.now).width ≡ 6 }
{
    let (mut kept, mut cost) = (0u64, 0u128);
    for _ in 0..times {
        let left = times.saturating_sub(kept);
        if left == 0 {
            break;
        }
        let count = fill(rail, seat);
        let start = Instant::now(rt)?;
        kept = kept.wrapping_add(drain(rail, seat, count.min(left)));
        cost = cost.wrapping_add(start.elapsed(rt)?.as_nanos());
    }
    Ok((kept, cost))
}

// Puts until the queue is full, and answers how many entries it took.
fn fill<Q: Rail>(rail: &Q, seat: &mut Q::Seat) -> u64
    requires puts { Q.PutsInto rail.now seat.old }
    requires takes { Q.TakesFrom rail.now seat.old }
    requires width { (Q.shape_of rail.now).width ≡ 6 }
    ensures puts { Q.PutsInto rail.now seat.new }
    ensures takes { Q.TakesFrom rail.now seat.new }
{
    for turn in 0..MOST_ENTRIES {
        if !puts_one(rail, seat, turn) {
            return turn;
        }
    }
    MOST_ENTRIES
}

fn puts_one<Q: Rail>(rail: &Q, seat: &mut Q::Seat, turn: u64) -> bool
    requires puts { Q.PutsInto rail.now seat.old }
    requires takes { Q.TakesFrom rail.now seat.old }
    requires width { (Q.shape_of rail.now).width ≡ 6 }
    ensures puts { Q.PutsInto rail.now seat.new }
    ensures takes { Q.TakesFrom rail.now seat.new }
{
    Q::puts(seat) < rail.shape().most_puts()
        && matches!(rail.put(seat, &entry_of(turn)), Put::Ok(_))
}

// Takes so many entries, and answers how many came whole.
fn drain<Q: Rail>(rail: &Q, seat: &mut Q::Seat, times: u64) -> u64
    requires puts { Q.PutsInto rail.now seat.old }
    requires takes { Q.TakesFrom rail.now seat.old }
    requires width { (Q.shape_of rail.now).width ≡ 6 }
    ensures puts { Q.PutsInto rail.now seat.new }
    ensures takes { Q.TakesFrom rail.now seat.new }
{
    let mut kept = 0u64;
    for _ in 0..times {
        let mut out = [0; 6];
        let take = rail.take(seat, &mut out);
        let whole = matches!(take, Take::Ok(_)) && out == entry_of(out[0]);
        kept = kept.wrapping_add(u64::from(whole));
    }
    kept
}

fn kit_fill(rt: &impl Wait, queue: &ArrayQueue<[u64; 6]>) -> u64 {
    for turn in 0..MOST_ENTRIES {
        if queue.push(rt, entry_of(turn)).is_err() {
            return turn;
        }
    }
    MOST_ENTRIES
}

fn kit_drain(rt: &impl Wait, queue: &ArrayQueue<[u64; 6]>, times: u64) -> u64 {
    let mut kept = 0u64;
    for _ in 0..times {
        let whole = queue.pop(rt).is_some_and(|out| out == entry_of(out[0]));
        kept = kept.wrapping_add(u64::from(whole));
    }
    kept
}
