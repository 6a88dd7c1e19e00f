//! Entries through one queue by several threads: every seat but the first puts and the first takes,
//! or every seat puts.
ghost use Rattle.std.specs.Prelude.{◌≡◌, ◌+◌, ◌<◌, ◌≤◌, [], All, length};
ghost use Rattle.cursor_word.specs.Cursor.{most_puts};
ghost use Rattle.queue_bench.specs.Taker.{FirstTakes};
ghost use denote.Param.Send.{IsSync};

use crate::pairs::entry_of;
use crossbeam_utils::Backoff;
use rail::{Put, Rail, Take};
use std::sync::Wait;
use std::sync::atomic::{AtomicU64, Ordering};
use std::thread;
use std::thread::Threads;

/// Puts `each` entries by each seat but the first and takes them all by the first, each seat in a
/// thread of its own, and answers how many came whole.
pub fn pass<R: Threads + Wait + Sync, Q: Rail>(
    rt: &R,
    queue: &Q,
    seats: &mut [Q::Seat],
    each: u64,
) -> u64
    requires puts { All (Q.PutsInto queue.now) seats.old }
    requires takes { FirstTakes (Q.TakesFrom queue.now) seats.old }
    requires fresh { All (λ seat. Q.made seat ≡ []) seats.old }
    requires width { (Q.shape_of queue.now).width ≡ 6 }
    requires each { each ≤ 1000000 }
{
    let Some(producers) = seats.len().checked_sub(1) else {
        return 0;
    };
    let count = (producers as u64).wrapping_mul(each);
    let kept = AtomicU64::new(0);
    let whole = &kept;
    thread::for_each_mut(
        rt,
        seats,
        producers + 1,
        &|index, seat: &mut Q::Seat|
            requires { IsSync R.row × Q.PutsInto queue.now seat.now
                × (index ≡ 0 → Q.TakesFrom queue.now seat.now) × (Q.made seat.now ≡ [])
                × ((Q.shape_of queue.now).width ≡ 6) × (each ≤ 1000000) }
        {
            if index == 0 {
                whole.store(take_all(rt, queue, seat, count), Ordering::SeqCst);
            } else {
                let _most = queue.shape().most_puts();
                put_all(rt, queue, seat, each);
            }
        },
    );
    kept.into_inner()
}

/// Puts `each` entries by each seat, each seat in a thread of its own, and answers how many were
/// accepted.
pub fn put_by_all<R: Threads + Wait + Sync, Q: Rail>(
    rt: &R,
    queue: &Q,
    seats: &mut [Q::Seat],
    each: u64,
) -> u64
    requires puts { All (Q.PutsInto queue.now) seats.old }
    requires fresh { All (λ seat. Q.made seat ≡ []) seats.old }
    requires width { (Q.shape_of queue.now).width ≡ 6 }
    requires each { each ≤ 1000000 }
{
    let threads = seats.len();
    if threads == 0 {
        return 0;
    }
    thread::for_each_mut(
        rt,
        &mut *seats,
        threads,
        &|_index, seat: &mut Q::Seat|
            requires { IsSync R.row × Q.PutsInto queue.now seat.now × (Q.made seat.now ≡ [])
                × ((Q.shape_of queue.now).width ≡ 6) × (each ≤ 1000000) }
        {
            let _most = queue.shape().most_puts();
            put_all(rt, queue, seat, each);
        },
    );
    accepted_by::<Q>(seats)
}

/// How many entries of these seats were accepted.
pub fn accepted_by<Q: Rail>(seats: &[Q::Seat]) -> u64 {
    let mut accepted = 0u64;
    for seat in seats {
        accepted = accepted.wrapping_add(Q::puts(seat));
    }
    accepted
}

/// Puts so many entries, each until it is accepted.
pub fn put_all<Q: Rail>(rt: &impl Wait, queue: &Q, seat: &mut Q::Seat, times: u64)
    requires seat { Q.PutsInto queue.now seat.old }
    requires width { (Q.shape_of queue.now).width ≡ 6 }
    requires room { length (Q.made seat.old) + times ≤ most_puts (Q.shape_of queue.now) }
{
    for turn in 0..times {
        put_one(rt, queue, seat, turn);
    }
}

// Tries until the entry is accepted.
fn put_one<Q: Rail>(rt: &impl Wait, queue: &Q, seat: &mut Q::Seat, turn: u64)
    requires seat { Q.PutsInto queue.now seat.old }
    requires width { (Q.shape_of queue.now).width ≡ 6 }
    requires room { length (Q.made seat.old) < most_puts (Q.shape_of queue.now) }
    ensures seat { Q.PutsInto queue.now seat.new }
    ensures one { length (Q.made seat.new) ≤ length (Q.made seat.old) + 1 }
{
    let entry = entry_of(turn);
    let backoff = Backoff::new();
    for _ in rt.forever() {
        match queue.put(seat, &entry) {
            Put::Ok(_) => return,
            Put::Full {
                head: _,
                consumed: _,
            } => backoff.snooze(),
            Put::Busy(_) => backoff.snooze(),
        }
    }
}

fn take_all<Q: Rail>(rt: &impl Wait, queue: &Q, seat: &mut Q::Seat, times: u64) -> u64
    requires seat { Q.TakesFrom queue.now seat.old }
    requires width { (Q.shape_of queue.now).width ≡ 6 }
{
    let mut kept = 0u64;
    for _ in 0..times {
        kept = kept.wrapping_add(u64::from(take_one(rt, queue, seat)));
    }
    kept
}

// Tries until an entry comes, and answers whether it is whole.
fn take_one<Q: Rail>(rt: &impl Wait, queue: &Q, seat: &mut Q::Seat) -> bool
    requires seat { Q.TakesFrom queue.now seat.old }
    requires width { (Q.shape_of queue.now).width ≡ 6 }
    ensures { Q.TakesFrom queue.now seat.new }
{
    let mut out = [0; 6];
    let backoff = Backoff::new();
    for _ in rt.forever() {
        if let Take::Ok(_) = queue.take(seat, &mut out) {
            return out == entry_of(out[0]);
        }
        backoff.snooze();
    }
    false
}
