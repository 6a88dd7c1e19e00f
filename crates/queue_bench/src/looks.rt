//! Puts that overwrite the oldest entries while one seat looks the whole time.
ghost use Rattle.std.specs.Prelude.{◌≡◌, ◌<◌, ◌≤◌, Some, All};
ghost use Rattle.cursor_word.specs.Cursor.{cursor};
ghost use Rattle.call_steps.specs.Queue.{IsFresh, IsSeatOf};
ghost use denote.Param.Send.{IsSync};

use crate::passes::{accepted_by, put_all};
use block_looks::{Look, Seen};
use cursor_word::Cursor;
use drop_rail::{DropRail, DropSeat};
use rail::Rail;
use std::sync::Wait;
use std::sync::atomic::{AtomicU64, Ordering};
use std::thread;
use std::thread::Threads;

/// How many entries were accepted, and how many the looker saw whole.
#[derive(Clone, Copy)]
pub struct Looked {
    pub accepted: u64,
    pub seen: u64,
}

/// Puts `each` entries by each seat but the last, each in a thread of its own, while the last looks
/// at the newest blocks.
pub fn put_beside_looker<R: Threads + Wait + Sync>(
    rt: &R,
    queue: &DropRail,
    seats: &mut [DropSeat],
    each: u64,
) -> Looked
    requires fresh { All (IsFresh queue.now) seats.old }
    requires width { queue.now.shape.width ≡ 6 }
    requires each { each ≤ 1000000 }
{
    let threads = seats.len();
    if threads == 0 {
        return Looked {
            accepted: 0,
            seen: 0,
        };
    }
    let producers = threads - 1;
    let (ended, whole) = (AtomicU64::new(0), AtomicU64::new(0));
    let (ended_now, whole_now) = (&ended, &whole);
    thread::for_each_mut(
        rt,
        &mut *seats,
        threads,
        &|index, seat: &mut DropSeat|
            requires { IsSync R.row × IsFresh queue.now seat.now × (queue.now.shape.width ≡ 6)
                × (each ≤ 1000000) }
        {
            if index < producers {
                let _most = queue.shape().most_puts();
                put_all(rt, queue, seat, each);
                ended_now.fetch_add(1, Ordering::SeqCst);
            } else {
                let seen = look_until(rt, queue, seat, ended_now, producers as u64);
                whole_now.store(seen, Ordering::SeqCst);
            }
        },
    );
    Looked {
        accepted: accepted_by::<DropRail>(seats),
        seen: whole.into_inner(),
    }
}

// Looks until so many producers have ended.
fn look_until(
    rt: &impl Wait,
    queue: &DropRail,
    seat: &mut DropSeat,
    ended: &AtomicU64,
    producers: u64,
) -> u64
    requires seat { IsSeatOf queue.now seat.old }
    requires width { queue.now.shape.width ≡ 6 }
{
    let mut whole = 0u64;
    for _ in rt.forever() {
        if ended.load(Ordering::SeqCst) >= producers {
            break;
        }
        whole = whole.wrapping_add(look_at_newest(queue, seat));
    }
    whole
}

// Looks at each entry of the newest block and of the one before it.
fn look_at_newest(queue: &DropRail, seat: &mut DropSeat) -> u64
    requires seat { IsSeatOf queue.now seat.old }
    requires width { queue.now.shape.width ≡ 6 }
    ensures { IsSeatOf queue.now seat.new }
{
    let newest = queue.look_head(seat).block;
    let blocks = queue.shape().blocks();
    let mut whole = 0u64;
    for block in [newest.saturating_sub(1), newest] {
        if block >= blocks {
            whole = whole.wrapping_add(look_at_block(queue, seat, block));
        }
    }
    whole
}

fn look_at_block(queue: &DropRail, seat: &mut DropSeat, block: u64) -> u64
    requires seat { IsSeatOf queue.now seat.old }
    requires width { queue.now.shape.width ≡ 6 }
    requires block { queue.now.shape.blocks ≤ block }
    ensures { IsSeatOf queue.now seat.new }
{
    let Look::Whole {
        count,
        committed,
        allocated: _,
    } = queue.look_block(seat, block)
    else {
        return 0;
    };
    look_at_entries(queue, seat, committed.block, count)
}

// Looks at so many entries of a block, and answers how many were whole.
fn look_at_entries(queue: &DropRail, seat: &mut DropSeat, block: u64, count: u64) -> u64
    requires seat { IsSeatOf queue.now seat.old }
    requires width { queue.now.shape.width ≡ 6 }
    requires looking { seat.old.memory.looking ≡ Some (cursor block count) }
    requires count { count ≤ queue.now.shape.size }
    ensures { IsSeatOf queue.now seat.new }
{
    let mut out = [0; 6];
    let mut whole = 0u64;
    for offset in 0..count {
        let at = Cursor { block, offset };
        if let Seen::Whole = queue.look_entry(seat, at, &mut out) {
            whole = whole.wrapping_add(1);
        }
    }
    whole
}
