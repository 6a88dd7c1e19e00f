//! The same through the kit's queue.
ghost use Rattle.std.specs.Prelude.{◌<◌, ◌≤◌};
ghost use denote.Param.Send.{IsSync};

use crate::pairs::entry_of;
use crossbeam_queue::ArrayQueue;
use crossbeam_utils::Backoff;
use std::sync::Wait;
use std::sync::atomic::{AtomicU64, Ordering};
use std::thread;
use std::thread::Threads;

/// Pushes an entry and pops one, so many times, and answers how many came back as they were put.
pub fn kit_pairs(rt: &impl Wait, queue: &ArrayQueue<[u64; 6]>, times: u64) -> u64 {
    let mut kept = 0;
    for turn in 0..times {
        kept += u64::from(kit_pair(rt, queue, turn));
    }
    kept
}

fn kit_pair(rt: &impl Wait, queue: &ArrayQueue<[u64; 6]>, turn: u64) -> bool {
    let entry = entry_of(turn);
    if queue.push(rt, entry).is_err() {
        return false;
    }
    queue.pop(rt).is_some_and(|out| out == entry)
}

/// Pushes `each` entries by each of so many threads and pops them all by one more, and answers how
/// many came whole.
pub fn kit_pass<R: Threads + Wait + Sync>(
    rt: &R,
    queue: &ArrayQueue<[u64; 6]>,
    producers: u64,
    each: u64,
) -> u64
    requires { producers ≤ 255 }
{
    let count = producers.wrapping_mul(each);
    let kept = AtomicU64::new(0);
    let whole = &kept;
    thread::for_each_mut(
        rt,
        &mut [0u8; 256][..producers as usize + 1],
        producers as usize + 1,
        &|index, _seat: &mut u8|
            requires { IsSync R.row }
        {
            if (index as u64) < producers {
                kit_push_all(rt, queue, each);
            } else {
                whole.store(kit_pop_all(rt, queue, count), Ordering::SeqCst);
            }
        },
    );
    kept.into_inner()
}

/// Pushes so many entries into a queue, which overwrites its oldest one where it is full, and
/// answers how many those and what it holds are together.
pub fn kit_overwrites(rt: &impl Wait, queue: &ArrayQueue<[u64; 6]>, times: u64) -> u64 {
    kit_overwrite(rt, queue, times).wrapping_add(queue.len(rt) as u64)
}

fn kit_overwrite(rt: &impl Wait, queue: &ArrayQueue<[u64; 6]>, times: u64) -> u64 {
    let mut overwritten = 0u64;
    for turn in 0..times {
        let oldest = queue.force_push(rt, entry_of(turn));
        overwritten = overwritten.wrapping_add(u64::from(oldest.is_some()));
    }
    overwritten
}

/// The same by so many threads.
pub fn kit_overwrite_pass<R: Threads + Wait + Sync>(
    rt: &R,
    queue: &ArrayQueue<[u64; 6]>,
    producers: u64,
    each: u64,
) -> u64
    requires { (0 < producers) × (producers ≤ 255) }
{
    let overwritten = AtomicU64::new(0);
    let sum = &overwritten;
    thread::for_each_mut(
        rt,
        &mut [0u8; 256][..producers as usize],
        producers as usize,
        &|_index, _seat: &mut u8|
            requires { IsSync R.row }
        {
            sum.fetch_add(kit_overwrite(rt, queue, each), Ordering::SeqCst);
        },
    );
    overwritten.into_inner().wrapping_add(queue.len(rt) as u64)
}

fn kit_push_all(rt: &impl Wait, queue: &ArrayQueue<[u64; 6]>, times: u64) {
    for turn in 0..times {
        kit_push(rt, queue, entry_of(turn));
    }
}

fn kit_push(rt: &impl Wait, queue: &ArrayQueue<[u64; 6]>, entry: [u64; 6]) {
    let backoff = Backoff::new();
    for _ in rt.forever() {
        if queue.push(rt, entry).is_ok() {
            return;
        }
        backoff.snooze();
    }
}

fn kit_pop_all(rt: &impl Wait, queue: &ArrayQueue<[u64; 6]>, times: u64) -> u64 {
    let mut kept = 0u64;
    for _ in 0..times {
        kept = kept.wrapping_add(u64::from(kit_pop(rt, queue)));
    }
    kept
}

fn kit_pop(rt: &impl Wait, queue: &ArrayQueue<[u64; 6]>) -> bool {
    let backoff = Backoff::new();
    for _ in rt.forever() {
        if let Some(out) = queue.pop(rt) {
            return out == entry_of(out[0]);
        }
        backoff.snooze();
    }
    false
}
