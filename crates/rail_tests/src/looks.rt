//! Looks at a queue that drops its oldest entries.
ghost use Rattle.std.specs.Prelude.{◌≡◌, ◌≤◌, length};
ghost use Rattle.std.specs.List.{All};
ghost use Rattle.block_looks.specs.declared.look.Look.TheVariants as look;
ghost use Rattle.call_steps.specs.Queue.{IsSeatOf};
ghost use Rattle.cursor_word.specs.Cursor.{cursor};

use crate::calls::call_of;
use cursor_word::{Cursor, Shape};
use drop_rail::{DropRail, DropSeat, Look, Seen};
use rail::Rail;
use std::process::Abort;
use std::sync::atomic::{AtomicBool, AtomicU64, Ordering};
use std::test::Fail;
use std::thread;
use std::thread::Threads;

// These words are put, one after the other.
fn put(rt: &impl Abort, queue: &DropRail, seat: &mut DropSeat, words: &[u64])
    requires seat { IsSeatOf queue.now seat.old }
    ensures seat { IsSeatOf queue.now seat.new }
{
    for word in words {
        assert!(rt; DropRail::puts(seat) < 1000);
        call_of(queue, seat, Some(*word));
    }
}

fn at(block: u64, offset: u64) -> Cursor
    ensures { result ≡ cursor block offset }
{
    Cursor { block, offset }
}

fn whole(block: u64, count: u64) -> Look
    ensures { result ≡ look.Whole count (cursor block count) (cursor block count) }
{
    Look::Whole {
        count,
        committed: at(block, count),
        allocated: at(block, count),
    }
}

// A look at a block, and then, where it is whole, at one of its entries.
fn look_at(queue: &DropRail, seat: &mut DropSeat, at: Cursor, out: &mut [u64]) -> Option<Seen>
    requires seat { IsSeatOf queue.now seat.old }
    requires block { queue.now.shape.blocks ≤ at.block }
    requires width { length out.old ≡ queue.now.shape.width }
    ensures seat { IsSeatOf queue.now seat.new }
{
    let size = queue.shape().size();
    let Look::Whole {
        count,
        committed,
        ..
    } = queue.look_block(seat, at.block)
    else {
        return None;
    };
    if committed.block != at.block || at.offset >= count.min(size) {
        return None;
    }
    Some(queue.look_entry(seat, at, out))
}

#[test]
fn looks_see_what_three_puts_left(rt: HostRuntime) -> Result<(), Fail> {
    let (queue, mut seats) = DropRail::make(rt.alloc(), Shape::new(2, 2, 1, 2)?)?;
    let Some(mut seat) = seats.pop() else {
        panic!(rt; "the queue has no seat");
    };
    put(&rt, &queue, &mut seat, &[10, 11, 12]);
    assert_eq!(rt; queue.look_head(&mut seat), at(3, 1));
    assert_eq!(rt; queue.look_block(&mut seat, 3), whole(3, 1));
    let unopened = Look::Unopened {
        committed: at(2, 2),
    };
    assert_eq!(rt; queue.look_block(&mut seat, 4), unopened);
    let mut out = [0];
    let seen = look_at(&queue, &mut seat, at(3, 0), out.as_mut_slice());
    assert_eq!(rt; seen, Some(Seen::Whole));
    assert_eq!(rt; out, [12]);
    Ok(())
}

// What a look sees while another seat puts.
#[test]
fn a_block_is_reused_between_two_looks(rt: HostRuntime) -> Result<(), Fail> {
    let (queue, mut seats) = DropRail::make(rt.alloc(), Shape::new(2, 2, 1, 2)?)?;
    let (Some(mut looker), Some(mut putter)) = (seats.pop(), seats.pop()) else {
        panic!(rt; "the queue has no two seats");
    };
    put(&rt, &queue, &mut putter, &[10, 11, 12, 13]);
    let mut out = [0];
    let oldest = at(2, 1);
    let seen = look_at(&queue, &mut looker, oldest, out.as_mut_slice());
    assert_eq!(rt; (seen, out), (Some(Seen::Whole), [11]));
    let look = queue.look_block(&mut looker, 2);
    put(&rt, &queue, &mut putter, &[14]);
    assert_eq!(rt; look, whole(2, 2));
    let seen = queue.look_entry(&mut looker, oldest, out.as_mut_slice());
    assert_eq!(rt; seen, Seen::Reused { now: at(4, 1) });
    let gap = Look::Gap {
        committed: at(4, 1),
        allocated: at(4, 1),
    };
    assert_eq!(rt; queue.look_block(&mut looker, 2), gap);
    assert_eq!(rt; queue.look_head(&mut looker), at(4, 1));
    assert_eq!(rt; queue.look_block(&mut looker, 4), whole(4, 1));
    Ok(())
}

const PRODUCERS: usize = 4;

const LOOKS: u64 = 10_000;

const MOST_PUTS: u64 = 1_000_000;

const MOST_ROUNDS: u64 = 100_000_000;

// How many entries were seen whole, how many of these had words that differ, and whether the looks
// have ended.
#[derive(Drop)]
struct Sights {
    whole: AtomicU64,
    torn: AtomicU64,
    ended: AtomicBool,
}

// Puts entries whose words are all one number until the looks have ended, or so many.
fn put_beside(queue: &DropRail, seat: &mut DropSeat, sights: &Sights, index: u64)
    requires seat { IsSeatOf queue.now seat.old }
    requires width { queue.now.shape.width ≡ 8 }
    ensures seat { IsSeatOf queue.now seat.new }
{
    let first = index.wrapping_mul(MOST_PUTS);
    for count in 0..MOST_PUTS {
        let room = DropRail::puts(seat) < queue.shape().most_puts();
        if !room || sights.ended.load(Ordering::SeqCst) {
            return;
        }
        let words = [first.wrapping_add(count); 8];
        queue.put(seat, words.as_slice());
    }
}

// One look at an entry of the newest block, or of the one before, in turn.
fn look_once(queue: &DropRail, seat: &mut DropSeat, sights: &Sights, round: u64)
    requires seat { IsSeatOf queue.now seat.old }
    requires width { queue.now.shape.width ≡ 8 }
    ensures seat { IsSeatOf queue.now seat.new }
{
    let blocks = queue.shape().blocks();
    let newest = queue.look_head(seat).block;
    let at = Cursor {
        block: newest.saturating_sub(round % 2).max(blocks),
        offset: round / 2 % 2,
    };
    let mut words = [0; 8];
    if look_at(queue, seat, at, words.as_mut_slice()) == Some(Seen::Whole) {
        sights.whole.fetch_add(1, Ordering::SeqCst);
        if words != [words[0]; 8] {
            sights.torn.fetch_add(1, Ordering::SeqCst);
        }
    }
}

fn look_beside(queue: &DropRail, seat: &mut DropSeat, sights: &Sights)
    requires seat { IsSeatOf queue.now seat.old }
    requires width { queue.now.shape.width ≡ 8 }
    ensures seat { IsSeatOf queue.now seat.new }
{
    for round in 0..MOST_ROUNDS {
        if sights.whole.load(Ordering::SeqCst) >= LOOKS {
            break;
        }
        look_once(queue, seat, sights, round);
    }
    sights.ended.store(true, Ordering::SeqCst);
}

// The last seat looks, and the others put.
fn look_while_others_put<R: Threads + Sync>(
    rt: &R,
    queue: &DropRail,
    seats: &mut [DropSeat],
    sights: &Sights,
)
    requires seats { All (IsSeatOf queue.now) seats.old }
    requires width { queue.now.shape.width ≡ 8 }
{
    thread::for_each_mut(
        rt,
        seats,
        PRODUCERS + 1,
        &|index, seat: &mut DropSeat|
            requires { IsSeatOf queue.now seat.now × (queue.now.shape.width ≡ 8) }
            ensures { IsSeatOf queue.entry.now seat.exit.now }
        {
            if index < PRODUCERS {
                put_beside(queue, seat, sights, index as u64)
            } else {
                look_beside(queue, seat, sights)
            }
        },
    );
}

#[test]
fn no_look_beside_four_producers_is_torn(rt: HostRuntime) -> Result<(), Fail> {
    let (queue, mut seats) = DropRail::make(rt.alloc(), Shape::new(2, 2, 8, 5)?)?;
    let sights = Sights {
        whole: AtomicU64::new(0),
        torn: AtomicU64::new(0),
        ended: AtomicBool::new(false),
    };
    look_while_others_put(&rt, &queue, seats.as_mut_slice(), &sights);
    assert_eq!(rt; sights.whole.load(Ordering::SeqCst), LOOKS);
    assert_eq!(rt; sights.torn.load(Ordering::SeqCst), 0);
    Ok(())
}
