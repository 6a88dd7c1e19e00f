//! Answers that no call alone is given: threads call a queue that drops its oldest entries until
//! each of them was met.
ghost use Rattle.std.specs.Prelude.{◌≡◌};
ghost use Rattle.std.specs.List.{All};
ghost use Rattle.call_steps.specs.Queue.{IsSeatOf};

use cursor_word::{Cursor, Shape};
use drop_rail::{DropRail, DropSeat};
use rail::{Put, Rail, Take, Why};
use std::sync::atomic::{AtomicU64, Ordering};
use std::test::Fail;
use std::thread;
use std::thread::Threads;

// Each seat puts and takes so often at most.
const MOST_TURNS: u64 = 100_000_000;

const THREADS: usize = 4;

// What a call met, as far as its answer tells.
#[derive(Clone, Copy, Debug)]
enum Kind {
    Overrun,
    PutBeforeUncommitted,
    PutAfterRefill,
    TakeBeforeUncommitted,
    TakeAfterTake,
    TakeAfterTurn,
    TakeAfterReuse,
}

// An answer of a kind, and whether its place and cursors are as that kind has them.
type Told = (Kind, bool);

fn told_by_put(shape: &Shape, answer: &Put) -> Option<Told> {
    match answer {
        Put::Busy(
            Why::Unfinished {
                block,
                before,
                after,
            },
        ) => {
            let fits = is_behind(shape, *block, *before, *after);
            Some((Kind::PutBeforeUncommitted, fits))
        }
        Put::Busy(Why::Moved { earlier, later }) => {
            let filled = is_filled(shape, *earlier) && is_filled(shape, *later);
            Some((Kind::PutAfterRefill, filled && earlier.block < later.block))
        }
        _ => None,
    }
}

fn told_by_take(shape: &Shape, answer: &Take) -> Option<Told> {
    match answer {
        Take::Overrun { place, now } => {
            let old = (place / shape.size()).wrapping_add(shape.blocks());
            Some((Kind::Overrun, is_reused(shape, old, now.block)))
        }
        Take::Busy(
            Why::Unfinished {
                block,
                before,
                after,
            },
        ) => {
            let fits = is_under_way(shape, *block, *before, *after);
            Some((Kind::TakeBeforeUncommitted, fits))
        }
        Take::Busy(Why::Moved { earlier, later }) => Some(told_by_moved(shape, *earlier, *later)),
        _ => None,
    }
}

// Another take reserved in this block, or others emptied the next one as well, or the block was
// reused.
fn told_by_moved(shape: &Shape, earlier: Cursor, later: Cursor) -> Told {
    let (old, new) = (earlier.block, later.block);
    if old == new {
        return (Kind::TakeAfterTake, earlier.offset < later.offset);
    }
    let emptied = old < new && is_filled(shape, later);
    if is_filled(shape, earlier) {
        (Kind::TakeAfterTurn, emptied)
    } else {
        (Kind::TakeAfterReuse, emptied || is_reused(shape, old, new))
    }
}

fn is_filled(shape: &Shape, at: Cursor) -> bool {
    shape.size() <= at.offset
}

// The new block lies where the old one lay.
fn is_reused(shape: &Shape, old: u64, new: u64) -> bool {
    let blocks = shape.blocks();
    old < new && old % blocks == new % blocks
}

// The block after the filled one is to lie where one lies that isn't wholly committed.
fn is_behind(shape: &Shape, block: u64, filled: Cursor, committed: Cursor) -> bool {
    is_filled(shape, filled)
        && block.wrapping_add(shape.blocks()) == filled.block.wrapping_add(1)
        && committed.block == block
        && !is_filled(shape, committed)
}

// Some of the entries that were allocated in a block are committed, and some aren't.
fn is_under_way(shape: &Shape, block: u64, committed: Cursor, allocated: Cursor) -> bool {
    committed.block == block
        && allocated.block == block
        && 0 < committed.offset
        && !is_filled(shape, committed)
        && committed.offset < allocated.offset
}

// How often each kind was met, and how often one was told wrongly.
#[derive(Drop)]
struct Met {
    overrun: AtomicU64,
    put_before_uncommitted: AtomicU64,
    put_after_refill: AtomicU64,
    take_before_uncommitted: AtomicU64,
    take_after_take: AtomicU64,
    take_after_turn: AtomicU64,
    take_after_reuse: AtomicU64,
    wrong: AtomicU64,
}

impl Met {
    fn none() -> Met {
        Met {
            overrun: AtomicU64::new(0),
            put_before_uncommitted: AtomicU64::new(0),
            put_after_refill: AtomicU64::new(0),
            take_before_uncommitted: AtomicU64::new(0),
            take_after_take: AtomicU64::new(0),
            take_after_turn: AtomicU64::new(0),
            take_after_reuse: AtomicU64::new(0),
            wrong: AtomicU64::new(0),
        }
    }

    fn count_of(&self, kind: Kind) -> &AtomicU64 {
        match kind {
            Kind::Overrun => &self.overrun,
            Kind::PutBeforeUncommitted => &self.put_before_uncommitted,
            Kind::PutAfterRefill => &self.put_after_refill,
            Kind::TakeBeforeUncommitted => &self.take_before_uncommitted,
            Kind::TakeAfterTake => &self.take_after_take,
            Kind::TakeAfterTurn => &self.take_after_turn,
            Kind::TakeAfterReuse => &self.take_after_reuse,
        }
    }

    fn note(&self, told: Option<Told>) {
        let count = match told {
            Some((kind, true)) => self.count_of(kind),
            Some((_, false)) => &self.wrong,
            None => return,
        };
        count.fetch_add(1, Ordering::SeqCst);
    }

    fn has(&self, kind: Kind) -> bool {
        0 < self.count_of(kind).load(Ordering::SeqCst)
    }

    fn has_all(&self, kinds: &[Kind]) -> bool {
        kinds.iter().all(|kind| self.has(*kind))
    }
}

// Puts and takes in turn until all these kinds are met.
fn call_until_met(queue: &DropRail, seat: &mut DropSeat, met: &Met, kinds: &[Kind])
    requires seat { IsSeatOf queue.now seat.old }
    requires width { queue.now.shape.width ≡ 1 }
{
    let shape = queue.shape();
    for turn in 0..MOST_TURNS {
        if met.has_all(kinds) || DropRail::puts(seat) >= shape.most_puts() {
            return;
        }
        let put = queue.put(seat, &[turn]);
        met.note(told_by_put(&shape, &put));
        let take = queue.take(seat, &mut [0]);
        met.note(told_by_take(&shape, &take));
    }
}

fn race<R: Threads + Sync>(
    rt: &R,
    queue: &DropRail,
    seats: &mut [DropSeat],
    met: &Met,
    kinds: &[Kind],
)
    requires seats { All (IsSeatOf queue.now) seats.old }
    requires width { queue.now.shape.width ≡ 1 }
{
    thread::for_each_mut(
        rt,
        seats,
        THREADS,
        &|_index, seat: &mut DropSeat|
            requires { IsSeatOf queue.now seat.now × (queue.now.shape.width ≡ 1) }
        { call_until_met(queue, seat, met, kinds) },
    );
}

// The blocks, their size, how many seats race, and what they meet. That another take reserved in the
// same block is told only where the block isn't reused between two steps, and where the seats run in
// turn on one processor there are many calls between these.
const ROWS: &[(u64, u64, u64, &[Kind])] = &[
    (
        2,
        2,
        4,
        &[
            Kind::Overrun,
            Kind::PutBeforeUncommitted,
            Kind::PutAfterRefill,
            Kind::TakeBeforeUncommitted,
            Kind::TakeAfterTurn,
            Kind::TakeAfterReuse,
        ],
    ),
    (16, 65536, 2, &[Kind::TakeAfterTake]),
];

#[test]
fn each_answer_that_no_call_alone_is_given_is_met(rt: HostRuntime) -> Result<(), Fail> {
    for (blocks, size, seats, kinds) in ROWS {
        let shape = Shape::new(*blocks, *size, 1, *seats)?;
        let (queue, mut seats) = DropRail::make(rt.alloc(), shape)?;
        let met = Met::none();
        race(&rt, &queue, seats.as_mut_slice(), &met, kinds);
        assert_eq!(rt; met.wrong.load(Ordering::SeqCst), 0);
        for kind in *kinds {
            assert!(rt; met.has(*kind), "{kind:?} was never met");
        }
    }
    Ok(())
}
