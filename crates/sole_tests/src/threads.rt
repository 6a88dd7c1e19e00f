//! The queue over shared words: by hand, and by three producers, each in a thread of its own, and
//! the consumer in the thread that began them.
ghost use Rattle.std.specs.Prelude.{◌≡◌, ℕ, ◌<◌, IsPermutation, length, map, slice_index_or};
ghost use Rattle.std.specs.List.{All};
ghost use Rattle.call_steps.specs.Queue.{IsSeatOf, Seated};
ghost use Rattle.rail.specs.Outcome.{numbers_below};
ghost use Rattle.sole_core.specs.declared.phase.SolePhase.{SolePhase};
ghost use Rattle.sole_rail.specs.Consumer.{IsConsumerOf};
ghost use denote.Param.Send.{IsSync};

use crate::bench::{cursor, empty, put_ok, take_ok};
use cursor_word::Shape;
use rail::{Answer, Put, Rail, Take};
use sole_rail::{Consuming, SoleRail, SoleSeat};
use std::alloc::{AllocError, Global};
use std::process::Abort;
use std::sync::atomic::{AtomicU64, Ordering};
use std::test::Fail;
use std::thread;
use std::thread::Threads;

const PRODUCERS: usize = 3;

// Each producer puts so many entries.
const ENTRIES: u64 = 2000;

// A seat calls so often at most.
const MOST_TURNS: u64 = 100_000_000_000;

// The number that the next entry of each seat is to have, how many entries came otherwise, and how
// many producers have ended.
#[derive(Drop)]
struct Order {
    next: Vec<AtomicU64>,
    wrong: AtomicU64,
    ended: AtomicU64,
}

impl Order {
    fn new(alloc: Global, seats: u64) -> Result<Order, AllocError> {
        let mut next = Vec::new(alloc);
        for _ in 0..seats {
            next.push(AtomicU64::new(0))?;
        }
        Ok(Order {
            next,
            wrong: AtomicU64::new(0),
            ended: AtomicU64::new(0),
        })
    }

    // An entry came: the next of its seat, or not.
    fn note(&self, words: &[u64]) {
        if let [seat, number] = words {
            if let Some(next) = self.next.get(*seat as usize) {
                if next.swap(number.wrapping_add(1), Ordering::SeqCst) == *number {
                    return;
                }
            }
        }
        self.wrong.fetch_add(1, Ordering::SeqCst);
    }

    fn count(&self) -> u64 {
        let mut sum = 0u64;
        for next in self.next.as_slice() {
            sum = sum.wrapping_add(next.load(Ordering::SeqCst));
        }
        sum
    }
}

// Lets another thread run, in a few of the turns: beside other work each time may cost much.
fn pause(turn: u64) {
    if turn % 4096 == 0 {
        thread::yield_now();
    }
}

// Puts its entries, each until it is accepted.
fn put_often(queue: &SoleRail, seat: &mut SoleSeat)
    requires seat { IsSeatOf queue.now seat.old }
    requires width { queue.now.shape.width ≡ 2 }
    ensures seat { IsSeatOf queue.now seat.new }
    ensures number { seat.new.number ≡ seat.old.number }
{
    let number = seat.number();
    let _most = queue.shape().most_puts();
    for turn in 0..MOST_TURNS {
        let count = seat.puts();
        if count >= ENTRIES {
            return;
        }
        match queue.put(seat, &[number, count]) {
            Put::Ok(_) => {}
            _ => pause(turn),
        }
    }
}

// Takes until all producers have ended.
fn take_often(queue: &SoleRail, seat: &mut SoleSeat, order: &Order)
    requires seat { IsConsumerOf queue.now seat.old }
    requires width { queue.now.shape.width ≡ 2 }
    ensures seat { IsConsumerOf queue.now seat.new }
{
    for turn in 0..MOST_TURNS {
        if order.ended.load(Ordering::SeqCst) >= PRODUCERS as u64 {
            return;
        }
        let mut words = [0; 2];
        match queue.take(seat, words.as_mut_slice()) {
            Take::Ok(_) => order.note(words.as_slice()),
            _ => pause(turn),
        }
    }
}

fn put_by_each<R: Threads + Sync>(rt: &R, queue: &SoleRail, seats: &mut [SoleSeat], order: &Order)
    requires seats { All (IsSeatOf queue.now) seats.old }
    requires width { queue.now.shape.width ≡ 2 }
    ensures seats { All (IsSeatOf queue.now) seats.new }
    ensures long { length seats.new ≡ length seats.old }
    ensures numbers { (at : ℕ) (other : Seated SolePhase) → at < length seats.old
        → (slice_index_or seats.new at other).number
        ≡ (slice_index_or seats.old at other).number }
{
    thread::for_each_mut(
        rt,
        seats,
        PRODUCERS,
        &|_index, seat: &mut SoleSeat|
            requires { IsSeatOf queue.now seat.now × (queue.now.shape.width ≡ 2) }
            ensures { IsSeatOf queue.entry.now seat.exit.now
                × (seat.exit.now.number ≡ seat.entry.now.number) }
        {
            put_often(queue, seat);
            order.ended.fetch_add(1, Ordering::SeqCst);
        },
    );
}

fn put_by_all<R: Threads + Sync>(rt: &R, queue: &SoleRail, seats: &mut [SoleSeat], order: &Order)
    requires seats { All (IsSeatOf queue.now) seats.old }
    requires width { queue.now.shape.width ≡ 2 }
    ensures seats { All (IsSeatOf queue.now) seats.new }
    ensures numbers { map (λ s. s.number) seats.new ≡ map (λ s. s.number) seats.old }
{
    put_by_each(rt, queue, seats, order);
}

// All but one seat put, each in a thread of its own, and this thread takes with that one.
fn run_beside<R: Threads + Sync>(
    rt: &R,
    queue: &SoleRail,
    consumer: &mut SoleSeat,
    producers: &mut [SoleSeat],
    order: &Order,
)
    requires consumer { IsConsumerOf queue.now consumer.old }
    requires producers { All (IsSeatOf queue.now) producers.old }
    requires width { queue.now.shape.width ≡ 2 }
    ensures consumer { IsConsumerOf queue.now consumer.new }
    ensures producers { All (IsSeatOf queue.now) producers.new }
    ensures numbers { map (λ s. s.number) producers.new ≡ map (λ s. s.number) producers.old }
{
    // the second closure is called in this thread
    thread::join_mut(
        rt,
        &mut ||
            requires { IsSync R.row × All (IsSeatOf queue.now) producers.now
                × (queue.now.shape.width ≡ 2) }
            ensures { All (IsSeatOf queue.entry.now) producers.exit.now
                × (map (λ (s : Seated SolePhase). s.number) producers.exit.now
                ≡ map (λ (s : Seated SolePhase). s.number) producers.entry.now) }
        { put_by_all(rt, queue, producers, order) },
        &mut ||
            requires { IsConsumerOf queue.now consumer.now × (queue.now.shape.width ≡ 2) }
            ensures { IsConsumerOf queue.entry.now consumer.exit.now }
        { take_often(queue, consumer, order) },
    );
}

// The first seat takes, and the others put.
fn run_all<R: Threads + Sync>(rt: &R, queue: &SoleRail, seats: &mut [SoleSeat], order: &Order)
    requires seats { All (IsSeatOf queue.now) seats.old }
    requires width { queue.now.shape.width ≡ 2 }
    ensures seats { All (IsSeatOf queue.now) seats.new }
    ensures numbers { map (λ s. s.number) seats.new ≡ map (λ s. s.number) seats.old }
{
    if let Some((consumer, producers)) = seats.split_first_mut() {
        if consumer.takes() {
            run_beside(rt, queue, consumer, producers, order);
        }
    }
}

// The threads run, and the queue is closed: each entry came once, in its producer's order.
fn passes<R: Threads + Sync>(rt: &R, alloc: Global, shape: Shape) -> Result<bool, AllocError>
    requires width { shape.width ≡ 2 }
{
    let order = Order::new(alloc, shape.seats())?;
    let (queue, mut seats) = SoleRail::make(alloc, shape)?;
    run_all(rt, &queue, seats.as_mut_slice(), &order);
    let Ok(done) = queue.close(alloc, seats) else {
        return Ok(false);
    };
    for item in SoleRail::left(&done).as_slice() {
        order.note(item.words.words());
    }
    let wrong = order.wrong.load(Ordering::SeqCst);
    let all = ENTRIES * PRODUCERS as u64;
    Ok(wrong == 0 && order.count() == all && SoleRail::accepted(&done) == all)
}

#[test]
fn threads_lose_nothing_and_keep_the_order(rt: HostRuntime) -> Result<(), Fail> {
    for (blocks, size) in [(2, 4), (3, 1)] {
        let shape = Shape::new(blocks, size, 2, PRODUCERS as u64 + 1)?;
        assert!(rt; passes(&rt, rt.alloc(), shape)?);
    }
    Ok(())
}

// One call of a seat: a put of a word, or a take.
fn answer_of(
    rt: &impl Abort,
    queue: &SoleRail,
    seat: &mut SoleSeat,
    word: Option<u64>,
) -> Option<Answer>
    requires seat { IsSeatOf queue.now seat.old }
    requires width { queue.now.shape.width ≡ 1 }
    ensures seat { IsSeatOf queue.now seat.new }
{
    match word {
        Some(word) => {
            assert!(rt; seat.puts() < queue.shape().most_puts());
            Some(Answer::Put(queue.put(seat, &[word])))
        }
        None => {
            assert!(rt; seat.takes());
            Some(Answer::Take(queue.take(seat, &mut [0])))
        }
    }
}

#[test]
fn a_full_queue_is_emptied(rt: HostRuntime) -> Result<(), Fail> {
    let shape = Shape::new(2, 1, 1, 2)?;
    let (queue, mut seats) = SoleRail::make(rt.alloc(), shape)?;
    let (Some(mut producer), Some(mut consumer)) = (seats.pop(), seats.pop()) else {
        panic!(rt; "a queue of two seats has fewer");
    };
    assert!(rt; consumer.takes() && !producer.takes());
    let full = Some(Answer::Put(Put::Full {
        head: 3,
        consumed: cursor(2, 0),
    }));
    let (puts, takes) = (&mut producer, &mut consumer);
    assert_eq!(rt; answer_of(&rt, &queue, puts, Some(7)), put_ok(0));
    assert_eq!(rt; answer_of(&rt, &queue, puts, Some(8)), put_ok(1));
    assert_eq!(rt; answer_of(&rt, &queue, puts, Some(9)), full);
    assert_eq!(rt; answer_of(&rt, &queue, takes, None), take_ok(0));
    assert_eq!(rt; answer_of(&rt, &queue, puts, Some(9)), put_ok(2));
    assert_eq!(rt; answer_of(&rt, &queue, takes, None), take_ok(1));
    assert_eq!(rt; answer_of(&rt, &queue, takes, None), take_ok(2));
    assert_eq!(rt; answer_of(&rt, &queue, takes, None), empty(3));
    Ok(())
}
