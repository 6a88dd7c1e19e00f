//! Queues for many threads, by four of them.
ghost use Rattle.std.specs.Prelude.{◌≡◌, ℕ, ◌<◌, IsPermutation, length, map, slice_index_or};
ghost use Rattle.std.specs.List.{All};
ghost use Rattle.rail.specs.Outcome.{numbers_below};

use cursor_word::Shape;
use drop_rail::DropRail;
use rail::{Batch, Put, Rail, Take};
use retry_rail::RetryRail;
use std::alloc::{AllocError, Global};
use std::sync::atomic::{AtomicU64, Ordering};
use std::test::Fail;
use std::thread;
use std::thread::Threads;

// More puts of one seat than any test does, and as many places as there may be.
const MANY: u64 = 1000000;

const PLACES: u64 = 80000;

const THREADS: usize = 4;

// How many calls were done, found the queue full or empty, found it busy, and were overrun.
#[derive(Drop)]
struct Tally {
    done: AtomicU64,
    refused: AtomicU64,
    busy: AtomicU64,
    overrun: AtomicU64,
}

impl Tally {
    fn none() -> Tally {
        Tally {
            done: AtomicU64::new(0),
            refused: AtomicU64::new(0),
            busy: AtomicU64::new(0),
            overrun: AtomicU64::new(0),
        }
    }

    fn sum(&self) -> u64 {
        self.done
            .load(Ordering::SeqCst)
            .wrapping_add(self.refused.load(Ordering::SeqCst))
            .wrapping_add(self.busy.load(Ordering::SeqCst))
            .wrapping_add(self.overrun.load(Ordering::SeqCst))
    }
}

fn one_more(count: &AtomicU64) {
    count.fetch_add(1, Ordering::SeqCst);
}

// What was put and what was taken at each place: 0 where nothing was, else one more than a number
// for the entry. And how the calls were answered.
#[derive(Drop)]
struct Marks {
    put: Vec<AtomicU64>,
    taken: Vec<AtomicU64>,
    twice: AtomicU64,
    puts: Tally,
    takes: Tally,
}

fn zeros(alloc: Global, count: u64) -> Result<Vec<AtomicU64>, AllocError> {
    let mut all = Vec::new(alloc);
    for _index in 0..count {
        all.push(AtomicU64::new(0))?;
    }
    Ok(all)
}

impl Marks {
    fn note(&self, marks: &[AtomicU64], place: u64, words: [u64; 2]) {
        let number = words[0]
            .wrapping_mul(MANY)
            .wrapping_add(words[1])
            .wrapping_add(1);
        match marks.get(place as usize) {
            Some(mark) if mark.swap(number, Ordering::SeqCst) == 0 => {}
            _ => {
                self.twice.fetch_add(1, Ordering::SeqCst);
            }
        }
    }

    fn taken_at(&self, place: usize) -> u64 {
        match self.taken.get(place) {
            Some(mark) => mark.load(Ordering::SeqCst),
            None => 0,
        }
    }

    fn note_taken(&self, place: u64, words: [u64; 2]) {
        self.note(self.taken.as_slice(), place, words);
    }

    // Notes what is left as taken, and answers whether all of it lies at or above this place.
    fn note_left(&self, left: &Batch, from: u64) -> bool {
        let mut live = true;
        for item in left.as_slice() {
            live = live && item.place >= from;
            if let [first, second] = item.words.words() {
                self.note_taken(item.place, [*first, *second]);
            }
        }
        live
    }

    // Every try of every producer and taker was answered, and as this kind of queue answers.
    fn are_all<Q: Rail>(&self, case: &Case) -> bool {
        let (puts, takes) = (&self.puts, &self.takes);
        let never = if Q::DROPS {
            &puts.refused
        } else {
            &takes.overrun
        };
        puts.sum() == case.tries.wrapping_mul(case.producers)
            && takes.sum() == case.tries.wrapping_mul(case.takers)
            && never.load(Ordering::SeqCst) == 0
    }

    // Each place below `accepted` was put once, and taken at most once, with its words; no place from
    // `from` on is lost; and each seat's entries stand in its order.
    fn are_whole(&self, accepted: u64, from: u64) -> bool {
        let mut whole = self.twice.load(Ordering::SeqCst) == 0;
        let mut last = [0u64; 8];
        for place in 0..self.put.len() {
            let put = self.put[place].load(Ordering::SeqCst);
            let taken = self.taken_at(place);
            let lost = taken == 0 && (place as u64) < from;
            whole = whole && (put != 0) == ((place as u64) < accepted);
            whole = whole && (put == taken || lost);
            let seat = (put / MANY) as usize;
            if put != 0 && seat < 8 {
                whole = whole && last[seat] < put;
                last[seat] = put;
            }
        }
        whole
    }
}

#[derive(Clone, Copy)]
struct Case {
    blocks: u64,
    size: u64,
    seats: u64,
    producers: u64,
    takers: u64,
    tries: u64,
}

impl Case {
    // The first place of which nothing may be lost, where so many entries were accepted.
    fn kept_from<Q: Rail>(&self, accepted: u64) -> u64 {
        if !Q::DROPS {
            return 0;
        }
        let last = accepted.wrapping_add(self.size).saturating_sub(1);
        let opened = last.checked_div(self.size).unwrap_or(0);
        opened.saturating_sub(self.blocks).wrapping_mul(self.size)
    }
}

fn put_once<Q: Rail>(queue: &Q, seat: &mut Q::Seat, marks: &Marks, words: [u64; 2]) -> bool
    requires puts { Q.PutsInto queue.now seat.old }
    requires takes { Q.TakesFrom queue.now seat.old }
    requires width { (Q.shape_of queue.now).width ≡ 2 }
    ensures puts { Q.PutsInto queue.now seat.new }
    ensures takes { Q.TakesFrom queue.now seat.new }
    ensures number { Q.number_of seat.new ≡ Q.number_of seat.old }
{
    if Q::puts(seat) >= queue.shape().most_puts() {
        return false;
    }
    match queue.put(seat, words.as_slice()) {
        Put::Ok(place) => {
            marks.note(marks.put.as_slice(), place, words);
            one_more(&marks.puts.done);
            return true;
        }
        Put::Full { .. } => one_more(&marks.puts.refused),
        Put::Busy(_) => one_more(&marks.puts.busy),
    }
    false
}

fn take_once<Q: Rail>(queue: &Q, seat: &mut Q::Seat, marks: &Marks)
    requires puts { Q.PutsInto queue.now seat.old }
    requires takes { Q.TakesFrom queue.now seat.old }
    requires width { (Q.shape_of queue.now).width ≡ 2 }
    ensures puts { Q.PutsInto queue.now seat.new }
    ensures takes { Q.TakesFrom queue.now seat.new }
    ensures number { Q.number_of seat.new ≡ Q.number_of seat.old }
{
    let mut words = [0; 2];
    match queue.take(seat, words.as_mut_slice()) {
        Take::Ok(place) => {
            marks.note_taken(place, words);
            one_more(&marks.takes.done);
        }
        Take::Empty { .. } => one_more(&marks.takes.refused),
        Take::Busy(_) => one_more(&marks.takes.busy),
        Take::Overrun { .. } => one_more(&marks.takes.overrun),
    }
}

// Tries as often as the case says, each time a put and then a take, where this seat does the one and
// the other.
fn try_often<Q: Rail>(queue: &Q, seat: &mut Q::Seat, marks: &Marks, index: u64, case: &Case)
    requires puts { Q.PutsInto queue.now seat.old }
    requires takes { Q.TakesFrom queue.now seat.old }
    requires width { (Q.shape_of queue.now).width ≡ 2 }
    ensures puts { Q.PutsInto queue.now seat.new }
    ensures takes { Q.TakesFrom queue.now seat.new }
    ensures number { Q.number_of seat.new ≡ Q.number_of seat.old }
{
    let mut count = 0u64;
    for _turn in 0..case.tries {
        if index < case.producers && put_once(queue, seat, marks, [index, count]) {
            count = count.wrapping_add(1);
        }
        if case.seats.wrapping_sub(index) <= case.takers {
            take_once(queue, seat, marks);
        }
    }
}

fn run_each<R: Threads + Sync, Q: Rail>(
    rt: &R,
    queue: &Q,
    seats: &mut [Q::Seat],
    marks: &Marks,
    case: &Case,
)
    requires puts { All (Q.PutsInto queue.now) seats.old }
    requires takes { All (Q.TakesFrom queue.now) seats.old }
    requires width { (Q.shape_of queue.now).width ≡ 2 }
    ensures puts { All (Q.PutsInto queue.now) seats.new }
    ensures long { length seats.new ≡ length seats.old }
    ensures numbers { (at : ℕ) (other : Q.Seat) → at < length seats.old
        → Q.number_of (slice_index_or seats.new at other)
        ≡ Q.number_of (slice_index_or seats.old at other) }
{
    thread::for_each_mut(
        rt,
        seats,
        THREADS,
        &|index, seat: &mut Q::Seat|
            requires { Q.PutsInto queue.now seat.now × Q.TakesFrom queue.now seat.now
                × ((Q.shape_of queue.now).width ≡ 2) }
            ensures { Q.PutsInto queue.entry.now seat.exit.now
                × (Q.number_of seat.exit.now ≡ Q.number_of seat.entry.now) }
        { try_often(queue, seat, marks, index as u64, case) },
    );
}

fn run_all<R: Threads + Sync, Q: Rail>(
    rt: &R,
    queue: &Q,
    seats: &mut [Q::Seat],
    marks: &Marks,
    case: &Case,
)
    requires puts { All (Q.PutsInto queue.now) seats.old }
    requires takes { All (Q.TakesFrom queue.now) seats.old }
    requires width { (Q.shape_of queue.now).width ≡ 2 }
    ensures puts { All (Q.PutsInto queue.now) seats.new }
    ensures numbers { map Q.number_of seats.new ≡ map Q.number_of seats.old }
{
    run_each(rt, queue, seats, marks, case);
}

// The threads of a case run over a queue, which is closed then.
fn passes<R: Threads + Sync, Q: Rail>(
    rt: &R,
    alloc: Global,
    made: (Q, Vec<Q::Seat>),
    case: &Case,
) -> Result<bool, AllocError>
    requires puts { All (Q.PutsInto made.0) made.1.items }
    requires takes { All (Q.TakesFrom made.0) made.1.items }
    requires all { IsPermutation (map Q.number_of made.1.items)
        (numbers_below (Q.shape_of made.0).seats) }
    requires width { (Q.shape_of made.0).width ≡ 2 }
{
    let (queue, mut seats) = made;
    let marks = Marks {
        put: zeros(alloc, PLACES)?,
        taken: zeros(alloc, PLACES)?,
        twice: AtomicU64::new(0),
        puts: Tally::none(),
        takes: Tally::none(),
    };
    run_all(rt, &queue, seats.as_mut_slice(), &marks, case);
    if !marks.are_all::<Q>(case) {
        return Ok(false);
    }
    let Ok(done) = queue.close(alloc, seats) else {
        return Ok(false);
    };
    let accepted = Q::accepted(&done);
    let from = case.kept_from::<Q>(accepted);
    Ok(marks.note_left(Q::left(&done), from) && marks.are_whole(accepted, from))
}

const CASES: [Case; 3] = [
    Case {
        blocks: 2,
        size: 4,
        seats: 4,
        producers: 4,
        takers: 4,
        tries: 20000,
    },
    Case {
        blocks: 2,
        size: 4,
        seats: 4,
        producers: 1,
        takers: 3,
        tries: 20000,
    },
    Case {
        blocks: 3,
        size: 1,
        seats: 8,
        producers: 8,
        takers: 8,
        tries: 10000,
    },
];

#[test]
fn threads_lose_nothing_and_take_nothing_twice(rt: HostRuntime) -> Result<(), Fail> {
    for case in CASES {
        let shape = Shape::new(case.blocks, case.size, 2, case.seats)?;
        let made = RetryRail::make(rt.alloc(), shape)?;
        assert!(rt; passes(&rt, rt.alloc(), made, &case)?);
    }
    Ok(())
}

#[test]
fn threads_lose_only_what_was_overwritten(rt: HostRuntime) -> Result<(), Fail> {
    for case in CASES {
        let shape = Shape::new(case.blocks, case.size, 2, case.seats)?;
        let made = DropRail::make(rt.alloc(), shape)?;
        assert!(rt; passes(&rt, rt.alloc(), made, &case)?);
    }
    Ok(())
}
