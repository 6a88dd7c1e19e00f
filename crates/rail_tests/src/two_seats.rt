//! Queues of two seats, of which one does all calls.
ghost use Rattle.std.specs.Prelude.{◌≡◌, ◌<◌, IsPermutation, length, map};
ghost use Rattle.std.specs.List.{All};
ghost use Rattle.rail.specs.Outcome.{numbers_below};

use crate::calls::{call_of, left_of};
use cursor_word::{Cursor, Shape};
use drop_rail::DropRail;
use rail::{Answer, Put, Rail, Take};
use retry_rail::RetryRail;
use std::alloc::Global;
use std::process::Abort;
use std::test::Fail;

// A put of a word or a take, with its answer.
type Call = (Option<u64>, Answer);

// What the closed queue had: how many entries were accepted, and the places that are left, with
// their words.
type Had<'a> = (u64, &'a [(u64, u64)]);

// One call of the first seat.
fn answer_of<Q: Rail>(
    rt: &impl Abort,
    queue: &Q,
    seats: &mut [Q::Seat],
    word: Option<u64>,
) -> Answer
    requires some { 0 < length seats.old }
    requires puts { All (Q.PutsInto queue.now) seats.old }
    requires takes { All (Q.TakesFrom queue.now) seats.old }
    ensures puts { All (Q.PutsInto queue.now) seats.new }
    ensures takes { All (Q.TakesFrom queue.now) seats.new }
    ensures numbers { map Q.number_of seats.new ≡ map Q.number_of seats.old }
{
    let seat = &mut seats[0];
    assert!(rt; Q::puts(seat) < 1000);
    call_of(queue, seat, word).0
}

// The first seat does these calls, and the queue is closed.
fn answers_so<Q: Rail>(
    rt: &impl Abort,
    alloc: Global,
    made: (Q, Vec<Q::Seat>),
    calls: &[Call],
    had: Had,
) -> Result<(), Fail>
    requires some { 0 < length made.1.items }
    requires puts { All (Q.PutsInto made.0) made.1.items }
    requires takes { All (Q.TakesFrom made.0) made.1.items }
    requires all { IsPermutation (map Q.number_of made.1.items)
        (numbers_below (Q.shape_of made.0).seats) }
{
    let (queue, mut seats) = made;
    for (word, want) in calls {
        assert_eq!(rt; answer_of(rt, &queue, seats.as_mut_slice(), *word), *want);
    }
    let Ok(done) = queue.close(alloc, seats) else {
        panic!(rt; "the queue wasn't closed");
    };
    let (accepted, left) = had;
    assert_eq!(rt; Q::accepted(&done), accepted);
    let found = left_of::<Q>(alloc, &done)?;
    assert_eq!(rt; found.as_slice(), left);
    Ok(())
}

fn full(head: u64, block: u64, offset: u64) -> Answer {
    Answer::Put(Put::Full {
        head,
        consumed: Cursor { block, offset },
    })
}

#[test]
fn one_of_two_seats_fills_the_queue_and_closes_it(rt: HostRuntime) -> Result<(), Fail> {
    let made = RetryRail::make(rt.alloc(), Shape::new(2, 2, 1, 2)?)?;
    let calls = [
        (Some(10), Answer::Put(Put::Ok(0))),
        (Some(11), Answer::Put(Put::Ok(1))),
        (Some(12), Answer::Put(Put::Ok(2))),
        (Some(13), Answer::Put(Put::Ok(3))),
        (Some(14), full(3, 2, 0)),
        (None, Answer::Take(Take::Ok(0))),
        (Some(14), full(3, 2, 1)),
        (None, Answer::Take(Take::Ok(1))),
        (Some(14), Answer::Put(Put::Ok(4))),
    ];
    let left = [(2, 12), (3, 13), (4, 14)];
    answers_so(&rt, rt.alloc(), made, &calls, (5, &left))
}

#[test]
fn takes_of_one_of_two_seats_end_at_the_next_place(rt: HostRuntime) -> Result<(), Fail> {
    let calls = [
        (None, Answer::Take(Take::Empty { place: 0 })),
        (Some(10), Answer::Put(Put::Ok(0))),
        (Some(11), Answer::Put(Put::Ok(1))),
        (Some(12), Answer::Put(Put::Ok(2))),
        (None, Answer::Take(Take::Ok(0))),
        (None, Answer::Take(Take::Ok(1))),
        (None, Answer::Take(Take::Ok(2))),
        (None, Answer::Take(Take::Empty { place: 3 })),
    ];
    let shape = Shape::new(2, 2, 1, 2)?;
    let retry = RetryRail::make(rt.alloc(), shape)?;
    answers_so(&rt, rt.alloc(), retry, &calls, (3, &[]))?;
    let drop = DropRail::make(rt.alloc(), shape)?;
    answers_so(&rt, rt.alloc(), drop, &calls, (3, &[]))
}

// The word that is put at a place.
fn word_at(place: u64) -> u64 {
    place.wrapping_add(10)
}

#[test]
fn one_of_two_seats_overwrites_the_oldest_block(rt: HostRuntime) -> Result<(), Fail> {
    // the size of a block, how many entries are put, and the places that are taken and left then
    let rows: [(u64, u64, &[u64], &[u64]); 5] = [
        (2, 6, &[], &[2, 3, 4, 5]),
        (2, 7, &[], &[4, 5, 6]),
        (2, 7, &[4], &[5, 6]),
        (2, 7, &[4, 5, 6], &[]),
        (1, 4, &[], &[2, 3]),
    ];
    let alloc = rt.alloc();
    for (size, puts, taken, left) in rows {
        let mut calls = Vec::new(alloc);
        for place in 0..puts {
            calls.push((Some(word_at(place)), Answer::Put(Put::Ok(place))))?;
        }
        for place in taken {
            calls.push((None, Answer::Take(Take::Ok(*place))))?;
        }
        let mut had = Vec::new(alloc);
        for place in left {
            had.push((*place, word_at(*place)))?;
        }
        let made = DropRail::make(alloc, Shape::new(2, size, 1, 2)?)?;
        answers_so(&rt, alloc, made, calls.as_slice(), (puts, had.as_slice()))?;
    }
    Ok(())
}
