//! One caller stops in mid-call, the others go on, and it is ended later.
use super::{
    Part, X, Y, after, at, empty, ends, full, moved, put, put_busy, put_ok, steps, take_busy,
    take_ok, unfinished, whole,
};
use bbq_core::{Answer, Start};
use std::alloc::Global;
use std::process::Abort;
use std::test::Fail;

/// A call that will stop: what is done before it begins, what all its steps find, and its answer
/// where nobody else comes.
#[derive(Clone, Copy)]
pub struct Stop<'a> {
    pub before: &'a [Part<'a>],
    pub start: Start,
    pub found: &'a [u64],
    pub answer: Answer,
}

/// So many of its steps.
pub fn first_steps<'a>(stop: &Stop<'a>, done: usize) -> Part<'a> {
    let found = stop.found.get(..done).unwrap_or(&[]);
    if done < stop.found.len() {
        steps(X, stop.start, found)
    } else {
        ends(X, stop.start, found, stop.answer)
    }
}

/// A put that draws a place and ends.
pub fn plain_put() -> [u64; 5] {
    [2, at(2, 0), at(2, 0), 7, at(2, 0)]
}

/// A put that finds the first of two blocks filled, opens the second and ends.
pub fn opening_put() -> [u64; 11] {
    [
        2,
        at(2, 1),
        at(1, 1),
        at(1, 1),
        at(1, 1),
        2,
        3,
        at(3, 0),
        at(3, 0),
        8,
        at(3, 0),
    ]
}

// The call stops, the other seat does its calls, and then the first is ended with this answer.
fn goes_on(
    rt: &impl Abort,
    alloc: Global,
    stop: &Stop,
    done: usize,
    others: &[Part],
    ended: Answer,
) -> Result<(), Fail> {
    let mut bench = after(rt, alloc, (2, 1, 2), stop.before)?;
    bench.part(rt, &first_steps(stop, done))?;
    for part in others {
        bench.part(rt, part)?;
    }
    bench.finish(rt, X)?;
    assert!(rt; !bench.mid_call(rt, X));
    assert_eq!(rt; bench.answer(rt, X), Some(ended));
    bench.names_no_place_twice(rt);
    Ok(())
}

#[test]
fn a_put_stops(rt: HostRuntime) -> Result<(), Fail> {
    let stop = Stop {
        before: &[],
        start: put(7),
        found: &plain_put(),
        answer: put_ok(0),
    };
    let late = put_busy(moved((2, 1), (3, 1)));
    // how many steps the put did, what the other's put, take and put are answered, and it itself
    let lines = [
        (1, put_ok(0), take_ok(0), put_ok(1), late),
        (2, put_ok(0), take_ok(0), put_ok(1), late),
        (3, put_ok(1), empty(0), full(3, (2, 0)), put_ok(0)),
        (4, put_ok(1), empty(0), full(3, (2, 0)), put_ok(0)),
        (5, put_ok(1), take_ok(0), put_ok(2), put_ok(0)),
    ];
    for (done, first, taken, second, ended) in lines {
        let others = [
            whole(Y, put(8), first),
            whole(Y, Start::Take, taken),
            whole(Y, put(9), second),
        ];
        goes_on(&rt, rt.alloc(), &stop, done, &others, ended)?;
    }
    Ok(())
}

#[test]
fn a_take_stops(rt: HostRuntime) -> Result<(), Fail> {
    let stop = Stop {
        before: &[whole(Y, put(7), put_ok(0))],
        start: Start::Take,
        found: &[2, at(2, 0), at(2, 1), at(2, 0), 7, at(2, 0)],
        answer: take_ok(0),
    };
    let reading = put_busy(unfinished(2, (2, 0), (2, 1)));
    let reused = take_busy(moved((2, 0), (4, 1)));
    let reserved = take_busy(moved((2, 0), (2, 1)));
    // how many steps the take did, what the other's take and two puts are answered, and it itself
    let lines = [
        (1, take_ok(0), put_ok(1), put_ok(2), take_ok(1)),
        (2, take_ok(0), put_ok(1), put_ok(2), reused),
        (3, take_ok(0), put_ok(1), put_ok(2), reserved),
        (4, empty(1), put_ok(1), reading, take_ok(0)),
        (5, empty(1), put_ok(1), reading, take_ok(0)),
        (6, empty(1), put_ok(1), put_ok(2), take_ok(0)),
    ];
    for (done, taken, first, second, ended) in lines {
        let others = [
            whole(Y, Start::Take, taken),
            whole(Y, put(8), first),
            whole(Y, put(9), second),
        ];
        goes_on(&rt, rt.alloc(), &stop, done, &others, ended)?;
    }
    Ok(())
}

#[test]
fn a_put_stops_while_it_opens_a_block(rt: HostRuntime) -> Result<(), Fail> {
    let stop = Stop {
        before: &[whole(Y, put(7), put_ok(0))],
        start: put(8),
        found: &opening_put(),
        answer: put_ok(1),
    };
    for done in 2..7 {
        let others = [
            whole(Y, put(9), put_ok(1)),
            whole(Y, Start::Take, take_ok(0)),
            whole(Y, put(10), put_ok(2)),
        ];
        let late = put_busy(moved((2, 1), (4, 1)));
        goes_on(&rt, rt.alloc(), &stop, done, &others, late)?;
    }
    Ok(())
}

#[test]
fn a_take_stops_while_it_opens_a_block(rt: HostRuntime) -> Result<(), Fail> {
    let stop = Stop {
        before: &[
            whole(Y, put(7), put_ok(0)),
            whole(Y, put(8), put_ok(1)),
            whole(Y, Start::Take, take_ok(0)),
        ],
        start: Start::Take,
        found: &[
            2,
            at(2, 1),
            at(3, 1),
            at(1, 1),
            at(1, 1),
            2,
            3,
            at(3, 0),
            at(3, 1),
            at(3, 0),
            8,
            at(3, 0),
        ],
        answer: take_ok(1),
    };
    for done in 3..7 {
        let others = [
            whole(Y, Start::Take, take_ok(1)),
            whole(Y, put(9), put_ok(2)),
        ];
        let late = take_busy(moved((2, 1), (3, 1)));
        goes_on(&rt, rt.alloc(), &stop, done, &others, late)?;
    }
    Ok(())
}

#[test]
fn a_finished_seat_is_at_rest(rt: HostRuntime) -> Result<(), Fail> {
    let mut bench = after(&rt, rt.alloc(), (2, 1, 2), &[whole(X, put(7), put_ok(0))])?;
    bench.finish(&rt, X)?;
    bench.finish(&rt, Y)?;
    assert_eq!(rt; bench.answer(&rt, X), Some(put_ok(0)));
    assert_eq!(rt; bench.answer(&rt, Y), None);
    assert_eq!(rt; bench.trail(&rt, X), plain_put().as_slice());
    Ok(())
}
