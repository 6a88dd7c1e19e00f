//! One caller stops in mid-call, the others go on, and it is ended later.
use super::bench::{after, overrun};
use crate::schedules::stopped::{Stop, first_steps, opening_put, plain_put};
use crate::schedules::{
    Part, X, Y, at, empty, ends, moved, put, put_busy, put_ok, take_busy, take_ok, unfinished,
    whole,
};
use drop_core::{Answer, Start};
use std::alloc::Global;
use std::process::Abort;
use std::test::Fail;

// The call stops, the other seat does its calls, and then the first is ended with this answer.
fn goes_on(
    rt: &impl Abort,
    alloc: Global,
    stop: &Stop,
    done: usize,
    others: &[Part],
    ended: Answer,
) -> Result<(), Fail> {
    let mut bench = after(rt, alloc, (2, 1, 1, 2), stop.before)?;
    bench.part(rt, &first_steps(stop, done))?;
    for part in others {
        bench.part(rt, part)?;
    }
    bench.finish(rt, X)?;
    assert!(rt; !bench.mid_call(rt, X));
    assert_eq!(rt; bench.answer(rt, X), Some(ended));
    bench.names_no_place_twice(rt);
    Ok(())
}

#[test]
fn a_put_stops(rt: HostRuntime) -> Result<(), Fail> {
    let stop = Stop {
        before: &[],
        start: put(7),
        found: &plain_put(),
        answer: put_ok(0),
    };
    let late = put_busy(moved((2, 1), (3, 1)));
    let writing = put_busy(unfinished(2, (3, 1), (2, 0)));
    // how many steps the put did, what the other's put, take and put are answered, and it itself
    let lines = [
        (1, put_ok(0), take_ok(0), put_ok(1), late),
        (2, put_ok(0), take_ok(0), put_ok(1), late),
        (3, put_ok(1), empty(0), writing, put_ok(0)),
        (4, put_ok(1), empty(0), writing, put_ok(0)),
        (5, put_ok(1), take_ok(0), put_ok(2), put_ok(0)),
    ];
    for (done, first, taken, second, ended) in lines {
        let others = [
            whole(Y, put(8), first),
            whole(Y, Start::Take, taken),
            whole(Y, put(9), second),
        ];
        goes_on(&rt, rt.alloc(), &stop, done, &others, ended)?;
    }
    Ok(())
}

#[test]
fn a_take_stops(rt: HostRuntime) -> Result<(), Fail> {
    let stop = Stop {
        before: &[whole(Y, put(7), put_ok(0))],
        start: Start::Take,
        found: &[2, at(2, 0), at(2, 1), at(2, 0), 7, at(2, 1)],
        answer: take_ok(0),
    };
    let reserved = take_busy(moved((2, 0), (2, 1)));
    // how many steps the take did, what the other's take is answered, and it itself; the other's
    // puts are accepted
    let lines = [
        (1, take_ok(0), take_ok(1)),
        (2, take_ok(0), take_ok(1)),
        (3, take_ok(0), reserved),
        (4, empty(1), overrun(0, (4, 1))),
        (5, empty(1), overrun(0, (4, 1))),
        (6, empty(1), take_ok(0)),
    ];
    for (done, taken, ended) in lines {
        let others = [
            whole(Y, Start::Take, taken),
            whole(Y, put(8), put_ok(1)),
            whole(Y, put(9), put_ok(2)),
        ];
        goes_on(&rt, rt.alloc(), &stop, done, &others, ended)?;
    }
    Ok(())
}

#[test]
fn a_put_stops_while_it_opens_a_block(rt: HostRuntime) -> Result<(), Fail> {
    let stop = Stop {
        before: &[whole(Y, put(7), put_ok(0))],
        start: put(8),
        found: &opening_put(),
        answer: put_ok(1),
    };
    for done in 2..7 {
        let others = [
            whole(Y, put(9), put_ok(1)),
            whole(Y, Start::Take, take_ok(0)),
            whole(Y, put(10), put_ok(2)),
        ];
        let late = put_busy(moved((2, 1), (4, 1)));
        goes_on(&rt, rt.alloc(), &stop, done, &others, late)?;
    }
    Ok(())
}

#[test]
fn a_take_stops_while_it_opens_a_block(rt: HostRuntime) -> Result<(), Fail> {
    let stop = Stop {
        before: &[
            whole(Y, put(7), put_ok(0)),
            whole(Y, put(8), put_ok(1)),
            whole(Y, Start::Take, take_ok(0)),
        ],
        start: Start::Take,
        found: &[
            2,
            at(2, 1),
            at(3, 1),
            3,
            at(1, 1),
            2,
            3,
            at(3, 0),
            at(3, 1),
            at(3, 0),
            8,
            at(3, 1),
        ],
        answer: take_ok(1),
    };
    for done in 3..7 {
        let others = [
            whole(Y, Start::Take, take_ok(1)),
            whole(Y, put(9), put_ok(2)),
        ];
        let late = take_busy(moved((2, 1), (3, 1)));
        goes_on(&rt, rt.alloc(), &stop, done, &others, late)?;
    }
    Ok(())
}

// The block that a take opens takes the place of the consumer head's own: until the head is raised
// other takes find that it was left behind.
#[test]
fn a_take_stops_while_it_jumps(rt: HostRuntime) -> Result<(), Fail> {
    let stop = Stop {
        before: &[
            whole(Y, put(7), put_ok(0)),
            whole(Y, put(8), put_ok(1)),
            whole(Y, put(9), put_ok(2)),
            whole(Y, put(10), put_ok(3)),
        ],
        start: Start::Take,
        found: &[
            2,
            at(2, 0),
            at(4, 1),
            5,
            at(2, 0),
            2,
            4,
            at(4, 0),
            at(4, 1),
            at(4, 0),
            9,
            at(4, 1),
        ],
        answer: take_ok(2),
    };
    let behind = take_busy(moved((2, 0), (4, 0)));
    let late = take_busy(moved((2, 0), (4, 1)));
    let reused = take_busy(moved((4, 0), (6, 1)));
    // how many steps the take did, what the other's take is answered, and it itself; the other's
    // put is accepted
    let lines = [
        (3, take_ok(2), take_ok(3)),
        (4, take_ok(2), late),
        (5, behind, reused),
        (6, take_ok(2), late),
    ];
    for (done, taken, ended) in lines {
        let others = [whole(Y, Start::Take, taken), whole(Y, put(11), put_ok(4))];
        goes_on(&rt, rt.alloc(), &stop, done, &others, ended)?;
    }
    Ok(())
}
