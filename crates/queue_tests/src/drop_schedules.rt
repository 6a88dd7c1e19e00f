//! Worked schedules of the queue that drops its oldest entries, each step with what it finds.
use crate::schedules::{
    X, Y, at, empty, ends, moved, put, put_busy, put_ok, steps, take_busy, take_ok, unfinished,
    whole,
};
use bench::{after, overrun};
use cursor_word::Shape;
use drop_core::{Answer, Event, Start, drop_run};
use rail::{Entry, Take};
use std::test::Fail;

mod bench;
mod random;
mod stopped;

// A put of an entry of six such words.
fn put_six(word: u64) -> Start {
    Start::Put(Entry::new(&[word; 6]))
}

#[test]
fn a_slow_take_is_overrun(rt: HostRuntime) -> Result<(), Fail> {
    let bench = after(
        &rt,
        rt.alloc(),
        (2, 1, 6, 2),
        &[
            whole(Y, put_six(1), put_ok(0)),
            steps(X, Start::Take, &[2, at(2, 0), at(2, 1), at(2, 0), 1]),
            whole(Y, put_six(2), put_ok(1)),
            whole(Y, put_six(3), put_ok(2)),
            whole(Y, put_six(4), put_ok(3)),
            ends(X, Start::Go, &[3, 3, 3, 3, 3, at(4, 1)], overrun(0, (4, 1))),
            ends(
                X,
                Start::Take,
                &[
                    2,
                    at(2, 1),
                    at(5, 1),
                    5,
                    at(2, 1),
                    2,
                    4,
                    at(4, 0),
                    at(4, 1),
                    at(4, 0),
                    3,
                    3,
                    3,
                    3,
                    3,
                    3,
                    at(4, 1),
                ],
                take_ok(2),
            ),
            ends(
                X,
                Start::Take,
                &[
                    4,
                    at(4, 1),
                    at(5, 1),
                    5,
                    at(1, 1),
                    4,
                    5,
                    at(5, 0),
                    at(5, 1),
                    at(5, 0),
                    4,
                    4,
                    4,
                    4,
                    4,
                    4,
                    at(5, 1),
                ],
                take_ok(3),
            ),
            ends(X, Start::Take, &[5, at(5, 1), at(4, 1)], empty(4)),
        ],
    )?;
    bench.has_words(&rt, &[(0, 5), (1, 5), (2, at(4, 1)), (6, at(5, 1))]);
    Ok(())
}

#[test]
fn a_put_stopped_before_its_commit(rt: HostRuntime) -> Result<(), Fail> {
    let bench = after(
        &rt,
        rt.alloc(),
        (2, 1, 1, 2),
        &[
            steps(X, put(7), &[2, at(2, 0), at(2, 0), 7]),
            ends(
                Y,
                put(8),
                &[
                    2,
                    at(2, 1),
                    at(1, 1),
                    at(1, 1),
                    at(1, 1),
                    2,
                    3,
                    at(3, 0),
                    at(3, 0),
                    8,
                    at(3, 0),
                ],
                put_ok(1),
            ),
            ends(
                Y,
                put(9),
                &[3, at(3, 1), at(2, 0)],
                put_busy(unfinished(2, (3, 1), (2, 0))),
            ),
            ends(Y, Start::Take, &[2, at(2, 0), at(2, 0)], empty(0)),
        ],
    )?;
    bench.has_words(&rt, &[(0, 3), (1, 2), (2, at(2, 1)), (3, at(2, 0))]);
    Ok(())
}

#[test]
fn four_puts_leave_the_last_two(rt: HostRuntime) -> Result<(), Fail> {
    let bench = after(
        &rt,
        rt.alloc(),
        (2, 1, 1, 1),
        &[
            whole(X, put(70), put_ok(0)),
            whole(X, put(71), put_ok(1)),
            whole(X, put(72), put_ok(2)),
            whole(X, put(73), put_ok(3)),
        ],
    )?;
    bench.has_words(
        &rt,
        &[
            (0, 5),
            (2, at(4, 1)),
            (3, at(4, 1)),
            (6, at(5, 1)),
            (7, at(5, 1)),
            (10, 72),
            (11, 73),
        ],
    );
    Ok(())
}

#[test]
fn alone_it_drops_the_oldest_block(rt: HostRuntime) -> Result<(), Fail> {
    after(
        &rt,
        rt.alloc(),
        (2, 2, 1, 1),
        &[
            whole(X, put(10), put_ok(0)),
            whole(X, put(11), put_ok(1)),
            whole(X, put(12), put_ok(2)),
            whole(X, put(13), put_ok(3)),
            whole(X, put(14), put_ok(4)),
            whole(X, put(15), put_ok(5)),
            whole(X, put(16), put_ok(6)),
            whole(X, Start::Take, take_ok(4)),
            whole(X, Start::Take, take_ok(5)),
            whole(X, Start::Take, take_ok(6)),
            whole(X, Start::Take, empty(7)),
        ],
    )?;
    Ok(())
}

#[test]
fn takes_find_unfinished_calls_and_moved_words(rt: HostRuntime) -> Result<(), Fail> {
    // a put stops before its commit
    after(
        &rt,
        rt.alloc(),
        (2, 2, 1, 2),
        &[
            steps(X, put(70), &[2, at(2, 0), at(2, 0)]),
            whole(Y, put(71), put_ok(1)),
            ends(
                Y,
                Start::Take,
                &[2, at(2, 0), at(2, 1), at(2, 2)],
                take_busy(unfinished(2, (2, 1), (2, 2))),
            ),
        ],
    )?;
    // two takes load the same reserved cursor
    after(
        &rt,
        rt.alloc(),
        (2, 2, 1, 2),
        &[
            whole(X, put(70), put_ok(0)),
            steps(X, Start::Take, &[2, at(2, 0), at(2, 1), at(2, 1)]),
            steps(Y, Start::Take, &[2, at(2, 0), at(2, 1), at(2, 1)]),
            ends(X, Start::Go, &[at(2, 0), 70, at(2, 1)], take_ok(0)),
            ends(Y, Start::Go, &[at(2, 1)], take_busy(moved((2, 0), (2, 1)))),
        ],
    )?;
    // a take loads the consumer head, and another moves on before it loads the reserved cursor
    after(
        &rt,
        rt.alloc(),
        (2, 1, 1, 2),
        &[
            whole(Y, put(70), put_ok(0)),
            whole(Y, put(71), put_ok(1)),
            whole(Y, put(72), put_ok(2)),
            steps(X, Start::Take, &[2]),
            whole(Y, Start::Take, take_ok(1)),
            whole(Y, Start::Take, take_ok(2)),
            ends(X, Start::Go, &[at(4, 1)], take_busy(moved((2, 0), (4, 1)))),
        ],
    )?;
    Ok(())
}

#[test]
fn a_schedule_runs_from_the_start(rt: HostRuntime) -> Result<(), Fail> {
    let shape = Shape::new(2, 1, 1, 2)?;
    let events = [
        Event {
            seat: 1,
            start: Start::Take,
        },
        Event {
            seat: 1,
            start: Start::Go,
        },
        Event {
            seat: 1,
            start: Start::Go,
        },
    ];
    let state = drop_run(rt.alloc(), shape, &events)?;
    assert_eq!(rt;
        state.answer(1).copied(),
        Some(Answer::Take(Take::Empty { place: 0 }))
    );
    assert_eq!(rt; state.answer(0), None);
    assert!(rt; !state.mid_call(1));
    assert_eq!(rt; state.taken(1).len(), 0);
    Ok(())
}
