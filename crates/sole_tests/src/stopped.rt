//! Seats that stop in mid-call, and what the others are answered.
use crate::bench::{Bench, cursor, empty, put, put_ok, take_ok};
use cursor_word::Shape;
use rail::Put;
use sole_core::{Answer, Start};
use std::alloc::{AllocError, Global};
use std::process::Abort;
use std::test::Fail;

// Blocks of one entry; a call of this seat stops after so many steps.
fn stopped(
    rt: &impl Abort,
    alloc: Global,
    before: &[(u64, Start)],
    seat: u64,
    start: Start,
    steps: u64,
) -> Result<Bench, Fail> {
    let shape = Shape::new(2, 1, 1, 3)?;
    let mut bench = Bench::new(alloc, shape)?;
    for (other, start) in before {
        bench.call(rt, *other, *start)?;
    }
    bench.event(rt, seat, start)?;
    for _ in 1..steps {
        bench.event(rt, seat, Start::Go)?;
    }
    assert!(rt; bench.mid_call(rt, seat));
    Ok(bench)
}

// The answer of a seat that goes on.
fn ended(bench: &mut Bench, rt: &impl Abort, seat: u64) -> Result<Option<Answer>, AllocError> {
    bench.finish(rt, seat)?;
    Ok(bench.answer(rt, seat))
}

fn full(head: u64, block: u64) -> Option<Answer> {
    Some(Answer::Put(Put::Full {
        head,
        consumed: cursor(block, 0),
    }))
}

#[test]
fn a_put_stops(rt: HostRuntime) -> Result<(), Fail> {
    let entry = put(&Shape::new(2, 1, 1, 3)?, 7);
    for steps in 1..=4 {
        let mut bench = stopped(&rt, rt.alloc(), &[], 1, entry, steps)?;
        // from its third step on the put has drawn place 0
        let drawn = 3 <= steps;
        let place = if drawn { 1 } else { 0 };
        assert_eq!(rt; bench.call(&rt, 2, entry)?, put_ok(place));
        if drawn {
            assert_eq!(rt; bench.call(&rt, 2, entry)?, full(3, 2));
        }
        let taken = if drawn { empty(0) } else { take_ok(0) };
        assert_eq!(rt; bench.call(&rt, 0, Start::Take)?, taken);
        assert_eq!(rt; ended(&mut bench, &rt, 1)?, put_ok(1 - place));
    }
    Ok(())
}

#[test]
fn a_put_stops_while_it_opens_a_block(rt: HostRuntime) -> Result<(), Fail> {
    let entry = put(&Shape::new(2, 1, 1, 3)?, 7);
    for steps in 2..=6 {
        let mut bench = stopped(&rt, rt.alloc(), &[(2, entry)], 1, entry, steps)?;
        assert_eq!(rt; bench.call(&rt, 2, entry)?, put_ok(1));
        assert_eq!(rt; bench.call(&rt, 0, Start::Take)?, take_ok(0));
        assert_eq!(rt; bench.call(&rt, 2, entry)?, put_ok(2));
    }
    Ok(())
}

#[test]
fn a_take_stops(rt: HostRuntime) -> Result<(), Fail> {
    let entry = put(&Shape::new(2, 1, 1, 3)?, 7);
    for steps in 1..=2 {
        let mut bench = stopped(&rt, rt.alloc(), &[(1, entry)], 0, Start::Take, steps)?;
        assert_eq!(rt; bench.call(&rt, 1, entry)?, put_ok(1));
        assert_eq!(rt; bench.call(&rt, 1, entry)?, full(3, 2));
        assert_eq!(rt; ended(&mut bench, &rt, 0)?, take_ok(0));
        assert_eq!(rt; bench.call(&rt, 1, entry)?, put_ok(2));
    }
    Ok(())
}
