//! Worked schedules.
use crate::bench::{Bench, cursor, empty, put, put_ok, take_ok};
use cursor_word::Shape;
use rail::{Put, Take, Why};
use sole_core::{Answer, Start};
use std::test::Fail;

// A seat's call, and its answer.
type Row = (u64, Start, Option<Answer>);

#[test]
fn a_full_queue_is_emptied(rt: HostRuntime) -> Result<(), Fail> {
    let shape = Shape::new(2, 1, 1, 2)?;
    let mut bench = Bench::new(rt.alloc(), shape)?;
    let full = Some(Answer::Put(Put::Full {
        head: 3,
        consumed: cursor(2, 0),
    }));
    let rows: [Row; 8] = [
        (1, put(&shape, 7), put_ok(0)),
        (1, put(&shape, 8), put_ok(1)),
        (1, put(&shape, 9), full),
        (0, Start::Take, take_ok(0)),
        (1, put(&shape, 9), put_ok(2)),
        (0, Start::Take, take_ok(1)),
        (0, Start::Take, take_ok(2)),
        (0, Start::Take, empty(3)),
    ];
    for (seat, start, answer) in rows {
        assert_eq!(rt; bench.call(&rt, seat, start)?, answer);
    }
    let words: [u64; 3] = [7, 8, 9];
    for (item, word) in bench.taken(&rt, 0).as_slice().iter().zip(words) {
        assert_eq!(rt; item.words.words().first(), Some(&word));
    }
    Ok(())
}

#[test]
fn a_put_stopped_before_its_commit(rt: HostRuntime) -> Result<(), Fail> {
    let shape = Shape::new(2, 2, 1, 3)?;
    let mut bench = Bench::new(rt.alloc(), shape)?;
    bench.event(&rt, 1, put(&shape, 7))?;
    bench.event(&rt, 1, Start::Go)?;
    bench.event(&rt, 1, Start::Go)?;
    assert_eq!(rt; bench.call(&rt, 2, put(&shape, 8))?, put_ok(1));
    let busy = Some(Answer::Take(Take::Busy(Why::Unfinished {
        block: 2,
        before: cursor(2, 1),
        after: cursor(2, 2),
    })));
    assert_eq!(rt; bench.call(&rt, 0, Start::Take)?, busy);
    bench.finish(&rt, 1)?;
    assert_eq!(rt; bench.answer(&rt, 1), put_ok(0));
    assert_eq!(rt; bench.call(&rt, 0, Start::Take)?, take_ok(0));
    assert_eq!(rt; bench.call(&rt, 0, Start::Take)?, take_ok(1));
    assert_eq!(rt; bench.call(&rt, 0, Start::Take)?, empty(2));
    Ok(())
}
