//! The queue for one seat, beside a plain list.
ghost use Rattle.std.specs.Prelude.{◌≡◌};

use crate::ListRail;
use crate::calls::{call_of, ended};
use cursor_word::{Cursor, Shape};
use rail::{Answer, Put, Rail, Take};
use solo_rail::SoloRetry;
use std::alloc::Global;
use std::process::Abort;
use std::test::Fail;

mod dropping;

#[test]
fn one_seat_fills_the_queue_and_closes_it(rt: HostRuntime) -> Result<(), Fail> {
    let shape = Shape::new(2, 2, 1, 1)?;
    let (rail, mut seat) = SoloRetry::make(rt.alloc(), shape)?;
    let full = |offset: u64| Put::Full {
        head: 3,
        consumed: Cursor { block: 2, offset },
    };
    for (word, want) in [
        (Some(10), Answer::Put(Put::Ok(0))),
        (Some(11), Answer::Put(Put::Ok(1))),
        (Some(12), Answer::Put(Put::Ok(2))),
        (Some(13), Answer::Put(Put::Ok(3))),
        (Some(14), Answer::Put(full(0))),
        (None, Answer::Take(Take::Ok(0))),
        (Some(14), Answer::Put(full(1))),
        (None, Answer::Take(Take::Ok(1))),
        (Some(14), Answer::Put(Put::Ok(4))),
    ] {
        assert_eq!(rt; call_of(&rail, &mut seat, word).0, want);
    }
    assert_eq!(rt; SoloRetry::puts(&seat), 5);
    let (accepted, left) = ended(rt.alloc(), rail, seat)?;
    assert_eq!(rt; accepted, 5);
    assert_eq!(rt; left.as_slice(), [(2, 12), (3, 13), (4, 14)].as_slice());
    Ok(())
}

#[test]
fn takes_end_at_the_next_place(rt: HostRuntime) -> Result<(), Fail> {
    let shape = Shape::new(2, 2, 1, 1)?;
    let (rail, mut seat) = SoloRetry::make(rt.alloc(), shape)?;
    for (word, want) in [
        (None, Answer::Take(Take::Empty { place: 0 })),
        (Some(10), Answer::Put(Put::Ok(0))),
        (Some(11), Answer::Put(Put::Ok(1))),
        (Some(12), Answer::Put(Put::Ok(2))),
        (None, Answer::Take(Take::Ok(0))),
        (None, Answer::Take(Take::Ok(1))),
        (None, Answer::Take(Take::Ok(2))),
        (None, Answer::Take(Take::Empty { place: 3 })),
    ] {
        assert_eq!(rt; call_of(&rail, &mut seat, word).0, want);
    }
    Ok(())
}

// A plain list knows of no cursor.
fn without_cursor(answer: Answer) -> Answer {
    match answer {
        Answer::Put(Put::Full { head, .. }) => Answer::Put(Put::Full {
            head,
            consumed: Cursor {
                block: 0,
                offset: 0,
            },
        }),
        other => other,
    }
}

// Three puts and two takes again and again, until the queue was full, then two puts and three takes,
// until it was empty.
fn is_put(step: u64) -> bool {
    step % 5 + step / 60 < 3
}

fn answers_as_a_list(rt: &impl Abort, alloc: Global, shape: Shape) -> Result<(), Fail>
    requires { shape.seats ≡ 1 }
{
    let (rail, mut seat) = SoloRetry::make(alloc, shape)?;
    let (list, mut list_seat) = ListRail::make(alloc, shape, 120)?;
    for step in 0..118 {
        let word = is_put(step).then_some(step);
        let (answer, words) = call_of(&rail, &mut seat, word);
        let (want, want_words) = call_of(&list, &mut list_seat, word);
        assert_eq!(rt; without_cursor(answer), without_cursor(want), "step {step}");
        assert_eq!(rt; words, want_words, "step {step}");
    }
    let (accepted, left) = ended(alloc, rail, seat)?;
    let (want, want_left) = ended(alloc, list, list_seat)?;
    assert_eq!(rt; accepted, want);
    assert_eq!(rt; left.as_slice(), want_left.as_slice());
    Ok(())
}

#[test]
fn each_small_shape_answers_as_a_list(rt: HostRuntime) -> Result<(), Fail> {
    for blocks in 2..4 {
        for size in 1..4 {
            for width in 1..4 {
                answers_as_a_list(&rt, rt.alloc(), Shape::new(blocks, size, width, 1)?)?;
            }
        }
    }
    Ok(())
}
