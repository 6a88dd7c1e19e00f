//! The queue for one seat that drops its oldest entries, beside a plain list.
ghost use Rattle.std.specs.Prelude.{◌≡◌, ◌≤◌};

use super::is_put;
use crate::calls::{call_of, ended};
use cursor_word::Shape;
use rail::{Answer, Put, Rail, Take};
use solo_rail::SoloDrop;
use std::alloc::{AllocError, Global};
use std::process::Abort;
use std::test::Fail;

// So many puts, then a take if there is one, and what is left.
fn left_after(
    rt: &impl Abort,
    alloc: Global,
    puts: u64,
    take: Option<Take>,
) -> Result<Vec<(u64, u64)>, Fail>
    requires { puts ≤ 100 }
{
    let (rail, mut seat) = SoloDrop::make(alloc, Shape::new(2, 2, 1, 1)?)?;
    for place in 0..puts {
        let answer = call_of(&rail, &mut seat, Some(10 + place)).0;
        assert_eq!(rt; answer, Answer::Put(Put::Ok(place)));
    }
    if let Some(want) = take {
        assert_eq!(rt; call_of(&rail, &mut seat, None).0, Answer::Take(want));
    }
    assert_eq!(rt; SoloDrop::puts(&seat), puts);
    let (accepted, left) = ended(alloc, rail, seat)?;
    assert_eq!(rt; accepted, puts);
    Ok(left)
}

#[test]
fn puts_drop_the_oldest_block(rt: HostRuntime) -> Result<(), Fail> {
    let all = [(2, 12), (3, 13), (4, 14), (5, 15), (6, 16)];
    for (puts, take, want) in [
        (6, None, &all[..4]),
        (7, None, &all[2..]),
        (7, Some(Take::Ok(4)), &all[3..]),
    ] {
        let left = left_after(&rt, rt.alloc(), puts, take)?;
        assert_eq!(rt; left.as_slice(), want);
    }
    Ok(())
}

// The entries that still stand, each with its place, and how many were accepted.
#[derive(Drop)]
struct Standing {
    items: Vec<(u64, u64)>,
    accepted: u64,
}

impl Standing {
    // The block of the newest entry, and as many before it as there are blocks but one, stand.
    fn put(&mut self, shape: &Shape, word: u64) -> Result<Answer, AllocError> {
        let place = self.accepted;
        let size = shape.size();
        let oldest = (place / size).saturating_sub(shape.blocks() - 1);
        let first = oldest.saturating_mul(size);
        self.items.retain(|item| item.0 >= first);
        self.items.push((place, word))?;
        self.accepted = place.wrapping_add(1);
        Ok(Answer::Put(Put::Ok(place)))
    }

    fn take(&mut self) -> (Answer, u64) {
        if self.items.is_empty() {
            let place = self.accepted;
            return (Answer::Take(Take::Empty { place }), 0);
        }
        let (place, word) = self.items.remove(0);
        (Answer::Take(Take::Ok(place)), word)
    }
}

fn answers_as_a_list(rt: &impl Abort, alloc: Global, shape: Shape) -> Result<(), Fail>
    requires { shape.seats ≡ 1 }
{
    let (rail, mut seat) = SoloDrop::make(alloc, shape)?;
    let mut list = Standing {
        items: Vec::new(alloc),
        accepted: 0,
    };
    for step in 0..118 {
        let word = is_put(step).then_some(step);
        let (answer, words) = call_of(&rail, &mut seat, word);
        let (want, first) = match word {
            Some(word) => (list.put(&shape, word)?, word),
            None => list.take(),
        };
        assert_eq!(rt; answer, want, "step {step}");
        assert_eq!(rt; words, [first, 1, 2, 3, 4, 5, 6, 7], "step {step}");
    }
    let (accepted, left) = ended(alloc, rail, seat)?;
    assert_eq!(rt; accepted, list.accepted);
    assert_eq!(rt; left.as_slice(), list.items.as_slice());
    Ok(())
}

#[test]
fn each_small_shape_drops_as_a_list(rt: HostRuntime) -> Result<(), Fail> {
    for blocks in 2..4 {
        for size in 1..4 {
            for width in 1..4 {
                answers_as_a_list(&rt, rt.alloc(), Shape::new(blocks, size, width, 1)?)?;
            }
        }
    }
    Ok(())
}
