//! Batches, and the queue that is a plain list.
use crate::{ListRail, pass_all};
use cursor_word::Shape;
use rail::{Batch, Entry, Placed, Rail};
use std::test::Fail;

#[test]
fn batches_keep_items_in_order(rt: HostRuntime) -> Result<(), Fail> {
    let mut batch = Batch::new(rt.alloc());
    for place in [7, 3, 5] {
        batch.reserve_one()?;
        batch.push(Placed {
            place,
            words: Entry::new(&[place, 2 * place]),
        });
    }
    let mut rest = Batch::with_room(rt.alloc(), 2)?;
    assert_eq!(rt; batch.len(), 3);
    rest.push_from(&batch, 1);
    assert_eq!(rt; rest.len(), 2);
    for (index, want) in [(0, Some([3, 6])), (1, Some([5, 10])), (2, None)] {
        let words = rest.get(index).map(|item| item.words);
        assert_eq!(rt; words.is_some(), want.is_some());
        if let (Some(words), Some(want)) = (words, want) {
            assert_eq!(rt; words.words(), want.as_slice());
        }
    }
    Ok(())
}

// What is read through the bound of a closed queue.
fn ended_counts<Q: Rail>(done: &Q::Done) -> (u64, usize) {
    (Q::accepted(done), Q::left(done).len())
}

#[test]
fn what_passes_is_what_was_put(rt: HostRuntime) -> Result<(), Fail> {
    let shape = Shape::new(2, 1, 1, 1)?;
    let _most = shape.most_puts();
    let (rail, seat) = ListRail::make(rt.alloc(), shape, 4)?;
    let entries = [Entry::new(&[7]), Entry::new(&[8]), Entry::new(&[9])];
    let passed = pass_all(rt.alloc(), rail, seat, &entries)?;
    assert_eq!(rt; passed.put.len(), 2);
    assert_eq!(rt; passed.taken.len(), 2);
    assert_eq!(rt; ended_counts::<ListRail>(&passed.done), (2, 0));
    Ok(())
}
