//! Views among the steps of puts, each load an event of its own.
use cursor_word::{Cursor, Shape};
use flight_view::{Gap, View, ViewEvent, view_run};
use machine::{Event, Start};
use rail::Entry;
use std::process::Abort;
use std::test::Fail;

const X_GOES_ON: ViewEvent = ViewEvent::Step(Event {
    seat: 0,
    start: Start::Go,
});

const Y_GOES_ON: ViewEvent = ViewEvent::Step(Event {
    seat: 1,
    start: Start::Go,
});

const Y_VIEWS: ViewEvent = ViewEvent::View { seat: 1 };

// Where one put of the first block is under way, behind one that ended.
const STOPPED: Gap = Gap {
    block: 2,
    committed: Cursor {
        block: 2,
        offset: 1,
    },
    allocated: Cursor {
        block: 2,
        offset: 2,
    },
};

// The places of a view's items with their first words, and its gaps.
fn shows(rt: &impl Abort, view: &View, items: &[(u64, u64)], gaps: &[Gap]) {
    assert_eq!(rt; view.items.len(), items.len());
    for (index, expected) in items.iter().enumerate() {
        let found = view
            .items
            .get(index)
            .map(|item| (item.place, item.words.words().first().copied()));
        assert_eq!(rt; found, Some((expected.0, Some(expected.1))));
    }
    assert_eq!(rt; view.gaps.len(), gaps.len());
    for (index, expected) in gaps.iter().enumerate() {
        assert_eq!(rt; view.gaps.get(index), Some(expected));
    }
}

#[test]
fn a_view_beside_a_put_that_stopped(rt: HostRuntime) -> Result<(), Fail> {
    let shape = Shape::new(2, 2, 1, 2)?;
    let events = [
        ViewEvent::Step(Event {
            seat: 0,
            start: Start::Put(Entry::new(&[7])),
        }),
        X_GOES_ON,
        X_GOES_ON,
        ViewEvent::View { seat: 0 },
        ViewEvent::Step(Event {
            seat: 1,
            start: Start::Put(Entry::new(&[8])),
        }),
        Y_GOES_ON,
        Y_GOES_ON,
        Y_GOES_ON,
        Y_GOES_ON,
        Y_VIEWS,
        Y_VIEWS,
        ViewEvent::Step(Event {
            seat: 1,
            start: Start::Put(Entry::new(&[9])),
        }),
        Y_VIEWS,
        Y_VIEWS,
        Y_VIEWS,
    ];
    let state = view_run(rt.alloc(), shape, &events)?;
    assert!(rt; state.view(0).is_none());
    match state.view(1) {
        Some(view) => shows(&rt, view, &[], &[STOPPED]),
        None => panic!(&rt; "the view hasn't ended"),
    }
    assert_eq!(rt; state.queue().made(1).len(), 1);
    assert!(rt; state.queue().mid_call(0));
    Ok(())
}

#[test]
fn a_put_that_ends_between_two_loads(rt: HostRuntime) -> Result<(), Fail> {
    let shape = Shape::new(2, 2, 1, 2)?;
    let events = [
        ViewEvent::Step(Event {
            seat: 0,
            start: Start::Put(Entry::new(&[7])),
        }),
        X_GOES_ON,
        X_GOES_ON,
        X_GOES_ON,
        Y_VIEWS,
        Y_VIEWS,
        X_GOES_ON,
        Y_VIEWS,
        Y_VIEWS,
        Y_VIEWS,
        Y_VIEWS,
        Y_VIEWS,
    ];
    let state = view_run(rt.alloc(), shape, &events)?;
    match state.view(1) {
        Some(view) => shows(&rt, view, &[(0, 7)], &[]),
        None => panic!(&rt; "the view hasn't ended"),
    }
    Ok(())
}
