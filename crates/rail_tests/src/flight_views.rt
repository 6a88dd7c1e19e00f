//! Views of a queue, at rest and while others put.
ghost use Rattle.std.specs.Prelude.{◌≡◌, ◌<◌, length};
ghost use Rattle.std.specs.List.{All};
ghost use Rattle.call_steps.specs.Queue.{IsSeatOf};

use cursor_word::{Cursor, Shape};
use drop_rail::{DropRail, DropSeat};
use flight_view::{Gaps, View, flight_view};
use rail::{Batch, Put, Rail};
use std::alloc::{AllocError, Global};
use std::process::Abort;
use std::sync::atomic::{AtomicU64, Ordering};
use std::test::Fail;
use std::thread;
use std::thread::Threads;

const VIEWS: u64 = 1000;

const PRODUCERS: u64 = 4;

// Each producer tries to put so many entries.
const TRIES: u64 = 20000;

const PLACES: u64 = 80000;

const BLOCKS: u64 = 4;

const SIZE: u64 = 16;

// An entry of its number: each further word is told by the first.
fn entry_of(number: u64) -> [u64; 4] {
    [
        number,
        number.wrapping_mul(3),
        number.wrapping_mul(5),
        number.wrapping_mul(7),
    ]
}

// The number of an entry, where its words are one entry's.
fn number_of(words: &[u64]) -> Option<u64> {
    match words {
        [number, ..] if words == entry_of(*number).as_slice() => Some(*number),
        _ => None,
    }
}

// Puts one entry, and answers its place where it was accepted.
fn put_one(queue: &DropRail, seat: &mut DropSeat, number: u64) -> Option<u64>
    requires seat { IsSeatOf queue.now seat.old }
    requires width { queue.now.shape.width ≡ 4 }
    ensures seat { seat.new.of ≡ seat.old.of }
    ensures number { seat.new.number ≡ seat.old.number }
{
    if DropRail::puts(seat) >= queue.shape().most_puts() {
        return None;
    }
    let entry = entry_of(number);
    match queue.put(seat, entry.as_slice()) {
        Put::Ok(place) => Some(place),
        _ => None,
    }
}

// A view after so many puts of one seat shows exactly these places, each with its entry, and no gap.
fn shows_so(
    rt: &impl Abort,
    alloc: Global,
    queue: &DropRail,
    seat: &mut DropSeat,
    row: (u64, &[u64]),
) -> Result<(), Fail>
    requires seat { IsSeatOf queue.now seat.old }
    requires width { queue.now.shape.width ≡ 4 }
{
    let (puts, want) = row;
    for place in 0..puts {
        assert_eq!(rt; put_one(queue, seat, place), Some(place));
    }
    let view = flight_view(alloc, queue, seat)?;
    let mut found = Vec::new(alloc);
    for item in view.items.as_slice() {
        assert_eq!(rt; number_of(item.words.words()), Some(item.place));
        found.push(item.place)?;
    }
    assert_eq!(rt; found.as_slice(), want);
    assert_eq!(rt; view.gaps.len(), 0);
    assert!(rt; view.gaps.get(0).is_none());
    Ok(())
}

#[test]
fn a_view_at_rest_shows_the_newest_blocks(rt: HostRuntime) -> Result<(), Fail> {
    let rows: [(u64, &[u64]); 5] = [
        (0, &[]),
        (3, &[0, 1, 2]),
        (4, &[0, 1, 2, 3]),
        (6, &[2, 3, 4, 5]),
        (7, &[4, 5, 6]),
    ];
    for row in rows {
        let (queue, mut seats) = DropRail::make(rt.alloc(), Shape::new(2, 2, 4, 1)?)?;
        let Some(mut seat) = seats.pop() else {
            panic!(rt; "a queue has no seat");
        };
        shows_so(&rt, rt.alloc(), &queue, &mut seat, row)?;
    }
    Ok(())
}

// What was put and what was viewed at each place: 0 where nothing was, else one more than the
// entry's number. And what was wrong.
#[derive(Drop)]
struct Sightings {
    put: Vec<AtomicU64>,
    viewed: Vec<AtomicU64>,
    begun: AtomicU64,
    views: AtomicU64,
    wrong: AtomicU64,
}

fn zeros(alloc: Global) -> Result<Vec<AtomicU64>, AllocError> {
    let mut all = Vec::new(alloc);
    for _index in 0..PLACES {
        all.push(AtomicU64::new(0))?;
    }
    Ok(all)
}

fn mark_at(marks: &[AtomicU64], place: u64) -> u64 {
    match marks.get(place as usize) {
        Some(mark) => mark.load(Ordering::SeqCst),
        None => 0,
    }
}

// Marks a place with a number, where it has none or the same.
fn has_marked(marks: &[AtomicU64], place: u64, number: u64) -> bool {
    let mark = number.wrapping_add(1);
    match marks.get(place as usize) {
        Some(old) => {
            let before = old.swap(mark, Ordering::SeqCst);
            before == 0 || before == mark
        }
        None => false,
    }
}

impl Sightings {
    fn fails_unless(&self, holds: bool) {
        if !holds {
            self.wrong.fetch_add(1, Ordering::SeqCst);
        }
    }

    // The places that are known to be accepted, of the last that may be allocated.
    fn known(&self, alloc: Global) -> Result<Vec<u64>, AllocError> {
        let end = self.begun.load(Ordering::SeqCst);
        let mut known = Vec::new(alloc);
        for place in end.saturating_sub((BLOCKS - 1) * SIZE)..end {
            if mark_at(self.put.as_slice(), place) != 0 {
                known.push(place)?;
            }
        }
        Ok(known)
    }

    // Each item is whole, places rise, and a place always has the same entry.
    fn note_items(&self, items: &Batch) {
        let mut next = 0;
        for item in items.as_slice() {
            self.fails_unless(next <= item.place);
            next = item.place.wrapping_add(1);
            match number_of(item.words.words()) {
                Some(number) => {
                    let same = has_marked(self.viewed.as_slice(), item.place, number);
                    self.fails_unless(same);
                }
                None => self.fails_unless(false),
            }
        }
    }

    // What was known and is among the last places still is in the view, or its block in the gaps.
    fn note_known(&self, shape: &Shape, known: &[u64], view: &View) {
        let end = self.begun.load(Ordering::SeqCst);
        for place in known {
            let late = *place >= end.saturating_sub((BLOCKS - 1) * SIZE);
            let there = view
                .items
                .as_slice()
                .iter()
                .any(|item| item.place == *place);
            self.fails_unless(!late || there || is_in_gap(shape, &view.gaps, *place));
        }
    }

    // Each place that was viewed has the entry that was put there.
    fn are_accepted(&self) -> bool {
        let mut accepted = true;
        for place in 0..PLACES {
            let viewed = mark_at(self.viewed.as_slice(), place);
            accepted = accepted && (viewed == 0 || viewed == mark_at(self.put.as_slice(), place));
        }
        accepted
    }
}

// The block of a place is among the gaps.
fn is_in_gap(shape: &Shape, gaps: &Gaps, place: u64) -> bool {
    let size = shape.size();
    let block = (place / size).saturating_add(shape.blocks());
    for index in 0..gaps.len() {
        if let Some(gap) = gaps.get(index)
            && gap.block == block
        {
            return true;
        }
    }
    false
}

fn put_often(queue: &DropRail, seat: &mut DropSeat, sightings: &Sightings, index: u64)
    requires seat { IsSeatOf queue.now seat.old }
    requires width { queue.now.shape.width ≡ 4 }
    ensures seat { seat.new.of ≡ seat.old.of }
    ensures number { seat.new.number ≡ seat.old.number }
{
    for turn in 0..TRIES {
        let number = index.wrapping_mul(TRIES).wrapping_add(turn);
        sightings.begun.fetch_add(1, Ordering::SeqCst);
        if let Some(place) = put_one(queue, seat, number) {
            let first = has_marked(sightings.put.as_slice(), place, number);
            sightings.fails_unless(first);
        }
    }
}

// One view, beside what was known before it.
fn view_once(
    alloc: Global,
    queue: &DropRail,
    seat: &mut DropSeat,
    sightings: &Sightings,
) -> Result<(), AllocError>
    requires seat { IsSeatOf queue.now seat.old }
    ensures seat { seat.new.of ≡ seat.old.of }
    ensures number { seat.new.number ≡ seat.old.number }
{
    let known = sightings.known(alloc)?;
    let view = flight_view(alloc, queue, seat)?;
    sightings.note_items(&view.items);
    sightings.note_known(&queue.shape(), known.as_slice(), &view);
    Ok(())
}

fn view_often(alloc: Global, queue: &DropRail, seat: &mut DropSeat, sightings: &Sightings)
    requires seat { IsSeatOf queue.now seat.old }
    ensures seat { seat.new.of ≡ seat.old.of }
    ensures number { seat.new.number ≡ seat.old.number }
{
    for _view in 0..VIEWS {
        match view_once(alloc, queue, seat, sightings) {
            Ok(()) => {
                sightings.views.fetch_add(1, Ordering::SeqCst);
            }
            Err(_) => sightings.fails_unless(false),
        }
    }
}

fn run_each<R: Threads + Sync>(
    rt: &R,
    alloc: Global,
    queue: &DropRail,
    seats: &mut [DropSeat],
    sightings: &Sightings,
)
    requires seats { All (IsSeatOf queue.now) seats.old }
    requires width { queue.now.shape.width ≡ 4 }
    ensures seats { All (IsSeatOf queue.now) seats.new }
    ensures long { length seats.new ≡ length seats.old }
{
    thread::for_each_mut(
        rt,
        seats,
        PRODUCERS as usize + 1,
        &|index, seat: &mut DropSeat|
            requires { IsSeatOf queue.now seat.now × (queue.now.shape.width ≡ 4) }
            ensures { IsSeatOf queue.entry.now seat.exit.now }
        {
            if (index as u64) < PRODUCERS {
                put_often(queue, seat, sightings, index as u64)
            } else {
                view_often(alloc, queue, seat, sightings)
            }
        },
    );
}

#[test]
fn views_beside_four_producers_are_whole(rt: HostRuntime) -> Result<(), Fail> {
    let alloc = rt.alloc();
    let shape = Shape::new(BLOCKS, SIZE, 4, PRODUCERS + 1)?;
    let (queue, mut seats) = DropRail::make(alloc, shape)?;
    let sightings = Sightings {
        put: zeros(alloc)?,
        viewed: zeros(alloc)?,
        begun: AtomicU64::new(0),
        views: AtomicU64::new(0),
        wrong: AtomicU64::new(0),
    };
    run_each(&rt, alloc, &queue, seats.as_mut_slice(), &sightings);
    let Some(mut seat) = seats.pop() else {
        panic!(rt; "a queue has no seat");
    };
    view_once(alloc, &queue, &mut seat, &sightings)?;
    assert_eq!(rt; sightings.views.load(Ordering::SeqCst), VIEWS);
    assert_eq!(rt; sightings.wrong.load(Ordering::SeqCst), 0);
    assert!(rt; sightings.are_accepted());
    Ok(())
}
