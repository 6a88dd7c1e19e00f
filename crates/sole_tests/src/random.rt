//! Pseudo-random schedules beside a plain list.
use crate::bench::{Bench, empty, put};
use cursor_word::Shape;
use rail::{Put, Take, Why};
use sole_core::{Answer, Start};
use std::alloc::{AllocError, Global};
use std::process::Abort;
use std::test::Fail;

// A queue on the bench beside a plain list of the words at each place.
#[derive(Drop)]
struct Pair {
    bench: Bench,
    // the word that each seat is about to put
    in_hand: Vec<u64>,
    plain: Vec<Option<u64>>,
    given: u64,
    random: u64,
    met: Met,
}

// How often each kind of answer was met.
#[derive(Clone, Copy, Default)]
struct Met {
    full: u64,
    put_busy: u64,
    empty: u64,
    take_busy: u64,
}

impl Met {
    fn meet(&mut self, answer: &Answer) {
        let count = match answer {
            Answer::Put(Put::Full { .. }) => &mut self.full,
            Answer::Put(Put::Busy(_)) => &mut self.put_busy,
            Answer::Take(Take::Empty { .. }) => &mut self.empty,
            Answer::Take(Take::Busy(_)) => &mut self.take_busy,
            _ => return,
        };
        *count = count.wrapping_add(1);
    }
}

impl Pair {
    fn new(alloc: Global, shape: Shape, seed: u64) -> Result<Pair, AllocError> {
        let mut in_hand = Vec::new(alloc);
        for _ in 0..shape.seats() {
            in_hand.push(0)?;
        }
        let mut plain = Vec::new(alloc);
        for _ in 0..200 {
            plain.push(None)?;
        }
        Ok(Pair {
            bench: Bench::new(alloc, shape)?,
            in_hand,
            plain,
            given: 0,
            random: seed,
            met: Met::default(),
        })
    }

    // The next pseudo-random number below a bound.
    fn next(&mut self, bound: u64) -> u64 {
        self.random = self
            .random
            .wrapping_mul(6364136223846793005)
            .wrapping_add(1442695040888963407);
        (self.random >> 33).checked_rem(bound).unwrap_or(0)
    }

    // One event of a seat, and what its answer says of the plain list.
    fn event(&mut self, rt: &impl Abort, seat: u64, start: Start) -> Result<(), AllocError> {
        let goes = !matches!(start, Start::Go);
        let was = self.bench.mid_call(rt, seat);
        self.bench.event(rt, seat, start)?;
        if (was || goes) && !self.bench.mid_call(rt, seat) {
            if let Some(answer) = self.bench.answer(rt, seat) {
                self.ended(rt, seat, &answer);
            }
        }
        Ok(())
    }

    fn ended(&mut self, rt: &impl Abort, seat: u64, answer: &Answer) {
        self.met.meet(answer);
        match answer {
            Answer::Put(Put::Ok(place)) => self.accept(rt, seat, *place),
            Answer::Put(_) => {}
            Answer::Take(Take::Ok(place)) => {
                let most = self.bench.shape.width().wrapping_add(3);
                assert!(rt; self.bench.steps(rt, seat) as u64 <= most);
                self.give(rt, *place);
            }
            Answer::Take(Take::Empty { place }) => {
                assert_eq!(rt; self.bench.steps(rt, seat), 1);
                assert_eq!(rt; *place, self.given);
            }
            Answer::Take(Take::Busy(Why::Unfinished { .. })) => {}
            Answer::Take(_) => assert!(rt; false, "no take of this queue answers so"),
        }
    }

    // An accepted entry goes to its place, which is open.
    fn accept(&mut self, rt: &impl Abort, seat: u64, place: u64) {
        let word = self.in_hand.get(seat as usize).copied();
        match (self.plain.get_mut(place as usize), word) {
            (Some(slot), Some(word)) => {
                assert!(rt; slot.is_none(), "place {place} is made twice");
                *slot = Some(word);
            }
            _ => assert!(rt; false, "place {place} is beyond the list"),
        }
    }

    // A taken entry is the one at the next place.
    fn give(&mut self, rt: &impl Abort, place: u64) {
        assert_eq!(rt; place, self.given);
        self.given = place.wrapping_add(1);
        let items = self.bench.taken(rt, 0);
        match (self.plain.get(place as usize), items.get(place as usize)) {
            (Some(Some(word)), Some(item)) => {
                assert_eq!(rt; item.place, place);
                let whole = item.words.words().iter().all(|other| *other == *word);
                assert!(rt; whole, "place {place} gives other words");
            }
            _ => assert!(rt; false, "place {place} was not put"),
        }
    }

    // What a seat at rest begins: the first seat takes half of its turns.
    fn start(&mut self, seat: u64, word: u64) -> Start {
        if seat == 0 && self.next(4) != 0 {
            return Start::Take;
        }
        if let Some(in_hand) = self.in_hand.get_mut(seat as usize) {
            *in_hand = word;
        }
        put(&self.bench.shape, word)
    }

    // The rest of a seat's call.
    fn finish(&mut self, rt: &impl Abort, seat: u64) -> Result<(), AllocError> {
        for _ in 0..20 {
            self.event(rt, seat, Start::Go)?;
        }
        Ok(())
    }
}

#[test]
fn random_schedules_keep_a_plain_list(rt: HostRuntime) -> Result<(), Fail> {
    let mut met = [0u64; 4];
    for seed in 0..400 {
        let seats = 1 + seed % 4;
        let shape = Shape::new(2 + seed % 3 / 2, 1 + seed % 5 / 2, 1 + seed % 7 / 3, seats)?;
        let mut pair = Pair::new(rt.alloc(), shape, seed)?;
        for word in 0..300 {
            let seat = pair.next(seats);
            let start = if pair.bench.mid_call(&rt, seat) {
                Start::Go
            } else {
                pair.start(seat, word)
            };
            pair.event(&rt, seat, start)?;
        }
        for seat in 0..seats {
            pair.finish(&rt, seat)?;
        }
        take_rest(&rt, &mut pair)?;
        let more = pair.met;
        let counts = [more.full, more.put_busy, more.empty, more.take_busy];
        for (sum, count) in met.iter_mut().zip(counts) {
            *sum = sum.wrapping_add(count);
        }
    }
    for (kind, count) in met.iter().enumerate() {
        assert!(rt; 0 < *count, "kind {kind} was never met");
    }
    Ok(())
}

// At rest the places have no gap, and takes give out all that is left.
fn take_rest(rt: &impl Abort, pair: &mut Pair) -> Result<(), AllocError> {
    let accepted = pair.plain.iter().take_while(|slot| slot.is_some()).count();
    let none = pair.plain.iter().skip(accepted).all(|slot| slot.is_none());
    assert!(rt; none, "a place is left out");
    for _ in 0..=accepted {
        if pair.given == accepted as u64 {
            break;
        }
        pair.event(rt, 0, Start::Take)?;
        pair.finish(rt, 0)?;
    }
    let last = pair.bench.call(rt, 0, Start::Take)?;
    assert_eq!(rt; last, empty(accepted as u64));
    Ok(())
}
