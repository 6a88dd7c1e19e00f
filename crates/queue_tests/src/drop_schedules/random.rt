//! Pseudo-random schedules beside a plain list.
use super::bench::Bench;
use crate::schedules::MOST_STEPS;
use cursor_word::{Cursor, Shape};
use drop_core::{Answer, Start};
use rail::{Entry, Put, Take, Why};
use std::alloc::{AllocError, Global};
use std::process::Abort;
use std::test::Fail;

// A place of the plain list: the word that was put there, and whether it was given out or given up.
#[derive(Clone, Copy, PartialEq)]
enum Slot {
    Open,
    Put(u64),
    Given(u64),
    Overrun(u64),
}

// How often each kind of answer was met that no call alone is given, and how often a take left blocks out.
#[derive(Clone, Copy, Default)]
struct Met {
    overrun: u64,
    put_before_uncommitted: u64,
    put_after_refill: u64,
    take_after_head: u64,
    take_after_turn: u64,
    take_after_reuse: u64,
    take_before_uncommitted: u64,
    take_after_commit: u64,
    take_after_take: u64,
    jump: u64,
}

impl Met {
    // The answer of a call whose steps found these values.
    fn meet(&mut self, answer: &Answer, found: &[u64]) {
        let count = match answer {
            Answer::Put(Put::Busy(Why::Unfinished { .. })) => &mut self.put_before_uncommitted,
            Answer::Put(Put::Busy(Why::Moved { .. })) => &mut self.put_after_refill,
            Answer::Take(Take::Overrun { .. }) => &mut self.overrun,
            Answer::Take(Take::Busy(Why::Unfinished { .. })) => &mut self.take_before_uncommitted,
            Answer::Take(Take::Busy(Why::Moved { earlier, .. })) => self.moved(*earlier, found),
            _ => return,
        };
        *count = count.wrapping_add(1);
    }

    // Which words had moved: by how many steps the take had done, and what the last but one found.
    fn moved(&mut self, earlier: Cursor, found: &[u64]) -> &mut u64 {
        let before = found.get(found.len().wrapping_sub(2)).copied().unwrap_or(0);
        let seen = Cursor::unpack(before);
        match found.len() {
            2 => &mut self.take_after_head,
            8 if before == earlier.block && earlier.offset == 0 => &mut self.take_after_head,
            8 => &mut self.take_after_turn,
            9 => &mut self.take_after_reuse,
            _ if seen == earlier => &mut self.take_after_commit,
            _ => &mut self.take_after_take,
        }
    }

    // A take that went on in a second turn left blocks out, where the head that it found is not the next one.
    fn turn(&mut self, found: &[u64]) {
        if let (Some(first), Some(second)) = (found.get(1), found.get(6)) {
            if Cursor::unpack(*first).block.wrapping_add(1) < *second {
                self.jump = self.jump.wrapping_add(1);
            }
        }
    }

    fn all(&self) -> [u64; 10] {
        [
            self.overrun,
            self.put_before_uncommitted,
            self.put_after_refill,
            self.take_after_head,
            self.take_after_turn,
            self.take_after_reuse,
            self.take_before_uncommitted,
            self.take_after_commit,
            self.take_after_take,
            self.jump,
        ]
    }
}

// A queue on the bench beside a plain list.
#[derive(Drop)]
struct Pair {
    bench: Bench,
    width: u64,
    // the word that each seat is about to put
    in_hand: Vec<u64>,
    plain: Vec<Slot>,
    random: u64,
    met: Met,
}

impl Pair {
    fn new(alloc: Global, shape: Shape, seed: u64) -> Result<Pair, AllocError> {
        let mut in_hand = Vec::new(alloc);
        for _ in 0..shape.seats() {
            in_hand.push(0)?;
        }
        let mut plain = Vec::new(alloc);
        for _ in 0..200 {
            plain.push(Slot::Open)?;
        }
        Ok(Pair {
            bench: Bench::new(alloc, shape)?,
            width: shape.width(),
            in_hand,
            plain,
            random: seed,
            met: Met::default(),
        })
    }

    // The next pseudo-random number below a bound.
    fn next(&mut self, bound: u64) -> u64 {
        self.random = self
            .random
            .wrapping_mul(6364136223846793005)
            .wrapping_add(1442695040888963407);
        (self.random >> 33).checked_rem(bound).unwrap_or(0)
    }

    // One event of a seat, and what its answer says of the plain list.
    fn event(&mut self, rt: &impl Abort, seat: u64, start: Start) -> Result<(), AllocError> {
        let was = self.bench.mid_call(rt, seat);
        self.bench.event(rt, seat, start)?;
        if was && !self.bench.mid_call(rt, seat) {
            if let Some(answer) = self.bench.answer(rt, seat) {
                self.met.meet(&answer, self.bench.trail(rt, seat));
                self.ended(rt, seat, &answer);
            }
        }
        Ok(())
    }

    fn ended(&mut self, rt: &impl Abort, seat: u64, answer: &Answer) {
        match answer {
            Answer::Put(Put::Ok(place)) => self.accept(rt, seat, *place),
            Answer::Put(Put::Full { .. }) => assert!(rt; false, "a queue that drops is full"),
            Answer::Put(Put::Busy(_)) => {}
            Answer::Take(Take::Ok(place)) => {
                self.met.turn(self.bench.trail(rt, seat));
                self.give(rt, seat, *place);
            }
            Answer::Take(Take::Overrun { place, .. }) => self.give_up(rt, *place),
            Answer::Take(_) => {}
        }
    }

    // An accepted entry goes to its place, which is open.
    fn accept(&mut self, rt: &impl Abort, seat: u64, place: u64) {
        let word = self.in_hand.get(seat as usize).copied();
        let slot = self.plain.get_mut(place as usize);
        match (slot, word) {
            (Some(slot), Some(word)) => {
                assert!(rt; *slot == Slot::Open, "place {place} is made twice");
                *slot = Slot::Put(word);
            }
            _ => assert!(rt; false, "place {place} is beyond the list"),
        }
    }

    // A taken entry is the one at its place, which was neither given out nor given up.
    fn give(&mut self, rt: &impl Abort, seat: u64, place: u64) {
        let item = self.bench.last_taken(rt, seat);
        match (self.plain.get_mut(place as usize), item) {
            (Some(slot), Some(item)) => {
                assert_eq!(rt; item.place, place);
                let words = item.words.words();
                let word = words.first().copied().unwrap_or(0);
                let whole = words.iter().all(|other| *other == word);
                assert!(rt; whole, "place {place} gives parts of two entries");
                assert!(rt;
                    *slot == Slot::Put(word),
                    "place {place} gives another entry"
                );
                *slot = Slot::Given(word);
            }
            _ => assert!(rt; false, "place {place} is beyond the list"),
        }
    }

    // A place that is answered Overrun was put, and neither given out nor given up.
    fn give_up(&mut self, rt: &impl Abort, place: u64) {
        match self.plain.get_mut(place as usize) {
            Some(slot) => match *slot {
                Slot::Put(word) => *slot = Slot::Overrun(word),
                _ => assert!(rt; false, "place {place} is given up in vain"),
            },
            None => assert!(rt; false, "place {place} is beyond the list"),
        }
    }

    // What a seat at rest begins, in about as many puts as takes.
    fn start(&mut self, seat: u64, word: u64) -> Start {
        match self.next(2) {
            0 => Start::Take,
            _ => {
                if let Some(in_hand) = self.in_hand.get_mut(seat as usize) {
                    *in_hand = word;
                }
                let words = [word; 8];
                Start::Put(Entry::new(&words[..self.width.clamp(1, 8) as usize]))
            }
        }
    }

    // The seat whose turn it is: one of them seldom, so that others pass it.
    fn seat(&mut self, seats: u64) -> u64 {
        match self.next(16) {
            0 => 0,
            other => other
                .checked_rem(seats.wrapping_sub(1))
                .map_or(0, |busy| busy.wrapping_add(1)),
        }
    }

    // What a take of the first seat is answered, with all others at rest.
    fn take_alone(&mut self, rt: &impl Abort) -> Result<Option<Answer>, AllocError> {
        self.event(rt, 0, Start::Take)?;
        for _ in 0..MOST_STEPS {
            self.event(rt, 0, Start::Go)?;
        }
        Ok(self.bench.answer(rt, 0))
    }
}

// The words of the entry at a place, as they stand in the table behind the heads and the cursors.
fn stands_at(rt: &impl Abort, pair: &Pair, shape: &Shape, place: u64, word: u64) {
    let blocks = shape.blocks();
    let turn = place
        .checked_rem(blocks.wrapping_mul(shape.size()))
        .unwrap_or(0);
    let first = blocks
        .wrapping_mul(4)
        .wrapping_add(2)
        .wrapping_add(turn.wrapping_mul(shape.width()));
    for index in 0..shape.width() {
        let found = pair.bench.word(rt, first.wrapping_add(index));
        assert_eq!(rt; found, word, "at place {place}");
    }
}

#[test]
fn random_schedules_keep_a_plain_list(rt: HostRuntime) -> Result<(), Fail> {
    let mut met = [0; 10];
    for seed in 0..600 {
        let seats = 1 + seed % 4;
        let shape = Shape::new(2 + seed % 3 / 2, 1 + seed % 5 / 2, 1 + seed % 7 / 3, seats)?;
        let mut pair = Pair::new(rt.alloc(), shape, seed)?;
        for word in 0..400 {
            let seat = pair.seat(seats);
            let start = if pair.bench.mid_call(&rt, seat) {
                Start::Go
            } else {
                pair.start(seat, word)
            };
            pair.event(&rt, seat, start)?;
        }
        for seat in 0..seats {
            for _ in 0..MOST_STEPS {
                pair.event(&rt, seat, Start::Go)?;
            }
        }
        check_rest(&rt, &mut pair, &shape, seed)?;
        for (sum, more) in met.iter_mut().zip(pair.met.all()) {
            *sum = more.wrapping_add(*sum);
        }
    }
    for (kind, count) in met.iter().enumerate() {
        assert!(rt; 0 < *count, "kind {kind} was never met");
    }
    Ok(())
}

// At rest the places have no gap, what is left stands in the words, and takes give it out.
fn check_rest(
    rt: &impl Abort,
    pair: &mut Pair,
    shape: &Shape,
    seed: u64,
) -> Result<(), AllocError> {
    let accepted = pair
        .plain
        .iter()
        .take_while(|slot| **slot != Slot::Open)
        .count();
    let rest = pair
        .plain
        .iter()
        .skip(accepted)
        .all(|slot| *slot == Slot::Open);
    assert!(rt; rest, "a place is left out at seed {seed}");
    let live = shape.first_live_place(accepted as u64);
    for (place, slot) in pair.plain.iter().enumerate().skip(live as usize) {
        match slot {
            Slot::Put(word) => stands_at(rt, pair, shape, place as u64, *word),
            Slot::Overrun(_) => assert!(rt; false, "place {place} is lost at seed {seed}"),
            _ => {}
        }
    }
    for _ in 0..=accepted {
        if !matches!(pair.take_alone(rt)?, Some(Answer::Take(Take::Ok(_)))) {
            break;
        }
    }
    for (place, slot) in pair.plain.iter().enumerate().skip(live as usize) {
        let given = matches!(slot, Slot::Given(_) | Slot::Open);
        assert!(rt; given, "place {place} is left at seed {seed}");
    }
    let place = accepted as u64;
    assert_eq!(rt;
        pair.bench.answer(rt, 0),
        Some(Answer::Take(Take::Empty { place }))
    );
    Ok(())
}
