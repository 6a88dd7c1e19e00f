//! Drawing numbers, each once.
ghost use Rattle.std.specs.Prelude.{◌≡◌, ℕ, ◌+◌, ◌^◌, ◌<◌, ◌≤◌, [], ◌∷◌, true, false, if◌then◌else◌, Option, Some, None, IfSome, IfNone, IfOk, All, Any, IsPermutation, flat_map, vec_len, length};
ghost use Rattle.std.specs.List.{range_with_len, list_any};
ghost use Rattle.std.specs.List.Sorted.{IsStrictlyIncreasing};
ghost use Rattle.claim_table.specs.Claimed.{Claimant, Drawing, share, drew, found_end, marked, looked, IsFresh, one_if};

use crate::rule::{Claiming, Deal, Draw, End, Look};
use crate::share::ClaimShape;
use std::alloc::{AllocError, Global};
use std::marker::Model;
use step_log::{WordSeat, Words};

// The words: the next number, and how many seats are marked ended.
const NEXT: u64 = 0;

const ENDED: u64 = 1;

/// The numbers below `pieces`, to be drawn by several threads.
#[derive(Drop)]
pub struct Claim {
    words: Words<Claiming>,
    pieces: u64,
}

impl Model for Claim {
    ghost Value = { Claimant };

    ghost view = { λ c. record { id = c.words.id; shape = c.words.key } };

    ghost invariant = { λ c. (c.words.key.pieces ≡ c.pieces) × (c.words.id.words ≡ 2)
        × (0 < c.words.key.seats) };
}

/// The token with which one worker draws. It knows what it drew.
#[derive(Drop)]
pub struct ClaimSeat {
    seat: WordSeat<Claiming>,
    stopped: bool,
    ended: bool,
}

impl Model for ClaimSeat {
    ghost Value = { Drawing };

    ghost view = { λ s. record {
      of = record { id = s.seat.id; shape = s.seat.view.shape };
      drawn = s.seat.view.drawn;
      stopped = s.stopped;
      ended = s.ended;
      log = s.seat.log;
    } };

    ghost invariant = { λ s. (s.seat.view ≡ share 1 s.seat.view.shape s.seat.view.drawn s.stopped
        (one_if s.ended)) × IsStrictlyIncreasing s.seat.view.drawn };
}

impl Claim {
    /// A claim of `pieces` numbers, and all its seats, none of which has drawn anything or ended.
    pub fn make(
        alloc: Global,
        pieces: u64,
        seats: u64,
    ) -> Result<(Claim, Vec<ClaimSeat>), AllocError>
        requires seats { 0 < seats }
        requires room { pieces + seats < 2 ^ 64 }
        ensures shape { IfOk result (λ r. r.0.shape ≡ record { pieces = pieces; seats = seats }) }
        ensures count { IfOk result (λ r. vec_len r.1 ≡ seats) }
        ensures fresh { IfOk result (λ r. All (IsFresh r.0) r.1.items) }
    {
        let shape = ClaimShape { pieces, seats };
        let start = vec![in alloc; 0u64, 0]?;
        let (words, first) = Words::<Claiming>::make(alloc, start, shape)?;
        let made = deal(alloc, &words, first, shape)?;
        Ok((Claim { words, pieces }, made))
    }

    /// Draws the next number by one add, or finds that none is left. A seat that found the end
    /// takes no step.
    pub fn claim(&self, seat: &mut ClaimSeat) -> Option<u64>
        requires own { seat.old.of ≡ self.now }
        ensures same { seat.new.of ≡ seat.old.of }
        ensures drawn { IfSome result (λ n. (n < self.now.shape.pieces)
            × (seat.new ≡ drew seat.old n)) }
        ensures end { IfNone result (seat.old.stopped ≡ false → (found : ℕ)
            × (self.now.shape.pieces ≤ found) × (seat.new ≡ found_end seat.old found)) }
        ensures none { IfNone result (seat.new.stopped ≡ true) }
        ensures stopped { seat.old.stopped ≡ true → (result ≡ None) × (seat.new ≡ seat.old) }
        ensures rising { IsStrictlyIncreasing seat.new.drawn }
    {
        if seat.stopped {
            return None;
        }
        let found = self.words.add_one::<Draw>(&mut seat.seat, NEXT);
        if found < self.pieces {
            Some(found)
        } else {
            seat.stopped = true;
            None
        }
    }

    /// Counts the seat among those that ended, by one add. A seat that ended before takes no step.
    pub fn end(&self, seat: &mut ClaimSeat)
        requires own { seat.old.of ≡ self.now }
        ensures same { seat.new.of ≡ seat.old.of }
        ensures counted { seat.old.ended ≡ false → (found : ℕ)
            × (seat.new ≡ marked seat.old found) }
        ensures once { seat.old.ended ≡ true → seat.new ≡ seat.old }
    {
        if !seat.ended {
            self.words.add_one::<End>(&mut seat.seat, ENDED);
            seat.ended = true;
        }
    }

    /// How many seats ended, by one load.
    pub fn ended(&self, seat: &mut ClaimSeat) -> u64
        requires own { seat.old.of ≡ self.now }
        ensures found { seat.new ≡ looked seat.old result }
        ensures most { result ≤ self.now.shape.seats }
        ensures least { seat.old.ended ≡ true → 0 < result }
    {
        self.words.load::<Look>(&mut seat.seat, ENDED)
    }

    /// What the seats drew together, once one of them found the end: each number once.
    pub fn close(self, seats: Vec<ClaimSeat>)
        requires own { All (λ s. s.of ≡ self) seats.items }
        requires all { length seats.items ≡ self.shape.seats }
        requires stopped { Any (λ s. s.stopped ≡ true) seats.items }
        ensures once { IsPermutation (flat_map (λ s. s.drawn) seats.items)
            (range_with_len 0 self.shape.pieces) }
    {
        let Claim { words, pieces: _ } = self;
        let all = gather(&words, seats);
        words.close(all);
    }
}

impl ClaimSeat {
    fn fresh(seat: WordSeat<Claiming>) -> ClaimSeat
        requires { seat.view ≡ share 1 seat.view.shape [] false 0 }
        ensures { result ≡ record {
          of = record { id = seat.id; shape = seat.view.shape };
          drawn = [];
          stopped = false;
          ended = false;
          log = seat.log;
        } }
    {
        ClaimSeat {
            seat,
            stopped: false,
            ended: false,
        }
    }

    fn into_seat(self) -> WordSeat<Claiming>
        ensures id { result.id ≡ self.of.id }
        ensures view { result.view ≡ share 1 self.of.shape self.drawn self.stopped
            (one_if self.ended) }
    {
        let ClaimSeat { seat, .. } = self;
        seat
    }
}

fn deal(
    alloc: Global,
    words: &Words<Claiming>,
    mut first: WordSeat<Claiming>,
    shape: ClaimShape,
) -> Result<Vec<ClaimSeat>, AllocError>
    requires own { first.id ≡ words.now.id }
    requires first { (0 < shape.seats) × (first.view ≡ share shape.seats shape [] false 0) }
    ensures count { IfOk result (λ v. length v.items ≡ shape.seats) }
    ensures fresh { IfOk result (λ v. All (IsFresh (record { id = words.now.id; shape = shape }))
        v.items) }
{
    let mut made = Vec::new(alloc);
    for left in 1..shape.seats {
        let seat = words.split::<Deal>(&mut first);
        made.push(ClaimSeat::fresh(seat))?;
    }
    made.push(ClaimSeat::fresh(first))?;
    Ok(made)
}

// One seat that took in all others.
fn gather(words: &Words<Claiming>, mut seats: Vec<ClaimSeat>) -> WordSeat<Claiming>
    requires some { 0 < length seats.items }
    requires own { All (λ s. s.of.id ≡ words.now.id) seats.items }
    ensures id { result.id ≡ words.now.id }
    ensures parts { result.view.parts ≡ length seats.items }
    ensures drawn { IsPermutation (flat_map (λ s. s.drawn) seats.items) result.view.drawn }
    ensures stopped { result.view.stopped ≡ list_any (λ s. s.stopped) seats.items }
{
    let Some(last) = seats.pop() else {
        unreachable!()
    };
    let mut all = last.into_seat();
    while let Some(next) = seats.pop() {
        let seat = next.into_seat();
        words.join::<Deal>(&mut all, seat);
    }
    all
}
