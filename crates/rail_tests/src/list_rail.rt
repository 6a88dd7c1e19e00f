ghost use Rattle.std.specs.Prelude.{◌≡◌, ◌+◌, ◌-◌, ◌/◌, ◌%◌, ◌≤◌, ◌<◌, ◌↔◌, ◌∷◌, [], Some, None, IfErr, IfOk, IsPermutation, true, false, drop, flat_map, length, map, take};
ghost use Rattle.std.specs.List.{All};
ghost use Rattle.cursor_word.specs.Shape.{Grid};
ghost use Rattle.cursor_word.specs.Cursor.{first_of, place_span};
ghost use Rattle.rail.specs.Items.{IsRising, places};
ghost use Rattle.rail_tests.specs.ListRail.{IsSeatOf, taken_of};
ghost use Rattle.rail.specs.Outcome.{DropOutcome, IsAccepted, RetryOutcome, numbers_below};
ghost use Rattle.rail.specs.Rail.{Puts, Takes};
ghost use Rattle.rail.specs.Sequential.{IsFull, RetryPut, retry_take};
ghost use Rattle.rail_tests.specs.declared.list_rail.ListSeat.{ListSeat};

use cursor_word::{Cursor, Shape};
use rail::{Answer, Batch, Entry, Placed, Put, Rail, Refused, Take};
use std::alloc::{AllocError, Global};

/// A queue for one seat that drops nothing and keeps all that it ever accepted in one list: the
/// plain program that other queues are compared with.
#[derive(Drop)]
pub struct ListRail {
    pub shape: Shape,
}

/// What the one seat had accepted, how much of it is taken, and how much it has room for in its
/// life.
#[derive(Drop)]
pub struct ListSeat {
    pub shape: Shape,
    pub made: Batch,
    pub taken: usize,
    pub most: usize,
    pub last: Option<Answer>,
}

/// What a closed queue had.
#[derive(Drop)]
pub struct ListDone {
    pub shape: Shape,
    pub accepted: Batch,
    pub taken: usize,
    pub left: Batch,
}

impl ListRail {
    /// A queue of this shape and its one seat, which accepts at most so many entries in its life.
    pub fn make(
        alloc: Global,
        shape: Shape,
        most: usize,
    ) -> Result<(ListRail, ListSeat), AllocError>
        requires one { shape.seats ≡ 1 }
        requires few { most ≤ place_span shape }
        ensures shape { IfOk result (λ r. r.0.shape ≡ shape) }
        ensures seat { IfOk result (λ r. IsSeatOf shape r.1) }
        ensures fresh { IfOk result (λ r. (r.1.made.items ≡ []) × (r.1.taken ≡ 0)) }
        ensures most { IfOk result (λ r. r.1.most ≡ most) }
        ensures told { IfOk result (λ r. r.1.last ≡ None) }
    {
        let made = Batch::with_room(alloc, most)?;
        let seat = ListSeat {
            shape,
            made,
            taken: 0,
            most,
            last: None,
        };
        Ok((ListRail { shape }, seat))
    }
}

impl ListSeat {
    /// Puts an entry, and answers as a queue that one thread alone uses, while it has room.
    fn put_next(&mut self, shape: &Shape, entry: &[u64]) -> Put
        requires seat { IsSeatOf shape.now self.old }
        requires width { length entry.now ≡ shape.now.width }
        ensures seat { (g : Grid) → IsSeatOf g self.old → IsSeatOf g self.new }
        ensures taken { taken_of self.new ≡ taken_of self.old }
        ensures answer { Puts shape.now false entry.now
            self.old.made.items self.new.made.items [] result }
        ensures alone { length self.old.made.items < self.old.most
            → RetryPut shape.now (length self.old.made.items) self.old.taken result }
    {
        let _width = shape.width();
        let count = self.made.len();
        let place = count as u64;
        if count == self.most || is_full(shape, place, self.taken as u64) {
            return Put::Full {
                head: last_block(shape, place),
                consumed: Cursor {
                    block: 0,
                    offset: 0,
                },
            };
        }
        self.made.push(Placed {
            place,
            words: Entry::new(entry),
        });
        Put::Ok(place)
    }

    /// Takes an entry, and answers as a queue that one thread alone uses.
    fn take_next(&mut self, shape: &Shape, out: &mut [u64]) -> Take
        requires seat { IsSeatOf shape.now self.old }
        requires width { length out.old ≡ shape.now.width }
        ensures seat { (g : Grid) → IsSeatOf g self.old → IsSeatOf g self.new }
        ensures made { self.new.made.items ≡ self.old.made.items }
        ensures answer { Takes shape.now false self.new.made.items out.old out.new
            (taken_of self.old) (taken_of self.new) [] result }
        ensures alone { result ≡ retry_take (length self.old.made.items) self.old.taken }
    {
        match self.made.get(self.taken) {
            Some(item) => {
                let item = *item;
                out.copy_from_slice(item.words.words());
                self.taken += 1;
                Take::Ok(item.place)
            }
            None => Take::Empty {
                place: self.taken as u64,
            },
        }
    }
}

// Whether the newest block is filled, and the one that the next would reuse is not wholly taken.
fn is_full(shape: &Shape, accepted: u64, taken: u64) -> bool
    ensures { (result ≡ true) ↔ IsFull shape.now accepted taken }
{
    let size = shape.size();
    let blocks = shape.blocks();
    if accepted == 0 || accepted % size != 0 {
        return false;
    }
    taken / size < (accepted / size).saturating_sub(blocks - 1)
}

// The last block in which so many entries lie.
fn last_block(shape: &Shape, accepted: u64) -> u64
    requires { accepted ≤ place_span shape.now }
    ensures filled { accepted % shape.now.size ≡ 0
        → result ≡ shape.now.blocks + accepted / shape.now.size - 1 }
    ensures all { accepted ≤ first_of shape.now (result + 1) }
    ensures from { shape.now.blocks ≤ result + 1 }
{
    let size = shape.size();
    shape.blocks() + (accepted + size - 1) / size - 1
}

impl Rail for ListRail {
    ghost use Rattle.std.specs.Prelude.{◌≡◌, [], false, take};
    ghost use Rattle.rail_tests.specs.ListRail.{IsSeatOf, taken_of};

    type Seat = ListSeat;

    type Done = ListDone;

    const MOST_SEATS: u64 = 1;

    const DROPS: bool = false;

    ghost MOST_SEATS = { 1 };

    ghost DROPS = { false };

    ghost shape_of = { λ rail. rail.shape };

    ghost PutsInto = { λ rail seat. IsSeatOf rail.shape seat };

    ghost TakesFrom = { λ rail seat. IsSeatOf rail.shape seat };

    ghost number_of = { λ seat. 0 };

    ghost made = { λ seat. seat.made.items };

    ghost taken = { λ seat. taken_of seat };

    ghost told = { λ seat. record { found = []; answer = seat.last } };

    ghost done_shape = { λ done. done.shape };

    ghost done_accepted = { λ done. done.accepted.items };

    ghost done_taken = { λ done. take done.taken done.accepted.items };

    ghost done_left = { λ done. done.left.items };

    fn shape(&self) -> Shape {
        let _blocks = self.shape.blocks();
        self.shape
    }

    fn put(&self, seat: &mut ListSeat, entry: &[u64]) -> Put {
        let answer = seat.put_next(&self.shape, entry);
        seat.last = Some(Answer::Put(answer));
        answer
    }

    fn take(&self, seat: &mut ListSeat, out: &mut [u64]) -> Take {
        let answer = seat.take_next(&self.shape, out);
        seat.last = Some(Answer::Take(answer));
        answer
    }

    fn close(
        self,
        alloc: Global,
        seats: Vec<Self::Seat>,
    ) -> Result<Self::Done, Refused<Self, Self::Seat>>
        requires seats { All (IsSeatOf self.shape) seats.items }
        requires all { IsPermutation (map (λ (_ : ListSeat). 0) seats.items)
            (numbers_below self.shape.seats) }
        ensures shape { IfOk result (λ done. done.shape ≡ self.shape) }
        ensures accepted { IfOk result (λ done. IsAccepted
            (flat_map (λ (s : ListSeat). s.made.items) seats.items) done.accepted.items) }
        ensures taken { IfOk result (λ done. IsPermutation
            (flat_map taken_of seats.items) (take done.taken done.accepted.items)) }
        ensures order { IfOk result (λ done.
            IsRising (places (take done.taken done.accepted.items))) }
        ensures retry { false ≡ false → IfOk result (λ done. RetryOutcome
            done.accepted.items (take done.taken done.accepted.items) done.left.items) }
        ensures drop { false ≡ true → IfOk result (λ done. DropOutcome done.shape
            done.accepted.items (take done.taken done.accepted.items) done.left.items) }
        ensures refused { IfErr result (λ refused.
            (refused.rail ≡ self) × (refused.seats.items ≡ seats.items)) }
    {
        let _blocks = self.shape.blocks();
        match left_of(alloc, &seats) {
            Ok(left) => {
                let ListRail { shape } = self;
                let ListSeat {
                    shape: _,
                    made: accepted,
                    taken,
                    most: _,
                    last: _,
                } = only(seats);
                Ok(ListDone {
                    shape,
                    accepted,
                    taken,
                    left,
                })
            }
            Err(_) => Err(Refused { rail: self, seats }),
        }
    }

    fn puts(seat: &ListSeat) -> u64 {
        seat.made.len() as u64
    }

    fn accepted(done: &ListDone) -> u64 {
        done.accepted.len() as u64
    }

    fn left(done: &ListDone) -> &Batch {
        &done.left
    }
}

// What the seat of a list of one has not taken.
fn left_of(alloc: Global, seats: &[ListSeat]) -> Result<Batch, AllocError>
    requires one { length seats.now ≡ 1 }
    requires taken { All (λ (s : ListSeat). s.taken ≤ length s.made.items) seats.now }
    ensures { IfOk result (λ left. (s : ListSeat) → seats.now ≡ s ∷ []
        → left.items ≡ drop s.taken s.made.items) }
{
    let seat = &seats[0];
    let mut left = Batch::with_room(alloc, seat.made.len() - seat.taken)?;
    left.push_from(&seat.made, seat.taken);
    Ok(left)
}

// The seat of a list of one.
fn only(seats: Vec<ListSeat>) -> ListSeat
    requires { length seats.items ≡ 1 }
    ensures { seats.items ≡ result ∷ [] }
{
    let mut seats = seats;
    match seats.pop() {
        Some(seat) => seat,
        None => unreachable!(),
    }
}
