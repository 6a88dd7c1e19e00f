//! A queue that answers its puts by a list, and counts its calls.
ghost use Rattle.std.specs.Prelude.{◌≡◌, [], ◌∷◌, false, true, flat_map, length, IfOk, IfErr, IsPermutation};
ghost use Rattle.rail.specs.Outcome.{DropOutcome, IsAccepted, RetryOutcome};
ghost use Rattle.rail.specs.Rail.{Puts};
ghost use Rattle.rail.specs.Told.{Shows};
ghost use Rattle.rail.specs.Items.{IsRising, places};
ghost use Rattle.profile_tests.specs.Scripted.{made_of, nothing};

use cursor_word::{Cursor, Shape};
use rail::{Answer, Batch, Entry, Placed, Put, Rail, Refused, Take, Why};
use std::alloc::Global;

/// What a put is to answer.
#[derive(Clone, Copy)]
pub enum Says {
    Ok,
    Full,
    Busy,
}

const NOWHERE: Cursor = Cursor {
    block: 0,
    offset: 0,
};

// Two values that each call finds, and which differ.
fn moved() -> Why
    ensures { Shows (0 ∷ 1 ∷ []) result }
{
    Why::Moved {
        earlier: NOWHERE,
        later: Cursor {
            block: 1,
            offset: 0,
        },
    }
}

/// A queue of one seat that accepts one entry and gives none out.
#[derive(Drop)]
pub struct Scripted {
    pub shape: Shape,
}

/// What its puts are to answer, the last first, and then Busy; and how often it was called.
#[derive(Drop)]
pub struct Script {
    pub says: Vec<Says>,
    pub made: Option<Placed>,
    pub puts: u64,
    pub takes: u64,
    pub last: Option<Answer>,
}

/// It is never closed.
#[derive(Drop)]
pub struct Unclosed {
    pub shape: Shape,
    pub left: Batch,
}

impl Script {
    // What the next put answers, by the list.
    fn put_next(&mut self, shape: &Shape, entry: &[u64]) -> Put
        requires width { length entry.now ≡ shape.now.width }
        ensures answer { Puts shape.now false entry.now (made_of self.old.made)
            (made_of self.new.made) (0 ∷ 1 ∷ []) result }
    {
        let _width = shape.width();
        let says = self.says.pop();
        if self.made.is_some() {
            return Put::Busy(moved());
        }
        match says {
            Some(Says::Ok) => {
                self.made = Some(Placed {
                    place: 0,
                    words: Entry::new(entry),
                });
                Put::Ok(0)
            }
            Some(Says::Full) => Put::Full {
                head: shape.blocks(),
                consumed: NOWHERE,
            },
            _ => Put::Busy(moved()),
        }
    }
}

impl Rail for Scripted {
    ghost use Rattle.std.specs.Prelude.{◌≡◌, [], ◌∷◌, false, ⊤};
    ghost use Rattle.profile_tests.specs.Scripted.{made_of, nothing};

    type Seat = Script;

    type Done = Unclosed;

    const MOST_SEATS: u64 = 1;

    const DROPS: bool = false;

    ghost MOST_SEATS = { 1 };

    ghost DROPS = { false };

    ghost shape_of = { λ rail. rail.shape };

    ghost PutsInto = { λ rail seat. ⊤ };

    ghost TakesFrom = { λ rail seat. ⊤ };

    ghost number_of = { λ seat. 0 };

    ghost made = { λ seat. made_of seat.made };

    ghost taken = { λ seat. nothing };

    ghost told = { λ seat. record { found = 0 ∷ 1 ∷ []; answer = seat.last } };

    ghost done_shape = { λ done. done.shape };

    ghost done_accepted = { λ done. done.left.items };

    ghost done_taken = { λ done. nothing };

    ghost done_left = { λ done. done.left.items };

    fn shape(&self) -> Shape {
        let _blocks = self.shape.blocks();
        self.shape
    }

    fn put(&self, seat: &mut Script, entry: &[u64]) -> Put {
        seat.puts = seat.puts.saturating_add(1);
        let answer = seat.put_next(&self.shape, entry);
        seat.last = Some(Answer::Put(answer));
        answer
    }

    fn take(&self, seat: &mut Script, _out: &mut [u64]) -> Take {
        seat.takes = seat.takes.saturating_add(1);
        let answer = Take::Busy(moved());
        seat.last = Some(Answer::Take(answer));
        answer
    }

    fn close(
        self,
        _alloc: Global,
        seats: Vec<Self::Seat>,
    ) -> Result<Self::Done, Refused<Self, Self::Seat>>
        ensures shape { IfOk result (λ done. done.shape ≡ self.shape) }
        ensures accepted { IfOk result (λ done. IsAccepted
            (flat_map (λ (s : Script). made_of s.made) seats.items) done.left.items) }
        ensures taken { IfOk result (λ done. IsPermutation
            (flat_map (λ (s : Script). nothing) seats.items) nothing) }
        ensures order { IfOk result (λ done. IsRising (places nothing)) }
        ensures retry { false ≡ false → IfOk result
            (λ done. RetryOutcome done.left.items nothing done.left.items) }
        ensures drop { false ≡ true → IfOk result
            (λ done. DropOutcome done.shape done.left.items nothing done.left.items) }
        ensures refused { IfErr result (λ refused.
            (refused.rail ≡ self) × (refused.seats.items ≡ seats.items)) }
    {
        Err(Refused { rail: self, seats })
    }

    fn puts(seat: &Script) -> u64 {
        match seat.made {
            Some(_) => 1,
            None => 0,
        }
    }

    fn accepted(done: &Unclosed) -> u64 {
        done.left.len() as u64
    }

    fn left(done: &Unclosed) -> &Batch {
        &done.left
    }
}
