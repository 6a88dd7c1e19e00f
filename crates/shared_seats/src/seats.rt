//! The seats of a queue: how they are dealt when it is made, and gathered when it is closed.
ghost use Rattle.std.specs.Prelude.{◌≡◌, ◌-◌, ◌^◌, ◌<◌, ◌≤◌, [], ◌∷◌, None, IfOk, All, IsPermutation, map, length, min};
ghost use Rattle.rail.specs.Outcome.{numbers_below};
ghost use Rattle.machine.specs.Steps.{resting};
ghost use Rattle.call_steps.specs.Queue.{IsFresh, SeatedWith};
ghost use Rattle.shared_seats.specs.Holding.{all_seats, holding, numbered};
ghost use Rattle.shared_seats.specs.Seats.{EachRests, made_by_all, numbered_of_all, taken_by_all};

use crate::memory::Memory;
use crate::rule::{Deal, Holdings};
use call_laws::CallPhase;
use cursor_word::Shape;
use std::alloc::{AllocError, Global};
use std::marker::Model;
use step_log::{WordSeat, Words};

/// The token with which one caller puts and takes.
#[derive(Drop)]
pub struct SharedSeat<P: CallPhase, M: Memory<P>> {
    pub(crate) seat: WordSeat<Holdings<P, M>>,
    number: u64,
    pub(crate) puts: u64,
    pub(crate) takes: u64,
}

impl<P: CallPhase, M: Memory<P>> Model for SharedSeat<P, M> {
    ghost use Rattle.std.specs.Prelude.{◌≡◌, ◌-◌, ◌^◌, ◌≤◌, [], ◌∷◌, None, length, min};
    ghost use Rattle.call_steps.specs.Queue.{SeatedWith};
    ghost use Rattle.shared_seats.specs.Holding.{holding, memory_in, numbered, view_in};

    ghost Value = { SeatedWith P M };

    ghost view = { λ s.
        record {
          of = record { id = s.seat.id; shape = s.seat.view.shape };
          number = s.number;
          view = view_in s.seat.view;
          memory = memory_in M.none s.seat.view;
          log = s.seat.log;
        } };

    ghost invariant = { λ s. (s.seat.view ≡ holding s.seat.view.shape
        (numbered s.number (view_in s.seat.view) ∷ []) (memory_in M.none s.seat.view ∷ []))
        × ((view_in s.seat.view).phase ≡ None) × (s.puts ≡ length (view_in s.seat.view).made)
        × (s.takes ≡ min (length (view_in s.seat.view).taken) (2 ^ 64 - 1)) };
}

impl<P: CallPhase, M: Memory<P>> SharedSeat<P, M> {
    fn fresh(seat: WordSeat<Holdings<P, M>>, number: u64) -> SharedSeat<P, M>
        requires { seat.view
            ≡ holding seat.view.shape (numbered number (resting P seat.view.shape) ∷ [])
            (M.none ∷ []) }
        ensures { result
            ≡ record {
              of = record { id = seat.id; shape = seat.view.shape };
              number = number;
              view = resting P seat.view.shape;
              memory = M.none;
              log = seat.log;
            } }
    {
        SharedSeat {
            seat,
            number,
            puts: 0,
            takes: 0,
        }
    }

    /// The seat's number.
    pub fn number(&self) -> u64
        ensures { result ≡ self.now.number }
    {
        self.number
    }

    /// How many entries the seat's puts had accepted.
    pub fn puts(&self) -> u64
        ensures { result ≡ length self.now.view.made }
    {
        self.puts
    }

    /// How many entries its takes answered; at most 2^64 - 1.
    pub fn taken(&self) -> u64
        ensures { result ≡ min (length self.now.view.taken) (2 ^ 64 - 1) }
    {
        self.takes
    }

    fn into_seat(self) -> WordSeat<Holdings<P, M>>
        ensures rest { self.view.phase ≡ None }
        ensures id { result.id ≡ self.of.id }
        ensures view { result.view
            ≡ holding self.of.shape (numbered self.number self.view ∷ []) (self.memory ∷ []) }
    {
        let SharedSeat { seat, .. } = self;
        seat
    }
}

/// One seat for each number, from the seat that stands for all.
pub(crate) fn deal<P: CallPhase, M: Memory<P>>(
    alloc: Global,
    words: &Words<Holdings<P, M>>,
    mut first: WordSeat<Holdings<P, M>>,
    shape: &Shape,
) -> Result<Vec<SharedSeat<P, M>>, AllocError>
    requires words { (0 < words.now.id.words) × (words.now.key ≡ shape.now) }
    requires first { (first.id ≡ words.now.id) × (first.view ≡ all_seats P M.none shape.now) }
    ensures numbers { IfOk result (λ seats. map (λ s. s.number) seats.items
        ≡ numbers_below shape.now.seats) }
    ensures fresh { IfOk result
        (λ seats. All (IsFresh (record { id = words.now.id; shape = shape.now })) seats.items) }
    ensures memories { IfOk result (λ seats. All (λ s. s.memory ≡ M.none) seats.items) }
{
    let last = shape.seats() - 1;
    let mut seats = Vec::new(alloc);
    for number in 0..last {
        let seat = words.split::<Deal>(&mut first);
        seats.push(SharedSeat::<P, M>::fresh(seat, number))?;
    }
    seats.push(SharedSeat::<P, M>::fresh(first, last))?;
    Ok(seats)
}

/// How many entries all seats put, and how many they took; at most 2^64 - 1.
pub fn totals<P: CallPhase, M: Memory<P>>(seats: &[SharedSeat<P, M>]) -> (u64, u64)
    ensures puts { result.0 ≡ min (length (made_by_all seats.now)) (2 ^ 64 - 1) }
    ensures takes { result.1 ≡ min (length (taken_by_all seats.now)) (2 ^ 64 - 1) }
{
    let mut puts = 0u64;
    let mut takes = 0u64;
    for index in 0..seats.len() {
        puts = puts.saturating_add(seats[index].puts());
        takes = takes.saturating_add(seats[index].taken());
    }
    (puts, takes)
}

/// One seat that stands for all others.
pub(crate) fn gather<P: CallPhase, M: Memory<P>>(
    words: &Words<Holdings<P, M>>,
    mut seats: Vec<SharedSeat<P, M>>,
) -> WordSeat<Holdings<P, M>>
    requires words { 0 < words.now.id.words }
    requires some { 0 < length seats.items }
    requires own { All (λ s. (s.of.id ≡ words.now.id) × (s.of.shape ≡ words.now.key)) seats.items }
    ensures id { result.id ≡ words.now.id }
    ensures shape { result.view.shape ≡ words.now.key }
    ensures seats { IsPermutation (numbered_of_all seats.items) result.view.seats }
    ensures memories { IsPermutation (map (λ s. s.memory) seats.items) result.view.memories }
    ensures rest { EachRests result.view.seats }
{
    let Some(last) = seats.pop() else {
        unreachable!()
    };
    let mut all = last.into_seat();
    while let Some(next) = seats.pop() {
        let seat = next.into_seat();
        words.join::<Deal>(&mut all, seat);
    }
    all
}
