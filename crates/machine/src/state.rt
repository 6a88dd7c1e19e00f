ghost use Rattle.std.specs.Prelude.{◌≡◌, ℕ, ◌<◌, ◌≤◌, ◌↔◌, IsNone, IfSome, IfOk, IsTrue, Option, Some, None, OnOk, OnErr, length, map, replicate, slice_index};
ghost use Rattle.std.specs.List.{AllByRecursion};
ghost use Rattle.cursor_word.specs.Cursor.{most_puts};
ghost use Rattle.cursor_word.specs.Layout.{word_count};
ghost use Rattle.machine.specs.Steps.{Suits, begun, go, goes, is_mid_call, resting, run, start_state, step, turned, view_of};
ghost use Rattle.machine.specs.Bounds.{call_bound};
ghost use Rattle.machine.specs.Invariant.{CanStep};

use crate::event::{Event, Start};
use crate::phase::Phase;
use crate::seat::Seat;
use crate::start::start_words;
use cursor_word::Shape;
use rail::{Answer, Batch};
use std::alloc::{AllocError, Global};
use std::marker::Model;

/// The words and the seats of a machine. Its steps are done one at a time, in any order of the
/// seats.
#[derive(Drop)]
pub struct State<P: Phase> {
    shape: Shape,
    words: Vec<u64>,
    seats: Vec<Seat<P>>,
}

impl<P: Phase> Model for State<P> {
    ghost use Rattle.machine.specs.Steps.{ShapedState};
    ghost use Rattle.machine.specs.Invariant.{IsKept};

    ghost Value = { ShapedState P };

    ghost view = { λ s. record {
      shape = s.shape;
      state = record { words = s.words.items; views = s.seats.items };
    } };

    ghost invariant = { λ s. IsKept P.Holds record {
      shape = s.shape;
      state = record { words = s.words.items; views = s.seats.items };
    } };
}

impl<P: Phase> State<P> {
    /// The words at their start, and all seats at rest.
    pub fn new(alloc: Global, shape: Shape) -> Result<State<P>, AllocError>
        ensures start { IfOk result (λ state. state
            ≡ record { shape = shape; state = start_state P shape }) }
    {
        P::keeps();
        let _blocks = shape.blocks();
        let words = start_words(alloc, &shape)?;
        let seats = seats_at_rest(alloc, &shape)?;
        Ok(State {
            shape,
            words,
            seats,
        })
    }

    /// One event. Memory is taken before the step.
    pub fn step(&mut self, event: &Event) -> Result<(), AllocError>
        requires suits { Suits P.table self.old.shape event.now }
        requires room { length (view_of self.old event.now.seat).made < most_puts self.old.shape }
        ensures shape { self.new.shape ≡ self.old.shape }
        ensures step { OnOk result (self.new.state
            ≡ step P.table self.old.shape self.old.state event.now) }
        ensures refused { OnErr result (self.new ≡ self.old) }
    {
        P::keeps();
        let seat = &mut self.seats[event.seat as usize];
        turn(&self.shape, &mut self.words, seat, &event.start)
    }

    /// The steps of the seat's call, until it is at rest. After want of memory those that were done
    /// stand.
    pub fn finish(&mut self, seat: u64) -> Result<(), AllocError>
        requires suits { Suits P.table self.old.shape (go seat) }
        requires room { length (view_of self.old seat).made < most_puts self.old.shape }
        ensures shape { self.new.shape ≡ self.old.shape }
        ensures steps { (count : ℕ) × (count ≤ call_bound self.old.shape)
            × (self.new.state
            ≡ run P.table self.old.shape self.old.state (goes seat count)) }
        ensures rests { OnOk result ((view_of self.new seat).phase ≡ None) }
        ensures idle { (view_of self.old seat).phase ≡ None → self.new ≡ self.old }
    {
        P::keeps();
        P::ends();
        let most = self.shape.width() + 12;
        for _step in 0..most {
            if !self.mid_call(seat) {
                return Ok(());
            }
            self.step(&Event {
                seat,
                start: Start::Go,
            })?;
        }
        Ok(())
    }

    /// A word.
    pub fn word(&self, index: u64) -> u64
        requires { index < word_count self.now.shape }
        ensures { result ≡ slice_index self.now.state.words index }
    {
        self.words[index as usize]
    }

    /// The seat's last answer.
    pub fn answer(&self, seat: u64) -> Option<&Answer>
        requires { seat < self.now.shape.seats }
        ensures none { IsNone result ↔ ((view_of self.now seat).answer ≡ None) }
        ensures some { IfSome result (λ answer. (view_of self.now seat).answer ≡ Some answer.now) }
    {
        self.seats[seat as usize].answer()
    }

    /// Whether the seat is in a call.
    pub fn mid_call(&self, seat: u64) -> bool
        requires { seat < self.now.shape.seats }
        ensures { result ≡ is_mid_call (view_of self.now seat) }
    {
        self.seats[seat as usize].mid_call()
    }

    /// What the seat's puts had accepted.
    pub fn made(&self, seat: u64) -> &Batch
        requires { seat < self.now.shape.seats }
        ensures { result.now.items ≡ (view_of self.now seat).made }
    {
        self.seats[seat as usize].made()
    }

    /// What the seat's takes answered.
    pub fn taken(&self, seat: u64) -> &Batch
        requires { seat < self.now.shape.seats }
        ensures { result.now.items ≡ (view_of self.now seat).taken }
    {
        self.seats[seat as usize].taken()
    }

    /// What the steps of the seat's present or last call found, in order; of a store the value that
    /// it wrote.
    pub fn trail(&self, seat: u64) -> &[u64]
        requires { seat < self.now.shape.seats }
        ensures { result.now ≡ (view_of self.now seat).trail }
    {
        self.seats[seat as usize].trail()
    }
}

/// The state after a schedule: its events, done in order from the start.
pub fn run<P: Phase>(alloc: Global, shape: Shape, events: &[Event]) -> Result<State<P>, AllocError>
    requires suits { AllByRecursion (Suits P.table shape) events.now }
    requires few { length events.now < most_puts shape }
    ensures state { IfOk result (λ s. s ≡ record {
      shape = shape;
      state = run P.table shape (start_state P shape) events.now;
    }) }
{
    let mut state = State::<P>::new(alloc, shape)?;
    for event in events {
        state.step(event)?;
    }
    Ok(state)
}

// All seats at rest.
fn seats_at_rest<P: Phase>(alloc: Global, shape: &Shape) -> Result<Vec<Seat<P>>, AllocError>
    ensures { IfOk result (λ seats. seats.items ≡ replicate shape.now.seats (resting P shape.now)) }
{
    let mut seats = Vec::new(alloc);
    for _seat in 0..shape.seats() {
        seats.push(Seat::<P>::new(alloc, shape))?;
    }
    Ok(seats)
}

// A seat's turn.
fn turn<P: Phase>(
    shape: &Shape,
    words: &mut Vec<u64>,
    seat: &mut Seat<P>,
    start: &Start,
) -> Result<(), AllocError>
    requires all { length words.old.items ≡ word_count shape.now }
    requires ready { let turns = begun P.table shape.now seat.old seat.old.phase start.now in
        (p : P) → turns.phase ≡ Some p → CanStep P.table shape.now words.old.items turns p }
    ensures ok { let turns = turned P.table shape.now words.old.items seat.old start.now in
        OnOk result (turns ≡ record { words = words.new.items; view = seat.new }) }
    ensures err { OnErr result ((words.new.items ≡ words.old.items) × (seat.new ≡ seat.old)) }
{
    let Some(phase) = seat.phase_at_turn(shape, start) else {
        return Ok(());
    };
    let entry = seat.entry_at_turn(shape, start);
    let op = phase.want(shape, entry.words());
    let index = op.index() as usize;
    let old = words[index];
    seat.note(shape, start, &phase, entry, old)?;
    words[index] = op.moved(old);
    Ok(())
}
