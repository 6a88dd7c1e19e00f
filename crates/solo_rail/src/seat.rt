//! The one seat of a queue.
ghost use Rattle.std.specs.Prelude.{◌≡◌, ◌-◌, ◌^◌, [], ◌∷◌, IfSome, length, min, slice_get};

use crate::lone::LonePhase;
use crate::rule::Alone;
use std::marker::Model;
use step_log::WordSeat;

/// The token with which the one caller puts and takes.
#[derive(Drop)]
pub struct SoloSeat<P: LonePhase> {
    pub(crate) seat: WordSeat<Alone<P>>,
    pub(crate) puts: u64,
    pub(crate) takes: u64,
}

impl<P: LonePhase> Model for SoloSeat<P> {
    ghost use Rattle.std.specs.Prelude.{◌≡◌, ◌-◌, ◌^◌, None, length, min};
    ghost use Rattle.call_steps.specs.Queue.{Seated};

    ghost Value = { Seated P };

    ghost view = { λ s.
        record {
          of = record { id = s.seat.id; shape = s.seat.view.shape };
          number = 0;
          view = s.seat.view.view;
          memory = tt;
          log = s.seat.log;
        } };

    ghost invariant = { λ s. (s.seat.view.view.phase ≡ None)
        × (s.puts ≡ length s.seat.view.view.made)
        × (s.takes ≡ min (length s.seat.view.view.taken) (2 ^ 64 - 1)) };
}

impl<P: LonePhase> SoloSeat<P> {
    /// How many entries the seat's puts had accepted.
    pub fn puts(&self) -> u64
        ensures { result ≡ length self.now.view.made }
    {
        self.puts
    }

    /// How many entries its takes answered; at most 2^64 - 1.
    pub(crate) fn takes(&self) -> u64
        ensures { result ≡ min (length self.now.view.taken) (2 ^ 64 - 1) }
    {
        self.takes
    }
}

/// How many entries the one seat of a list put.
pub(crate) fn puts_of<P: LonePhase>(seats: &[SoloSeat<P>]) -> u64
    ensures { IfSome (slice_get seats.now 0) (λ seat. result ≡ length seat.view.made) }
{
    match seats.first() {
        Some(seat) => seat.puts(),
        None => 0,
    }
}

/// How many entries are left by the one seat of a list: those it put, without those it took.
pub(crate) fn untaken_of<P: LonePhase>(seats: &[SoloSeat<P>]) -> u64
    ensures { IfSome (slice_get seats.now 0) (λ seat. result
        ≡ length seat.view.made - length seat.view.taken) }
{
    match seats.first() {
        Some(seat) => seat.puts().saturating_sub(seat.takes()),
        None => 0,
    }
}

/// The seat of a list of one.
pub(crate) fn only<P: LonePhase>(seats: Vec<SoloSeat<P>>) -> SoloSeat<P>
    requires { length seats.items ≡ 1 }
    ensures { seats.items ≡ result ∷ [] }
{
    let mut seats = seats;
    match seats.pop() {
        Some(seat) => seat,
        None => unreachable!(),
    }
}
