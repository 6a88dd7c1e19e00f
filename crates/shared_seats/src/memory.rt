//! What a seat remembers beside the machine.
ghost use Rattle.std.specs.Prelude.{ℕ};
ghost use Rattle.cursor_word.specs.Shape.{Grid};
ghost use Rattle.machine.specs.declared.view.View.{View};
ghost use Rattle.shared_seats.specs.Memory.{IsLasting, Knowledge};

use call_laws::CallPhase;

/// What a seat remembers of loads that are no steps of the machine. What holds of it holds between
/// any two steps of any seat.
pub trait Memory<P: CallPhase> {
    // What a seat remembers that has done nothing.
    ghost none: { Self };

    // What holds of it, by the shape, the words and what the machine knows of all seats.
    ghost Knows: { Knowledge P Self };

    /// The law of the memory: the machine keeps what holds of it. It does nothing when it runs.
    fn lasts()
        ensures { IsLasting P.table P.Holds Knows none };
}

/// The seats of a queue without such loads remember nothing.
impl<P: CallPhase> Memory<P> for () {
    ghost none = { tt };

    ghost Knows = { λ shape words views memory. Unit {0} };

    fn lasts() {}
}

/// What a load tells: of the shape, of what the machine knows of its seat and what the seat
/// remembered, of the value that it found, and of what the seat remembers then.
pub trait LoadFact<P, M> {
    ghost then: { Grid → View P → M → ℕ → M → Type 0 };
}
