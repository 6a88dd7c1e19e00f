//! The phases of machines whose calls are run.
ghost use Rattle.std.specs.Prelude.{Bool};
ghost use Rattle.call_laws.specs.Calls.{IsCallTable, ReadsInOrder};
ghost use Rattle.call_laws.specs.Answers.{KeepsPromises};
ghost use Rattle.call_laws.specs.Seats.{AllMayBegin, IsOrderless};

use machine::Phase;

/// The phases of a machine whose puts and takes a loop can run.
pub trait CallPhase: Phase {
    // Whether a full queue drops its oldest entries.
    ghost drops: { Bool };

    /// The number of the phase on the usual way of its call. Only the speed of the code depends on
    /// it.
    fn usual_step(&self) -> u64;

    /// The laws of the machine's calls. It does nothing when it runs.
    fn calls()
        ensures table { IsCallTable Self.table }
        ensures reads { ReadsInOrder Self.table }
        ensures promises { KeepsPromises Self.table Self.Holds drops };
}

/// The phases of a machine whose seats are all alike, so that each of them may be used from a
/// thread of its own.
pub trait SharedPhase: CallPhase {
    /// The laws of the machine's seats. It does nothing when it runs.
    fn seats()
        ensures order { IsOrderless Self.Holds }
        ensures begin { AllMayBegin Self.table };
}
