ghost use Rattle.std.specs.Prelude.{◌≡◌, ◌<◌, IfOk, length};
ghost use Rattle.std.specs.List.{AllByRecursion};
ghost use Rattle.cursor_word.specs.Cursor.{most_puts};
ghost use Rattle.machine.specs.Steps.{Suits, run, start_state};
ghost use Rattle.sole_core.specs.Table.{table};

use crate::phase::SolePhase;
use cursor_word::Shape;
use machine::Event;
use std::alloc::{AllocError, Global};

/// The words and the seats of a queue with a sole consumer.
pub type SoleState = machine::State<SolePhase>;

/// What is known of a seat.
pub type SoleView = machine::View<SolePhase>;

/// The state after a schedule: its events, done in order from the start.
pub fn sole_run(alloc: Global, shape: Shape, events: &[Event]) -> Result<SoleState, AllocError>
    requires suits { AllByRecursion (Suits table shape) events.now }
    requires few { length events.now < most_puts shape }
    ensures state { IfOk result (λ s. s ≡ record {
      shape = shape;
      state = run table shape (start_state _ shape) events.now;
    }) }
{
    machine::run::<SolePhase>(alloc, shape, events)
}
