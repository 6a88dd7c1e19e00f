ghost use Rattle.std.specs.Prelude.{◌≡◌, ℕ, ◌<◌, None, length};
ghost use Rattle.std.specs.List.{AllByRecursion};
ghost use Rattle.cursor_word.specs.Cursor.{most_puts};
ghost use Rattle.machine.specs.declared.event.Start.{Start};
ghost use Rattle.sole_core.specs.Table.{table};
ghost use Rattle.machine.specs.Steps.{Suits};
ghost use Rattle.sole_core.specs.Rest.{AnsweredAsOne};
ghost use Rattle.machine.specs.Moments.{IsCall, IsDoneAlone, IsUnmixed, phase_of};

use cursor_word::Shape;
use machine::Event;

/// In each schedule a call that begins where all seats are at rest answers as the queue of one
/// thread does, by what was made and taken there: where no other seat has a turn before it ends,
/// and also where others have, while none of them is in mid-call at one of the call's moments. A
/// take may end by its first step, so that it has no moments: it may answer otherwise where it
/// begins while a put is in mid-call.
pub fn sole_law_rest(shape: &Shape, events: &[Event])
    requires suits { AllByRecursion (Suits table shape.now) events.now }
    requires few { length events.now < most_puts shape.now }
    ensures alone { (seat n m : ℕ) (begins : Start)
        → IsCall table shape.now events.now seat n m begins
        → IsDoneAlone table shape.now events.now seat n m
        → AnsweredAsOne shape.now events.now seat n m begins }
    ensures unmixed { (seat n m : ℕ) (begins : Start)
        → IsCall table shape.now events.now seat n m begins
        → ((j : ℕ) → phase_of table shape.now events.now n j ≡ None)
        → IsUnmixed table shape.now events.now seat n m
        → AnsweredAsOne shape.now events.now seat n m begins }
{
    let _blocks = shape.blocks();
}
