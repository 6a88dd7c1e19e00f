ghost use Rattle.std.specs.Prelude.{ℕ, ◌<◌, length};
ghost use Rattle.std.specs.List.{AllByRecursion};
ghost use Rattle.cursor_word.specs.Cursor.{most_puts};
ghost use Rattle.machine.specs.declared.event.Start.{Start};
ghost use Rattle.bbq_core.specs.Table.{table};
ghost use Rattle.machine.specs.Steps.{Suits};
ghost use Rattle.bbq_core.specs.Rest.{AnsweredAsOne};
ghost use Rattle.machine.specs.Moments.{IsCall, IsDoneAlone, IsUnmixed};

use cursor_word::Shape;
use machine::Event;

/// In each schedule a call that is done alone answers as the queue of one thread does, by what was
/// made and taken where the call began. That holds too where other seats have turns, while none of
/// them is in mid-call after the call's first step and before its last.
pub fn law_rest(shape: &Shape, events: &[Event])
    requires suits { AllByRecursion (Suits table shape.now) events.now }
    requires few { length events.now < most_puts shape.now }
    ensures alone { (seat n m : ℕ) (begins : Start)
        → IsCall table shape.now events.now seat n m begins
        → IsDoneAlone table shape.now events.now seat n m
        → AnsweredAsOne shape.now events.now seat n m begins }
    ensures unmixed { (seat n m : ℕ) (begins : Start)
        → IsCall table shape.now events.now seat n m begins
        → IsUnmixed table shape.now events.now seat n m
        → AnsweredAsOne shape.now events.now seat n m begins }
{
    let _blocks = shape.blocks();
}
