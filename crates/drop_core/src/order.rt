ghost use Rattle.std.specs.Prelude.{◌<◌, length};
ghost use Rattle.std.specs.List.{AllByRecursion};
ghost use Rattle.cursor_word.specs.Cursor.{most_puts};
ghost use Rattle.rail.specs.declared.answer.Answer.TheVariants as answer;
ghost use Rattle.rail.specs.declared.answer.Put.TheVariants as put;
ghost use Rattle.machine.specs.Steps.{Suits};
ghost use Rattle.machine.specs.Moments.{IsInOrder};
ghost use Rattle.drop_core.specs.Steps.{table};

use cursor_word::Shape;
use machine::Event;

/// In each schedule a put that begins after another has ended has a place behind it.
pub fn drop_law_order(shape: &Shape, events: &[Event])
    requires suits { AllByRecursion (Suits table shape.now) events.now }
    requires few { length events.now < most_puts shape.now }
    ensures puts { IsInOrder table shape.now events.now (λ p. answer.Put (put.Ok p)) }
{
    let _blocks = shape.blocks();
}
