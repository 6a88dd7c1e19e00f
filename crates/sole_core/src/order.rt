ghost use Rattle.std.specs.Prelude.{◌≢◌, ℕ, ◌<◌, ◌≤◌, length};
ghost use Rattle.std.specs.List.{AllByRecursion, sum_by};
ghost use Rattle.cursor_word.specs.Cursor.{most_puts};
ghost use Rattle.rail.specs.declared.answer.Answer.TheVariants as answer;
ghost use Rattle.rail.specs.declared.answer.Put.TheVariants as put;
ghost use Rattle.rail.specs.declared.answer.Take.TheVariants as take;
ghost use Rattle.machine.specs.Steps.{Suits};
ghost use Rattle.machine.specs.Moments.{EndsAt, IsInOrder, IsLaterCall, moment};
ghost use Rattle.put_side.specs.Counts.{takes};
ghost use Rattle.sole_core.specs.Table.{table};

use cursor_word::Shape;
use machine::Event;

/// In each schedule a put that begins after another has ended has a place behind it, and so has a
/// take. A take that begins after a put has ended, and finds the queue empty, isn't told of that
/// put's place; where it is told of a later one, that put's entry was taken.
pub fn sole_law_order(shape: &Shape, events: &[Event])
    requires suits { AllByRecursion (Suits table shape.now) events.now }
    requires few { length events.now < most_puts shape.now }
    ensures puts { IsInOrder table shape.now events.now (λ p. answer.Put (put.Ok p)) }
    ensures takes { IsInOrder table shape.now events.now (λ p. answer.Take (take.Ok p)) }
    ensures empty { (i seat p j other place : ℕ)
        → EndsAt table shape.now events.now i seat (answer.Put (put.Ok p))
        → IsLaterCall table shape.now events.now i j other (answer.Take (take.Empty place))
        → (place ≢ p) × (p < place
        → 1 ≤ sum_by (takes p) (moment table shape.now events.now j).views) }
{
    let _blocks = shape.blocks();
}
