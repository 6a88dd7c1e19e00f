ghost use Rattle.std.specs.Prelude.{◌≡◌, ℕ, suc, ◌<◌, Some, length};
ghost use Rattle.std.specs.List.{AllByRecursion};
ghost use Rattle.cursor_word.specs.Cursor.{most_puts};
ghost use Rattle.rail.specs.declared.answer.Put.TheVariants as put;
ghost use Rattle.rail.specs.declared.answer.Take.TheVariants as take;
ghost use Rattle.rail.specs.declared.answer.Why.{Why};
ghost use Rattle.rail.specs.declared.answer.Why.TheVariants as why;
ghost use Rattle.cursor_word.specs.declared.cursor.Cursor.{Cursor};
ghost use Rattle.rail.specs.declared.answer.Answer.{Answer};
ghost use Rattle.rail.specs.declared.answer.Answer.TheVariants as answer;
ghost use Rattle.sole_core.specs.Types.{View};
ghost use Rattle.sole_core.specs.Table.{table};
ghost use Rattle.machine.specs.Steps.{Suits};
ghost use Rattle.machine.specs.Moments.{EndsAt, IsOverlapped, found_by, seat_at, steps_of};
ghost use Rattle.sole_core.specs.Causes.{BusyShown, EmptyShown, FullShown, PutPair, TakePair};

use cursor_word::Shape;
use machine::Event;

/// In each schedule the steps of each call show why it answers as it does.
pub fn sole_law_causes(shape: &Shape, events: &[Event])
    requires suits { AllByRecursion (Suits table shape.now) events.now }
    requires few { length events.now < most_puts shape.now }
    ensures trail { (seat n : ℕ) (view : View)
        → seat_at table shape.now events.now n seat ≡ Some view
        → found_by (steps_of table shape.now events.now seat n) ≡ view.trail }
    ensures answered { (seat n : ℕ) (view : View) (a : Answer)
        → seat_at table shape.now events.now n seat ≡ Some view → view.answer ≡ Some a
        → (i : ℕ) × (i < n) × EndsAt table shape.now events.now i seat a }
    ensures full { (i seat head : ℕ) (consumed : Cursor)
        → EndsAt table shape.now events.now i seat (answer.Put (put.Full head consumed))
        → FullShown shape.now events.now
        (steps_of table shape.now events.now seat (suc i)) head consumed }
    ensures empty { (i seat place : ℕ)
        → EndsAt table shape.now events.now i seat (answer.Take (take.Empty place))
        → EmptyShown shape.now events.now
        (steps_of table shape.now events.now seat (suc i)) place }
    ensures busy_put { (i seat : ℕ) (reason : Why)
        → EndsAt table shape.now events.now i seat (answer.Put (put.Busy reason))
        → BusyShown (PutPair reason)
        (steps_of table shape.now events.now seat (suc i)) reason }
    ensures busy_take { (i seat : ℕ) (reason : Why)
        → EndsAt table shape.now events.now i seat (answer.Take (take.Busy reason))
        → BusyShown (TakePair reason) (steps_of table shape.now events.now seat (suc i)) reason }
    ensures put_overlapped { (i seat : ℕ) (reason : Why)
        → EndsAt table shape.now events.now i seat (answer.Put (put.Busy reason))
        → IsOverlapped table shape.now events.now seat i }
    ensures take_overlapped { (i seat : ℕ) (reason : Why)
        → EndsAt table shape.now events.now i seat (answer.Take (take.Busy reason))
        → IsOverlapped table shape.now events.now seat i }
    ensures not_moved { (i seat : ℕ) (earlier later : Cursor)
        → EndsAt table shape.now events.now i seat
        (answer.Take (take.Busy (why.Moved earlier later))) → ⊥ }
    ensures overrun { (i seat place : ℕ) (now : Cursor)
        → EndsAt table shape.now events.now i seat (answer.Take (take.Overrun place now)) → ⊥ }
{
    let _blocks = shape.blocks();
}
