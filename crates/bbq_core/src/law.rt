ghost use Rattle.std.specs.Prelude.{◌≡◌, ℕ, ◌+◌, ◌<◌, ◌≤◌, Some, length};
ghost use Rattle.std.specs.List.{AllByRecursion};
ghost use Rattle.cursor_word.specs.Cursor.{most_puts};
ghost use Rattle.bbq_core.specs.declared.phase.Phase.{Phase};
ghost use Rattle.bbq_core.specs.Types.{View};
ghost use Rattle.machine.specs.declared.op.After.TheVariants.{Next};
ghost use Rattle.bbq_core.specs.PutSteps.{IsInRange, after, rank};
ghost use Rattle.bbq_core.specs.Table.{table};
ghost use Rattle.machine.specs.Steps.{AllRest, Suits};
ghost use Rattle.machine.specs.Moments.{moment, seat_at};
ghost use Rattle.bbq_core.specs.Laws.{TakenOnce, most_steps, steps_of_phase};
ghost use Rattle.bbq_core.specs.Stage.{stage};
ghost use Rattle.put_side.specs.Laws.{BlocksAreSmall, MadeRises, PlacesAreDense, TakenIsMade, TakenRises, WordsAreSmall};
ghost use Rattle.put_side.specs.Cursors.{consumed_word};
ghost use Rattle.put_side.specs.Settled.{IsSettled};

use cursor_word::Shape;
use machine::Event;

/// At each moment of each schedule the places that were made or are held are dense, each seat's
/// made places rise, and no word overflows.
pub fn law_accepted(shape: &Shape, events: &[Event])
    requires suits { AllByRecursion (Suits table shape.now) events.now }
    requires few { length events.now < most_puts shape.now }
    ensures dense { (n : ℕ)
        → PlacesAreDense stage shape.now (moment table shape.now events.now n).views }
    ensures rising { (n : ℕ) → MadeRises (moment table shape.now events.now n).views }
    ensures small { (n : ℕ)
        → WordsAreSmall shape.now (moment table shape.now events.now n).words }
    ensures consumed { (n : ℕ) → BlocksAreSmall shape.now
        (consumed_word shape.now (moment table shape.now events.now n).words) }
{
    let _blocks = shape.blocks();
}

/// At each moment of each schedule each taken entry is a made one, no place is taken twice, and
/// each seat's taken places rise. Where all seats are at rest, what was taken are the first of the
/// accepted entries, and the words have the rest.
pub fn law_taken(shape: &Shape, events: &[Event])
    requires suits { AllByRecursion (Suits table shape.now) events.now }
    requires few { length events.now < most_puts shape.now }
    ensures made { (n : ℕ) → TakenIsMade (moment table shape.now events.now n).views }
    ensures once { (n : ℕ) → TakenOnce shape.now (moment table shape.now events.now n).views }
    ensures rising { (n : ℕ) → TakenRises (moment table shape.now events.now n).views }
    ensures outcome { (n : ℕ) → AllRest (moment table shape.now events.now n).views
        → IsSettled shape.now (moment table shape.now events.now n).words
        (moment table shape.now events.now n).views }
{
    let _blocks = shape.blocks();
}

/// In each schedule each call ends within its bound: the rank of its phase falls at each step, and
/// leaves room for the steps that follow.
pub fn law_steps(shape: &Shape, events: &[Event])
    requires suits { AllByRecursion (Suits table shape.now) events.now }
    requires few { length events.now < most_puts shape.now }
    ensures bound { (n seat : ℕ) (view : View)
        → seat_at table shape.now events.now n seat ≡ Some view
        → length view.trail ≤ most_steps shape.now view.phase view.answer }
    ensures rank { (n seat : ℕ) (view : View) (phase : Phase)
        → seat_at table shape.now events.now n seat ≡ Some view → view.phase ≡ Some phase
        → length view.trail + rank shape.now phase ≤ steps_of_phase shape.now phase }
    ensures falls { (phase next : Phase) (found : ℕ) → IsInRange shape.now phase
        → after shape.now phase found ≡ Next next
        → rank shape.now next < rank shape.now phase }
{
    let _blocks = shape.blocks();
}
