ghost use Rattle.std.specs.Prelude.{◌≡◌, ℕ, ◌+◌, ◌<◌, ◌≤◌, Some, length, slice_get};
ghost use Rattle.std.specs.List.{AllByRecursion};
ghost use Rattle.drop_core.specs.declared.phase.DropPhase.{DropPhase};
ghost use Rattle.drop_core.specs.Types.{View};
ghost use Rattle.machine.specs.declared.op.After.TheVariants.{Next};
ghost use Rattle.drop_core.specs.PutSteps.{IsInRange, after, rank};
ghost use Rattle.drop_core.specs.Steps.{table};
ghost use Rattle.machine.specs.Steps.{AllRest, Suits};
ghost use Rattle.machine.specs.Moments.{moment};
ghost use Rattle.drop_core.specs.Gathered.{IsSettled};
ghost use Rattle.cursor_word.specs.Cursor.{most_puts};
ghost use Rattle.drop_core.specs.Laws.{TakenOnce, most_steps, steps_of_phase};
ghost use Rattle.drop_core.specs.Stage.{stage};
ghost use Rattle.put_side.specs.Laws.{MadeRises, PlacesAreDense, TakenIsMade, TakenRises, WordsAreSmall};

use cursor_word::Shape;
use machine::Event;

/// At each moment of each schedule the places that were made or are held are dense, each seat's
/// made places rise, and no word overflows.
pub fn drop_law_accepted(shape: &Shape, events: &[Event])
    requires suits { AllByRecursion (Suits table shape.now) events.now }
    requires few { length events.now < most_puts shape.now }
    ensures dense { (n : ℕ)
        → PlacesAreDense stage shape.now (moment table shape.now events.now n).views }
    ensures rising { (n : ℕ) → MadeRises (moment table shape.now events.now n).views }
    ensures small { (n : ℕ) → WordsAreSmall shape.now (moment table shape.now events.now n).words }
{
    let _blocks = shape.blocks();
}

/// At each moment of each schedule each taken entry is a made one, no place is taken twice, and
/// each seat's taken places rise. Where all seats are at rest, the accepted entries of the blocks
/// that aren't reused and weren't taken stand in the words.
pub fn drop_law_taken(shape: &Shape, events: &[Event])
    requires suits { AllByRecursion (Suits table shape.now) events.now }
    requires few { length events.now < most_puts shape.now }
    ensures made { (n : ℕ) → TakenIsMade (moment table shape.now events.now n).views }
    ensures once { (n : ℕ) → TakenOnce shape.now (moment table shape.now events.now n).views }
    ensures rising { (n : ℕ) → TakenRises (moment table shape.now events.now n).views }
    ensures outcome { (n : ℕ) → AllRest (moment table shape.now events.now n).views
        → IsSettled shape.now (moment table shape.now events.now n) }
{
    let _blocks = shape.blocks();
}

/// In each schedule each call ends within its bound: the rank of its phase falls at each step, and
/// leaves room for the steps that follow.
pub fn drop_law_steps(shape: &Shape, events: &[Event])
    requires suits { AllByRecursion (Suits table shape.now) events.now }
    requires few { length events.now < most_puts shape.now }
    ensures bound { (n seat : ℕ) (view : View)
        → slice_get (moment table shape.now events.now n).views seat ≡ Some view
        → length view.trail ≤ most_steps shape.now view.phase view.answer }
    ensures rank { (n seat : ℕ) (view : View) (phase : DropPhase)
        → slice_get (moment table shape.now events.now n).views seat ≡ Some view
        → view.phase ≡ Some phase
        → length view.trail + rank shape.now phase ≤ steps_of_phase shape.now phase }
    ensures falls { (phase next : DropPhase) (found : ℕ) → IsInRange shape.now phase
        → after shape.now phase found ≡ Next next
        → rank shape.now next < rank shape.now phase }
{
    let _blocks = shape.blocks();
}
