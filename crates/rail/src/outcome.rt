ghost use Rattle.std.specs.Prelude.{◌≡◌, length};
ghost use Rattle.rail.specs.Items.{places};
ghost use Rattle.rail.specs.Outcome.{DropOutcome, KeepsNewest, numbers_below};

use crate::batch::Batch;
use cursor_word::Shape;

/// What the drop outcome of a queue comes to: nothing but entries of reused blocks is lost. It does
/// nothing when it runs.
pub fn law_drop_outcome(shape: &Shape, accepted: &Batch, taken: &Batch, left: &Batch)
    requires outcome { DropOutcome shape.now accepted.now.items taken.now.items left.now.items }
    requires no_gap { places accepted.now.items ≡ numbers_below (length accepted.now.items) }
    ensures newest { KeepsNewest shape.now accepted.now.items taken.now.items left.now.items }
{
    let _blocks = shape.blocks();
}
