ghost use Rattle.std.specs.Prelude.{◌≡◌, ◌++◌, false, flat_map, map, IfOk, IsPermutation};
ghost use Rattle.std.specs.List.{All};
ghost use Rattle.rail.specs.Outcome.{numbers_below};

use crate::rail::{Rail, Refused};
use std::alloc::Global;

/// Closes a queue that drops nothing: what its seats took, and what is left, is what they put.
pub fn close_without_loss<Q: Rail>(
    rail: Q,
    alloc: Global,
    seats: Vec<Q::Seat>,
) -> Result<Q::Done, Refused<Q, Q::Seat>>
    requires keeps { Q.DROPS ≡ false }
    requires seats { All (Q.PutsInto rail) seats.items }
    requires all { IsPermutation (map Q.number_of seats.items)
        (numbers_below (Q.shape_of rail).seats) }
    ensures { IfOk result (λ done. IsPermutation
        (flat_map Q.taken seats.items ++ Q.done_left done) (flat_map Q.made seats.items)) }
{
    rail.close(alloc, seats)
}
