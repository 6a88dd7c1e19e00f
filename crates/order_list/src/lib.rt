//! The items of many batches in one list, in order of place.
#![tactic(auto)]

ghost use Rattle.std.specs.Prelude.{◌≡◌, IfOk, IsPermutation, flat_map, nat_eq};
ghost use Rattle.std.specs.List.{IsDistinct};
ghost use Rattle.rail.specs.Batch.{Gathered};
ghost use Rattle.rail.specs.Items.{IsRising, places};
ghost use Rattle.order_list.specs.Whole.{all_items};

use rail::{Batch, Placed};
use std::alloc::{AllocError, Global};

/// The items of all batches and of what was left, in order of place.
pub fn gather(alloc: Global, batches: &[Batch], left: &Batch) -> Result<Batch, AllocError>
    requires apart { IsDistinct nat_eq (places (all_items batches.now left.now)) }
    ensures order { IfOk result (λ list. IsRising (places list.items)) }
    ensures all { IfOk result (λ list. IsPermutation (all_items batches.now left.now) list.items) }
{
    let mut items = copied(alloc, batches)?;
    items.extend_from_slice(left.as_slice())?;
    items.sort_unstable_by_key(|item: &Placed| item.place);
    Ok(Batch::from_vec(items))
}

// The items of all batches, one batch after the other.
fn copied(alloc: Global, batches: &[Batch]) -> Result<Vec<Placed>, AllocError>
    ensures { IfOk result
        (λ items. items.items ≡ flat_map (λ (b : Gathered). b.items) batches.now) }
{
    let mut items = Vec::new(alloc);
    for batch in batches {
        items.extend_from_slice(batch.as_slice())?;
    }
    Ok(items)
}
