//! Batches and a left list, gathered.
ghost use Rattle.std.specs.Prelude.{◌≡◌, ◌*◌, ◌<◌, ◌∷◌, [], IfOk};
ghost use Rattle.rail.specs.Items.{placed};

use order_list::gather;
use rail::{Batch, Entry, Placed};
use std::alloc::{AllocError, Global};
use std::test::Fail;

// A batch of one item, whose word is ten times its place.
fn batch_of(alloc: Global, place: u64) -> Result<Batch, AllocError>
    requires { place < 100 }
    ensures { IfOk result (λ batch. batch.items ≡ placed place (10 * place ∷ []) ∷ []) }
{
    let mut batch = Batch::with_room(alloc, 1)?;
    batch.push(Placed {
        place,
        words: Entry::new(&[10 * place]),
    });
    Ok(batch)
}

#[test]
fn gathers_in_order_of_place(rt: HostRuntime) -> Result<(), Fail> {
    let batches = [
        batch_of(rt.alloc(), 2)?,
        batch_of(rt.alloc(), 0)?,
        batch_of(rt.alloc(), 1)?,
    ];
    let left = batch_of(rt.alloc(), 3)?;
    let list = gather(rt.alloc(), &batches, &left)?;
    assert_eq!(rt; list.len(), 4);
    for (index, item) in list.as_slice().iter().enumerate() {
        assert_eq!(rt; item.place, index as u64);
        assert_eq!(rt; item.words.words(), [10 * index as u64].as_slice());
    }
    Ok(())
}
