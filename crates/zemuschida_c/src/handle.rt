//! What every handle that C holds is.
ghost use Rattle.std.specs.Prelude.{◌≡◌, IfSome, IfNone, Some, None};
ghost use Rattle.std.specs.Mem.{manually_drop_value};
ghost use Rattle.zemuschida_c.specs.Held.{is_full};

use crate::held::{Kept, give_up};
use crate::slot::Slot;
use std::alloc::Global;

/// Something on the heap, or nothing. All bytes 0 is nothing.
#[repr(C)]
pub struct Handle {
    full: bool,
    alloc: Global,
    pub(crate) slot: Slot,
    ghost ok: { full ≡ is_full slot.value },
}

impl Drop for Handle {
    fn drop(self) {
        if let Some(kept) = self.into_kept() {
            give_up(kept);
        }
    }
}

impl Handle {
    pub(crate) fn none(alloc: Global) -> Handle
        ensures { result.slot.value ≡ None }
    {
        Handle {
            full: false,
            alloc,
            slot: Slot::empty(),
        }
    }

    pub(crate) fn of(alloc: Global, kept: Kept) -> Handle
        ensures { result.slot.value ≡ Some (manually_drop_value kept.value) }
    {
        Handle {
            full: true,
            alloc,
            slot: Slot::of(kept),
        }
    }

    pub(crate) fn into_kept(self) -> Option<Kept>
        ensures none { IfNone result (self.slot.value ≡ None) }
        ensures some { IfSome result
            (λ kept. self.slot.value ≡ Some (manually_drop_value kept.value)) }
    {
        let Handle { full, alloc, slot } = self;
        if full {
            Some(slot.into_box(alloc))
        } else {
            drop(slot);
            None
        }
    }
}
