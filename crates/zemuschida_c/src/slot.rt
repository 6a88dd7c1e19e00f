//! A place on the heap, by a pointer that C can hold.
ghost use Rattle.std.specs.Prelude.{◌≡◌, Option, Some, None};
ghost use Rattle.std.specs.Mem.{manually_drop_value};
ghost use Rattle.zemuschida_c.specs.declared.held.Held.{Held};

use crate::held::Held;
use std::alloc::Global;
use std::marker::Model;
use std::mem::ManuallyDrop;
use std::ptr::null_mut;

/// A box at the pointer, or nothing. Letting it go frees nothing.
#[repr(C)]
#[derive(Drop)]
pub struct Slot {
    at: *mut u8,
    pub ghost value: { Option Held },
}

impl Model for Slot {
    ghost use Rattle.zemuschida_c.specs.Slot.{slot_owns};

    ghost also_owns = { λ s. slot_owns s.at s.value };
}

// What lies there may be used, and given up, by any thread.
unsafe impl Send for Slot {}

impl Slot {
    pub(crate) fn empty() -> Slot
        ensures { result.value ≡ None }
    {
        Slot { at: null_mut() }
    }

    pub(crate) fn of(held: Box<ManuallyDrop<Held>>) -> Slot
        ensures { result.value ≡ Some (manually_drop_value held.value) }
    {
        let at = Box::into_raw(held) as *mut u8;
        Slot { at }
    }

    pub(crate) fn into_box(self, alloc: Global) -> Box<ManuallyDrop<Held>>
        requires { (held : Held) × (self.value ≡ Some held) }
        ensures { Some (manually_drop_value result.value) ≡ self.value }
    {
        let Slot { at } = self;
        unsafe { Box::from_raw(alloc, at as *mut ManuallyDrop<Held>) }
    }
}
