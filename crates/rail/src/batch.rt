ghost use Rattle.std.specs.Prelude.{◌≡◌, ◌+◌, ◌-◌, ◌≤◌, ◌<◌, ◌∷◌, ◌++◌, [], length, drop, IfOk, IsNone, IfSome, OnOk, OnErr, slice_get, Some, ◌↔◌};

use crate::entry::Placed;
use std::alloc::{AllocError, Global};
use std::marker::Model;

/// Placed entries, and room for some more.
#[derive(Drop)]
pub struct Batch {
    items: Vec<Placed>,
    spare: usize,
}

impl Model for Batch {
    ghost use Rattle.std.specs.Prelude.{◌+◌, ◌≤◌, vec_len, vec_capacity};
    ghost use Rattle.rail.specs.Batch.{Gathered};

    ghost Value = { Gathered };

    ghost view = { λ b. record { items = b.items.items; spare = b.spare } };

    ghost invariant = { λ b. vec_len b.items + b.spare ≤ vec_capacity b.items };
}

impl Batch {
    /// Empty, with no room.
    pub fn new(alloc: Global) -> Batch
        ensures { result ≡ record { items = []; spare = 0 } }
    {
        Batch {
            items: Vec::new(alloc),
            spare: 0,
        }
    }

    /// Empty, with room for so many.
    pub fn with_room(alloc: Global, room: usize) -> Result<Batch, AllocError>
        ensures { IfOk result (λ batch. batch ≡ record { items = []; spare = room }) }
    {
        Ok(Batch {
            items: Vec::with_capacity(alloc, room)?,
            spare: room,
        })
    }

    /// The items of a list, with no room.
    pub fn from_vec(items: Vec<Placed>) -> Batch
        ensures { result ≡ record { items = items.items; spare = 0 } }
    {
        Batch { items, spare: 0 }
    }

    /// Makes room for one more.
    pub fn reserve_one(&mut self) -> Result<(), AllocError>
        ensures items { self.new.items ≡ self.old.items }
        ensures spare { self.old.spare ≤ self.new.spare }
        ensures ok { OnOk result (1 ≤ self.new.spare) }
        ensures err { OnErr result (self.new ≡ self.old) }
    {
        if self.spare == 0 {
            self.items.reserve(1)?;
            self.spare = 1;
        }
        Ok(())
    }

    /// Puts an item at the end.
    pub fn push(&mut self, item: Placed)
        requires { 1 ≤ self.old.spare }
        ensures items { self.new.items ≡ self.old.items ++ item ∷ [] }
        ensures spare { self.new.spare ≡ self.old.spare - 1 }
    {
        match self.items.push(item) {
            Ok(()) => self.spare -= 1,
            Err(_) => unreachable!(),
        }
    }

    /// How many items there are.
    pub fn len(&self) -> usize
        ensures { result ≡ length self.now.items }
    {
        self.items.len()
    }

    /// All items in order.
    pub fn as_slice(&self) -> &[Placed]
        ensures { result.now ≡ self.now.items }
    {
        &self.items
    }

    /// The item at an index.
    pub fn get(&self, index: usize) -> Option<&Placed>
        ensures none { IsNone result ↔ (length self.now.items ≤ index) }
        ensures some { IfSome result (λ item. slice_get self.now.items index ≡ Some item.now) }
    {
        self.items.get(index)
    }

    /// Puts at the end what another batch has from an index on.
    pub fn push_from(&mut self, other: &Batch, from: usize)
        requires from { from ≤ length other.now.items }
        requires room { length other.now.items ≤ from + self.old.spare }
        ensures items { self.new.items ≡ self.old.items ++ drop from other.now.items }
        ensures spare { self.new.spare + length other.now.items ≡ self.old.spare + from }
    {
        for item in &other.items[from..] {
            self.push(*item);
        }
    }
}
