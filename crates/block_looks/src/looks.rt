ghost use Rattle.block_looks.specs.Looks.{LooksHold, no_looks};

use crate::look::LookPhase;
use cursor_word::Cursor;
use drop_core::DropPhase;
use rail::Placed;
use shared_seats::Memory;
use std::collections::LinkedList;

/// What a seat remembers of its looks: where its look stands, the block and count of its last whole
/// look at a block, what it has looked at, the cursor of its last look at an entry, and the values
/// that the steps of its last look found. No value of it is made.
pub struct Looks {
    pub phase: Option<LookPhase>,
    pub looking: Option<Cursor>,
    pub looked: LinkedList<Placed>,
    pub look_at: Option<Cursor>,
    pub look_trail: LinkedList<u64>,
}

impl Memory<DropPhase> for Looks {
    ghost none = { no_looks };

    ghost Knows = { LooksHold };

    fn lasts() {}
}
