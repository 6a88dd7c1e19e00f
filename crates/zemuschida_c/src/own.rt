//! A seat with its queue.
ghost use Rattle.std.specs.Prelude.{◌≡◌, ◌≢◌, ◌<◌, ◌≤◌, length, slice_index};
ghost use Rattle.std.specs.Arc.{arc_value};
ghost use Rattle.cursor_word.specs.Cursor.{most_puts};
ghost use Rattle.cursor_word.specs.Shape.{IsWithinLimits};
ghost use Rattle.block_looks.specs.Shown.{IsNewest};
ghost use Rattle.block_looks.specs.declared.look.LookAfter.TheVariants as after;
ghost use Rattle.block_looks.specs.declared.look.LookPhase.TheVariants as phase;
ghost use Rattle.drop_rail.specs.Looking.{HasLooked};
ghost use Rattle.flight_view.specs.Views.{HasWalked};
ghost use Rattle.zemuschida_c.specs.Calls.{GivesPut, GivesTake};
ghost use Rattle.zemuschida_c.specs.Codes.{bad_block, spent, wrong_width};
ghost use Rattle.zemuschida_c.specs.Looked.{HasLookedAtBlock, HasLookedAtEntry};

use crate::answer::{
    BAD_BLOCK, EMPTY, OK, OVERRUN, SPENT, WIDTH, ZemAnswer, ZemLook, give_look, give_put,
    give_take, show,
};
use cursor_word::{Cursor, Shape};
use drop_rail::{DropRail, Look, Seen};
use flight_view::{View, flight_view};
use rail::Rail;
use std::alloc::{AllocError, Global};
use std::marker::Model;
use std::sync::Arc;

/// A seat, and an owner of the queue that it was made with.
#[derive(Drop)]
pub struct OwnSeat<Q: Rail> {
    rail: Arc<Q, Global>,
    seat: Q::Seat,
    // keeps the counts of two seats off one cache line
    apart: [u64; 12],
}

impl<Q: Rail> Model for OwnSeat<Q> {
    ghost use Rattle.std.specs.Arc.{arc_value};
    ghost use Rattle.zemuschida_c.specs.Owned.{Owned};

    ghost Value = { Owned Q Q.Seat };

    ghost view = { λ s. record { rail = arc_value s.rail; seat = s.seat } };

    ghost invariant = { λ s. Q.PutsInto (arc_value s.rail) s.seat };
}

impl<Q: Rail> OwnSeat<Q> {
    pub(crate) fn of(rail: Arc<Q, Global>, seat: Q::Seat) -> OwnSeat<Q>
        requires { Q.PutsInto (arc_value rail) seat }
        ensures rail { result.rail ≡ arc_value rail }
        ensures seat { result.seat ≡ seat }
    {
        OwnSeat {
            rail,
            seat,
            apart: [0; 12],
        }
    }

    /// The seat was made with the queue. It does nothing when it runs.
    #[inline(always)]
    pub(crate) fn sits(&self)
        ensures { Q.PutsInto self.now.rail self.now.seat }
    {
        let _rail = &self.rail;
    }

    /// The shape of its queue.
    pub(crate) fn shape(&self) -> Shape
        ensures shape { result ≡ Q.shape_of self.now.rail }
        ensures limits { IsWithinLimits result }
    {
        self.rail.shape()
    }

    /// The seat alone.
    pub(crate) fn seat(&self) -> &Q::Seat
        ensures { result.now ≡ self.now.seat }
    {
        &self.seat
    }

    /// The seat, and what owned its queue.
    pub(crate) fn into_parts(self) -> (Arc<Q, Global>, Q::Seat)
        ensures rail { arc_value result.0 ≡ self.rail }
        ensures seat { result.1 ≡ self.seat }
    {
        let OwnSeat { rail, seat, .. } = self;
        (rail, seat)
    }

    /// Puts an entry of the queue's width, where the seat isn't spent.
    #[inline(always)]
    pub(crate) fn put(&mut self, entry: &[u64], answer: &mut ZemAnswer) -> u32
        ensures rail { self.new.rail ≡ self.old.rail }
        ensures number { Q.number_of self.new.seat ≡ Q.number_of self.old.seat }
        ensures taken { Q.taken self.new.seat ≡ Q.taken self.old.seat }
        ensures width { length entry.now ≢ (Q.shape_of self.old.rail).width
            → (result ≡ wrong_width) × (self.new ≡ self.old) × (answer.new ≡ answer.old) }
        ensures spent { length entry.now ≡ (Q.shape_of self.old.rail).width
            → most_puts (Q.shape_of self.old.rail) ≤ length (Q.made self.old.seat)
            → (result ≡ spent) × (self.new ≡ self.old) × (answer.new ≡ answer.old) }
        ensures puts { length entry.now ≡ (Q.shape_of self.old.rail).width
            → length (Q.made self.old.seat) < most_puts (Q.shape_of self.old.rail)
            → GivesPut (Q.shape_of self.old.rail) Q.DROPS entry.now (Q.made self.old.seat)
            (Q.made self.new.seat) (Q.told self.new.seat).found result answer.new }
    {
        let shape = self.rail.shape();
        if entry.len() as u64 != shape.width() {
            return WIDTH;
        }
        if Q::puts(&self.seat) >= shape.most_puts() {
            return SPENT;
        }
        give_put(&self.rail.put(&mut self.seat, entry), answer)
    }

    /// Takes an entry into words of the queue's width.
    #[inline(always)]
    pub(crate) fn take(&mut self, out: &mut [u64], answer: &mut ZemAnswer) -> u32
        requires { Q.TakesFrom self.old.rail self.old.seat }
        ensures rail { self.new.rail ≡ self.old.rail }
        ensures number { Q.number_of self.new.seat ≡ Q.number_of self.old.seat }
        ensures made { Q.made self.new.seat ≡ Q.made self.old.seat }
        ensures width { length out.old ≢ (Q.shape_of self.old.rail).width
            → (result ≡ wrong_width) × (self.new ≡ self.old) × (out.new ≡ out.old)
            × (answer.new ≡ answer.old) }
        ensures takes { length out.old ≡ (Q.shape_of self.old.rail).width
            → GivesTake (Q.shape_of self.old.rail) Q.DROPS (Q.made self.new.seat) out.old out.new
            (Q.taken self.old.seat) (Q.taken self.new.seat) (Q.told self.new.seat).found result
            answer.new }
    {
        if out.len() as u64 != self.rail.shape().width() {
            return WIDTH;
        }
        give_take(&self.rail.take(&mut self.seat, out), answer)
    }
}

impl OwnSeat<DropRail> {
    /// A view of the queue.
    pub(crate) fn view(&mut self, alloc: Global) -> Result<View, AllocError>
        ensures rail { self.new.rail ≡ self.old.rail }
        ensures walk { HasWalked self.old.rail.shape self.old.seat self.new.seat result }
    {
        flight_view(alloc, &self.rail, &mut self.seat)
    }

    /// Looks at the head of the queue.
    pub(crate) fn look_head(&mut self) -> Cursor
        ensures rail { self.new.rail ≡ self.old.rail }
        ensures look { HasLooked self.old.rail.shape self.old.seat self.new.seat phase.Head
            (after.Head result) }
        ensures newest { IsNewest self.old.rail.shape self.new.seat.view.made
            (slice_index self.new.seat.memory.look_trail 0) result }
    {
        self.rail.look_head(&mut self.seat)
    }

    /// Looks at a block.
    pub(crate) fn look_block(&mut self, block: u64, look: &mut ZemLook) -> u32
        ensures rail { self.new.rail ≡ self.old.rail }
        ensures block { block < self.old.rail.shape.blocks
            → (result ≡ bad_block) × (self.new ≡ self.old) × (look.new ≡ look.old) }
        ensures look { self.old.rail.shape.blocks ≤ block
            → HasLookedAtBlock self.old self.new block result look.new }
    {
        if block < self.rail.shape().blocks() {
            return BAD_BLOCK;
        }
        let found = self.rail.look_block(&mut self.seat, block);
        give_look(&found, look)
    }

    /// Looks at a block, and then at one of its entries.
    pub(crate) fn look_entry(&mut self, at: Cursor, out: &mut [u64], look: &mut ZemLook) -> u32
        ensures rail { self.new.rail ≡ self.old.rail }
        ensures width { length out.old ≢ self.old.rail.shape.width → (result ≡ wrong_width)
            × (self.new ≡ self.old) × (out.new ≡ out.old) × (look.new ≡ look.old) }
        ensures block { length out.old ≡ self.old.rail.shape.width
            → at.block < self.old.rail.shape.blocks → (result ≡ bad_block)
            × (self.new ≡ self.old) × (out.new ≡ out.old) × (look.new ≡ look.old) }
        ensures look { length out.old ≡ self.old.rail.shape.width
            → self.old.rail.shape.blocks ≤ at.block
            → HasLookedAtEntry self.old self.new at out.old out.new result look.new }
    {
        let shape = self.rail.shape();
        if out.len() as u64 != shape.width() {
            return WIDTH;
        }
        if at.block < shape.blocks() {
            return BAD_BLOCK;
        }
        let found = self.rail.look_block(&mut self.seat, at.block);
        let code = give_look(&found, look);
        let Look::Whole {
            count,
            committed,
            ..
        } = found
        else {
            return code;
        };
        if committed.block != at.block || at.offset >= count {
            return EMPTY;
        }
        match self.rail.look_entry(&mut self.seat, at, out) {
            Seen::Whole => OK,
            Seen::Reused { now } => {
                look.allocated = show(now);
                OVERRUN
            }
        }
    }
}
