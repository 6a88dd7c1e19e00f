//! What a closed queue had, as C reads it.
ghost use Rattle.std.specs.Prelude.{◌≡◌, ◌≢◌, ◌≤◌, IfNone, IfSome, None, Some, length, slice_get, true};
ghost use Rattle.std.specs.Mem.{manually_drop_value};
ghost use Rattle.rail.specs.declared.entry.Placed.{Placed};
ghost use Rattle.zemuschida_c.specs.Closed.{HasClosed, in_closed};
ghost use Rattle.zemuschida_c.specs.Codes.{empty, no_seat, ok, wrong_width};
ghost use Rattle.zemuschida_c.specs.Held.{is_closed};
ghost use Rattle.zemuschida_c.specs.declared.ended.Ended.{Ended};
ghost use Rattle.zemuschida_c.specs.declared.held.Held.TheVariants as kinds;

use crate::answer::{CLOSED, EMPTY, OK, WIDTH};
use crate::ended::Ended;
use crate::handle::Handle;
use crate::held::{Held, Kept};
use crate::kinds::ZemClosed;
use std::alloc::Global;
use std::mem::replace;

/// How many entries a closed queue had accepted, and how many of them were left.
#[repr(C)]
#[derive(Clone, Copy)]
pub struct ZemCounts {
    pub accepted: u64,
    pub left: u64,
}

impl ZemClosed {
    fn none(alloc: Global) -> ZemClosed
        ensures { in_closed result ≡ None }
    {
        ZemClosed {
            handle: Handle::none(alloc),
        }
    }

    pub(crate) fn of(alloc: Global, kept: Kept) -> ZemClosed
        requires { is_closed (manually_drop_value kept.value) ≡ true }
        ensures { in_closed result ≡ Some (manually_drop_value kept.value) }
    {
        ZemClosed {
            handle: Handle::of(alloc, kept),
        }
    }

    // What the handle has, which leaves nothing behind.
    fn take_out(&mut self, alloc: Global) -> Option<Kept>
        ensures new { in_closed self.new ≡ None }
        ensures none { IfNone result (in_closed self.old ≡ None) }
        ensures some { IfSome result (λ kept. in_closed self.old
            ≡ Some (manually_drop_value kept.value)) }
        ensures kind { IfSome result (λ kept. is_closed (manually_drop_value kept.value) ≡ true) }
    {
        let ZemClosed { handle } = replace(self, ZemClosed::none(alloc));
        handle.into_kept()
    }
}

/// Tells how many entries a closed queue had accepted, and how many were left.
#[unsafe(no_mangle)]
pub extern "C" fn zem_counts(alloc: Global, closed: &mut ZemClosed, counts: &mut ZemCounts) -> u32
    ensures none { in_closed closed.old ≡ None → (result ≡ no_seat)
        × (in_closed closed.new ≡ None) × (counts.new ≡ counts.old) }
    ensures counts { (e : Ended) → HasClosed closed.old e → (result ≡ ok)
        × HasClosed closed.new e
        × (counts.new ≡ record { accepted = e.accepted; left = length e.left.items }) }
{
    match closed.take_out(alloc) {
        None => CLOSED,
        Some(kept) => {
            *counts = counts_of(&kept);
            *closed = ZemClosed::of(alloc, kept);
            OK
        }
    }
}

fn counts_of(held: &Held) -> ZemCounts
    requires { is_closed held.now ≡ true }
    ensures { (e : Ended) → held.now ≡ kinds.Closed e
        → result ≡ record { accepted = e.accepted; left = length e.left.items } }
{
    match held {
        Held::Closed(ended) => ZemCounts {
            accepted: ended.accepted,
            left: ended.left.len() as u64,
        },
        _ => unreachable!(),
    }
}

/// Copies one of the entries that were left, by its number from 0 on in order of place.
#[unsafe(no_mangle)]
pub extern "C" fn zem_left(
    alloc: Global,
    closed: &mut ZemClosed,
    number: usize,
    out: &mut [u64],
    place: &mut u64,
) -> u32
    ensures none { in_closed closed.old ≡ None → (result ≡ no_seat)
        × (in_closed closed.new ≡ None) × (out.new ≡ out.old) × (place.new ≡ place.old) }
    ensures empty { (e : Ended) → HasClosed closed.old e → length e.left.items ≤ number
        → (result ≡ empty) × HasClosed closed.new e × (out.new ≡ out.old)
        × (place.new ≡ place.old) }
    ensures width { (e : Ended) → HasClosed closed.old e → (item : Placed)
        → slice_get e.left.items number ≡ Some item → length out.old ≢ length item.words
        → (result ≡ wrong_width) × HasClosed closed.new e × (out.new ≡ out.old)
        × (place.new ≡ place.old) }
    ensures entry { (e : Ended) → HasClosed closed.old e → (item : Placed)
        → slice_get e.left.items number ≡ Some item → length out.old ≡ length item.words
        → (result ≡ ok) × HasClosed closed.new e × (out.new ≡ item.words)
        × (place.new ≡ item.place) }
{
    match closed.take_out(alloc) {
        None => CLOSED,
        Some(kept) => {
            let code = copy_left(&kept, number, out, place);
            *closed = ZemClosed::of(alloc, kept);
            code
        }
    }
}

fn copy_left(held: &Held, number: usize, out: &mut [u64], place: &mut u64) -> u32
    requires { is_closed held.now ≡ true }
    ensures empty { (e : Ended) → held.now ≡ kinds.Closed e → length e.left.items ≤ number
        → (result ≡ empty) × (out.new ≡ out.old) × (place.new ≡ place.old) }
    ensures width { (e : Ended) → held.now ≡ kinds.Closed e → (item : Placed)
        → slice_get e.left.items number ≡ Some item → length out.old ≢ length item.words
        → (result ≡ wrong_width) × (out.new ≡ out.old) × (place.new ≡ place.old) }
    ensures entry { (e : Ended) → held.now ≡ kinds.Closed e → (item : Placed)
        → slice_get e.left.items number ≡ Some item → length out.old ≡ length item.words
        → (result ≡ ok) × (out.new ≡ item.words) × (place.new ≡ item.place) }
{
    match held {
        Held::Closed(ended) => match ended.left.get(number) {
            None => EMPTY,
            Some(item) => {
                let words = item.words.words();
                if out.len() != words.len() {
                    return WIDTH;
                }
                out.copy_from_slice(words);
                *place = item.place;
                OK
            }
        },
        _ => unreachable!(),
    }
}

/// Gives up what a closed queue had.
#[unsafe(no_mangle)]
pub extern "C" fn zem_done(alloc: Global, closed: &mut ZemClosed)
    ensures { in_closed closed.new ≡ None }
{
    *closed = ZemClosed::none(alloc);
}
