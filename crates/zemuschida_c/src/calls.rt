//! Puts and takes by a handle of any kind.
ghost use Rattle.std.specs.Prelude.{◌≡◌, ◌≢◌, ◌<◌, ◌≤◌, Bool, IfNone, IfSome, None, Option, Some, length, true};
ghost use Rattle.std.specs.Mem.{manually_drop_value};
ghost use Rattle.cursor_word.specs.Cursor.{most_puts};
ghost use Rattle.zemuschida_c.specs.Calls.{HasPut, HasTaken};
ghost use Rattle.zemuschida_c.specs.Codes.{no_seat, spent, wrong_width};
ghost use Rattle.zemuschida_c.specs.Owned.{SeatOf};
ghost use Rattle.zemuschida_c.specs.declared.held.Held.{Held};

use crate::answer::{CLOSED, ZemAnswer};
use crate::held::{Held, Kept};
use std::alloc::Global;
use std::mem::replace;

/// What C holds of a seat of one kind, or of none.
pub trait SeatHandle: Sized + Drop {
    /// The phases of its queue's calls, and what a seat remembers beside them.
    type Phase;

    type Memory;

    /// Whether its queue drops its oldest entries.
    ghost drops: { Bool };

    /// The seat, as it lies behind a handle.
    ghost kind: { SeatOf Self.Phase Self.Memory → Held };

    ghost is_kind: { Held → Bool };

    /// What the handle has.
    ghost value: { Self → Option Held };

    fn none(alloc: Global) -> Self
        ensures { value result ≡ None };

    fn of(alloc: Global, kept: Kept) -> Self
        requires { is_kind (manually_drop_value kept.value) ≡ true }
        ensures { value result ≡ Some (manually_drop_value kept.value) };

    fn into_kept(self) -> Option<Kept>
        ensures none { IfNone result (value self ≡ None) }
        ensures some { IfSome result (λ kept. value self ≡ Some (manually_drop_value kept.value)) }
        ensures kind { IfSome result (λ kept. is_kind (manually_drop_value kept.value) ≡ true) };
}

/// A handle whose seat puts.
pub trait Putting: SeatHandle {
    fn put_held(held: &mut Held, entry: &[u64], answer: &mut ZemAnswer) -> u32
        requires { Self.is_kind held.old ≡ true }
        ensures kind { Self.is_kind held.new ≡ true }
        ensures width { (s : SeatOf Self.Phase Self.Memory) → held.old ≡ Self.kind s
            → length entry.now ≢ s.rail.shape.width
            → (result ≡ wrong_width) × (held.new ≡ held.old) × (answer.new ≡ answer.old) }
        ensures spent { (s : SeatOf Self.Phase Self.Memory) → held.old ≡ Self.kind s
            → length entry.now ≡ s.rail.shape.width
            → most_puts s.rail.shape ≤ length s.seat.view.made
            → (result ≡ spent) × (held.new ≡ held.old) × (answer.new ≡ answer.old) }
        ensures puts { (s : SeatOf Self.Phase Self.Memory) → held.old ≡ Self.kind s
            → length entry.now ≡ s.rail.shape.width
            → length s.seat.view.made < most_puts s.rail.shape
            → (t : SeatOf Self.Phase Self.Memory) × (held.new ≡ Self.kind t)
            × HasPut Self.drops s t entry.now result answer.new };
}

/// A handle whose seat takes.
pub trait Taking: SeatHandle {
    fn take_held(held: &mut Held, out: &mut [u64], answer: &mut ZemAnswer) -> u32
        requires { Self.is_kind held.old ≡ true }
        ensures kind { Self.is_kind held.new ≡ true }
        ensures width { (s : SeatOf Self.Phase Self.Memory) → held.old ≡ Self.kind s
            → length out.old ≢ s.rail.shape.width
            → (result ≡ wrong_width) × (held.new ≡ held.old) × (out.new ≡ out.old)
            × (answer.new ≡ answer.old) }
        ensures takes { (s : SeatOf Self.Phase Self.Memory) → held.old ≡ Self.kind s
            → length out.old ≡ s.rail.shape.width
            → (t : SeatOf Self.Phase Self.Memory) × (held.new ≡ Self.kind t)
            × HasTaken Self.drops s t out.old out.new result answer.new };
}

/// What the handle has, which leaves none behind.
#[inline(always)]
pub(crate) fn take_out<H: SeatHandle>(alloc: Global, handle: &mut H) -> Option<Kept>
    ensures new { H.value handle.new ≡ None }
    ensures none { IfNone result (H.value handle.old ≡ None) }
    ensures some { IfSome result (λ kept. H.value handle.old
        ≡ Some (manually_drop_value kept.value)) }
    ensures kind { IfSome result (λ kept. H.is_kind (manually_drop_value kept.value) ≡ true) }
{
    replace(handle, H::none(alloc)).into_kept()
}

#[inline(always)]
pub(crate) fn put<H: Putting>(
    alloc: Global,
    handle: &mut H,
    entry: &[u64],
    answer: &mut ZemAnswer,
) -> u32
    ensures none { H.value handle.old ≡ None → (result ≡ no_seat) × (H.value handle.new ≡ None)
        × (answer.new ≡ answer.old) }
    ensures width { (s : SeatOf H.Phase H.Memory) → H.value handle.old ≡ Some (H.kind s)
        → length entry.now ≢ s.rail.shape.width
        → (result ≡ wrong_width) × (H.value handle.new ≡ Some (H.kind s))
        × (answer.new ≡ answer.old) }
    ensures spent { (s : SeatOf H.Phase H.Memory) → H.value handle.old ≡ Some (H.kind s)
        → length entry.now ≡ s.rail.shape.width
        → most_puts s.rail.shape ≤ length s.seat.view.made
        → (result ≡ spent) × (H.value handle.new ≡ Some (H.kind s)) × (answer.new ≡ answer.old) }
    ensures puts { (s : SeatOf H.Phase H.Memory) → H.value handle.old ≡ Some (H.kind s)
        → length entry.now ≡ s.rail.shape.width
        → length s.seat.view.made < most_puts s.rail.shape
        → (t : SeatOf H.Phase H.Memory) × (H.value handle.new ≡ Some (H.kind t))
        × HasPut H.drops s t entry.now result answer.new }
{
    match take_out(alloc, handle) {
        None => CLOSED,
        Some(mut kept) => {
            let code = H::put_held(&mut kept, entry, answer);
            *handle = H::of(alloc, kept);
            code
        }
    }
}

#[inline(always)]
pub(crate) fn take<H: Taking>(
    alloc: Global,
    handle: &mut H,
    out: &mut [u64],
    answer: &mut ZemAnswer,
) -> u32
    ensures none { H.value handle.old ≡ None → (result ≡ no_seat) × (H.value handle.new ≡ None)
        × (out.new ≡ out.old) × (answer.new ≡ answer.old) }
    ensures width { (s : SeatOf H.Phase H.Memory) → H.value handle.old ≡ Some (H.kind s)
        → length out.old ≢ s.rail.shape.width
        → (result ≡ wrong_width) × (H.value handle.new ≡ Some (H.kind s)) × (out.new ≡ out.old)
        × (answer.new ≡ answer.old) }
    ensures takes { (s : SeatOf H.Phase H.Memory) → H.value handle.old ≡ Some (H.kind s)
        → length out.old ≡ s.rail.shape.width
        → (t : SeatOf H.Phase H.Memory) × (H.value handle.new ≡ Some (H.kind t))
        × HasTaken H.drops s t out.old out.new result answer.new }
{
    match take_out(alloc, handle) {
        None => CLOSED,
        Some(mut kept) => {
            let code = H::take_held(&mut kept, out, answer);
            *handle = H::of(alloc, kept);
            code
        }
    }
}
