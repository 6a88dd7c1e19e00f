//! Workers that run beside one another, each with a seat of its own, and a collector beside them.
ghost use Rattle.std.specs.Prelude.{◌≡◌, ℕ, ◌+◌, ◌≤◌, false, List, [], Option, length, map, IfOk, slice_index_or};
ghost use Rattle.std.specs.List.{All};
ghost use Rattle.claim_table.specs.Claimed.{Claimant, Drawing, IsFresh};
ghost use Rattle.flow_io.specs.Clock.{Ticks};
ghost use Rattle.word_text.specs.declared.plan.Piece.{Piece};
ghost use Rattle.word_workers.specs.Child.{AreChildren, seat_of};
ghost use Rattle.word_workers.specs.Finished.{Finished, IsRun};
ghost use Rattle.word_workers.specs.Parts.{EachOwn, FoundEnded};
ghost use Rattle.word_workers.specs.Shared.{IsShared};
ghost use Rattle.word_workers.specs.Spans.{AllLieIn};

use crate::child::{Child, begin, finish};
use crate::collector::{Collected, collect};
use crate::gate::Gate;
use crate::parts::{Parts, Run, next_claim_seat};
use crate::shared::{Own, Seats, Shared};
use flow_io::{Clock, Hand};
use rail::Rail;
use span_words::MOST_WORKERS;
use std::alloc::{AllocError, Global};
use std::sync::Wait;
use std::thread::{Scope, Threads};

// Begins a worker with each of these seats, in order.
fn begin_all<'s, E, X: Threads + Wait + Sync, R: Rail, C: Clock, G: Gate>(
    scope: &Scope<'s, E>,
    rt: &'s X,
    alloc: Global,
    shared: &'s Shared<'s, R, G>,
    clock: &'s C,
    seats: Seats<Vec<R::Seat>>,
) -> Result<Vec<Child<'s, R, C::Hand>>, AllocError>
    requires shared { IsShared R.shape_of shared.now }
    requires workers { length seats.queue.items ≤ MOST_WORKERS }
    requires puts { All (R.PutsInto shared.now.rail.now) seats.queue.items }
    requires takes { All (R.TakesFrom shared.now.rail.now) seats.queue.items }
    requires unused { All (λ seat. (R.made seat ≡ []) × (R.taken seat ≡ [])) seats.queue.items }
    requires claims { length seats.queue.items ≤ length seats.claim.items }
    requires fresh { All (IsFresh shared.now.claim.now) seats.claim.items }
    ensures children { IfOk result (λ children. AreChildren R.made R.taken R.number_of R.PutsInto
        R.TakesFrom R.DROPS C.Hand.ticks shared.now.plan.now shared.now.texts.now
        (C.ticks clock.now) shared.now.claim.now 0 children.items) }
    ensures seats { IfOk result (λ children. map seat_of children.items ≡ seats.queue.items) }
{
    let Seats {
        queue,
        claim: mut claim_seats,
    } = seats;
    let mut children = Vec::new(alloc);
    for seat in queue {
        let worker = children.len() as u64;
        let hand = clock.hand(worker);
        let own = Own { worker, seat, hand };
        let claim_seat = next_claim_seat(shared.claim, &mut claim_seats);
        let child = begin(scope, rt, alloc, shared, own, claim_seat);
        children.push(child)?;
    }
    Ok(children)
}

// Waits for all workers, in order.
fn finish_all<'s, R: Rail, H: Hand>(
    rt: &impl Threads,
    alloc: Global,
    children: Vec<Child<'s, R, H>>,
) -> Result<Run<R::Seat>, AllocError>
    ensures { IfOk result (λ run. (plan : List Piece) (texts : List (List ℕ))
        (clock : ℕ → Option Ticks) (claim : Claimant) → AllLieIn texts plan
        → AreChildren R.made R.taken R.number_of R.PutsInto R.TakesFrom R.DROPS H.ticks
        plan texts clock claim 0 children.entry.items
        → Finished R.made R.taken R.number_of R.PutsInto R.TakesFrom R.DROPS plan texts clock claim
        (length children.entry.items) (map seat_of children.entry.items) run.parts.counts.items
        run.parts.batches.items run.parts.drawn.items run.parts.claim_seats.items
        run.seats.items) }
{
    let mut parts = Parts::new(alloc);
    let mut seats = Vec::new(alloc);
    for child in children {
        let ended = finish(rt, child)?;
        let seat = parts.add(ended)?;
        seats.push(seat)?;
    }
    Ok(Run { parts, seats })
}

/// Begins a worker with each seat but the last, collects with the last while they run, and waits for
/// them.
pub fn run_beside<'s, E, X: Threads + Wait + Sync, R: Rail, C: Clock, G: Gate>(
    scope: &Scope<'s, E>,
    rt: &'s X,
    alloc: Global,
    shared: &'s Shared<'s, R, G>,
    clock: &'s C,
    seats: Seats<Vec<R::Seat>>,
) -> Result<Run<R::Seat>, AllocError>
    requires shared { IsShared R.shape_of shared.now }
    requires workers { (2 ≤ length seats.queue.items)
        × (length seats.queue.items ≤ MOST_WORKERS + 1) }
    requires puts { All (R.PutsInto shared.now.rail.now) seats.queue.items }
    requires takes { All (R.TakesFrom shared.now.rail.now) seats.queue.items }
    requires unused { All (λ seat. (R.made seat ≡ []) × (R.taken seat ≡ [])) seats.queue.items }
    requires claims { length seats.claim.items ≡ length seats.queue.items }
    requires fresh { All (IsFresh shared.now.claim.now) seats.claim.items }
    ensures run { (workers : ℕ) → length seats.queue.items ≡ workers + 1
        → IfOk result (IsRun R.made R.taken R.number_of R.PutsInto R.TakesFrom R.DROPS
        shared.now.plan.now shared.now.texts.now (C.ticks clock.now) shared.now.claim.now workers
        seats.queue.items) }
    ensures each { (workers : ℕ) → length seats.queue.items ≡ workers + 1
        → IfOk result (λ run. EachOwn R.made shared.now.plan.now shared.now.texts.now
        (C.ticks clock.now) workers run.parts.drawn.items run.seats.items) }
    ensures last { (workers : ℕ) → length seats.queue.items ≡ workers + 1
        → IfOk result (λ run. (seat : R.Seat)
        → R.made (slice_index_or run.seats.items workers seat) ≡ []) }
    ensures waited { R.DROPS ≡ false → (workers : ℕ) → length seats.queue.items ≡ workers + 1
        → IfOk result (λ run. (seat : Drawing)
        → FoundEnded workers (slice_index_or run.parts.claim_seats.items workers seat)) }
{
    let mut seats = seats;
    let Some(last) = seats.queue.pop() else {
        unreachable!()
    };
    let last_claim = next_claim_seat(shared.claim, &mut seats.claim);
    let workers = seats.queue.len() as u64;
    let children = begin_all(scope, rt, alloc, shared, clock, seats)?;
    let Collected {
        batch,
        seat,
        claim_seat,
    } = collect(rt, alloc, shared, last, last_claim, workers)?;
    let mut run = finish_all(rt, alloc, children)?;
    run.parts.batches.push(batch)?;
    run.parts.claim_seats.push(claim_seat)?;
    run.seats.push(seat)?;
    Ok(run)
}
