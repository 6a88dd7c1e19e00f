ghost use Rattle.std.specs.Prelude.{◌≡◌, ℕ, ◌+◌, ◌<◌, ◌≤◌, ◌⊎◌, ◌^◌, [], ◌∷◌, true, length, map, flat_map, IfOk, IsPermutation, slice_index_or};
ghost use Rattle.std.specs.List.{All};
ghost use Rattle.std.specs.FinMap as map_of;
ghost use Rattle.claim_table.specs.Claimed.{IsFresh};
ghost use Rattle.word_text.specs.Counts.{add_all};
ghost use Rattle.word_workers.specs.Finished.{IsRun};
ghost use Rattle.word_workers.specs.Parts.{EachOwn};
ghost use Rattle.word_workers.specs.Shared.{IsShared};
ghost use Rattle.word_workers.specs.Spans.{AllLieIn, plan_words};
ghost use Rattle.word_workers.specs.Trace.{NamesText, RunMakes};

use crate::beside::run_beside;
use crate::drawn::Drawn;
use crate::gate::Gate;
use crate::merging::merge_all;
use crate::parts::{Parts, Run};
use crate::shared::{Seats, Shared};
use crate::turns::run_in_turn;
use claim_table::Claim;
use flow_io::Clock;
use rail::{Batch, Rail};
use span_words::{MOST_WORKERS, SPAN_WORDS};
use std::alloc::{AllocError, Global};
use std::sync::Wait;
use std::thread;
use std::thread::Threads;
use word_text::{Counts, MOST_PIECES, Plan, Text};

/// What all workers hand back.
#[derive(Drop)]
pub struct Work<R: Rail> {
    pub counts: Counts,
    pub batches: Vec<Batch>,
    pub drawn: Vec<Drawn>,
    pub seats: Vec<R::Seat>,
}

/// Counts all pieces of a plan, and notes the spans of all workers in the queue. Through one seat the
/// workers run one after another. With a seat for each and one more they run beside one another, each
/// in a thread of its own where one can be made, and meanwhile the calling thread takes with the last
/// seat from a queue that keeps all.
pub fn run_all<X: Threads + Wait + Sync, R: Rail, C: Clock, G: Gate>(
    rt: &X,
    alloc: Global,
    plan: &Plan,
    texts: &[Text],
    workers: u64,
    rail: &R,
    seats: Vec<R::Seat>,
    clock: &C,
    gate: &G,
) -> Result<Work<R>, AllocError>
    requires workers { (1 ≤ workers) × (workers ≤ MOST_WORKERS) }
    requires width { (R.shape_of rail.now).width ≡ SPAN_WORDS }
    requires inside { AllLieIn texts.now plan.now }
    requires words { length (plan_words plan.now texts.now) < 2 ^ 63 }
    requires seats { (length seats.items ≡ 1) ⊎ (length seats.items ≡ workers + 1) }
    requires puts { All (R.PutsInto rail.now) seats.items }
    requires takes { All (R.TakesFrom rail.now) seats.items }
    requires fresh { All (λ seat. (R.made seat ≡ []) × (R.taken seat ≡ [])) seats.items }
    ensures counts { IfOk result (λ work. work.counts
        ≡ add_all map_of.empty (plan_words plan.now texts.now)) }
    ensures makes { IfOk result (λ work. RunMakes (flat_map R.made work.seats.items)
        work.drawn.items workers plan.now texts.now (C.ticks clock.now)) }
    ensures files { IfOk result (λ work. All (λ i. NamesText (length texts.now) i.words)
        (flat_map R.made work.seats.items)) }
    ensures each { length seats.items ≡ workers + 1 → IfOk result (λ work. EachOwn R.made
        plan.now texts.now (C.ticks clock.now) workers work.drawn.items work.seats.items) }
    ensures last { length seats.items ≡ workers + 1 → IfOk result (λ work. (seat : R.Seat)
        → R.made (slice_index_or work.seats.items workers seat) ≡ []) }
    ensures batches { IfOk result (λ work. IsPermutation
        (flat_map (λ b. b.items) work.batches.items) (flat_map R.taken work.seats.items)) }
    ensures drops { R.DROPS ≡ true
        → IfOk result (λ work. All (λ seat. R.taken seat ≡ []) work.seats.items) }
    ensures numbers { IfOk result (λ work.
        map R.number_of work.seats.items ≡ map R.number_of seats.items) }
    ensures puts { IfOk result (λ work. (q : R)
        → All (R.PutsInto q) seats.items → All (R.PutsInto q) work.seats.items) }
    ensures takes { IfOk result (λ work. (q : R)
        → All (R.TakesFrom q) seats.items → All (R.TakesFrom q) work.seats.items) }
{
    let (claim, claim_seats) = Claim::make(alloc, plan.len() as u64, workers + 1)?;
    let _most = rail.shape().most_puts();
    let shared = Shared {
        plan,
        texts,
        rail,
        claim: &claim,
        gate,
    };
    let seats = Seats {
        queue: seats,
        claim: claim_seats,
    };
    let Run { parts, seats } = run_workers(rt, alloc, workers, &shared, clock, seats)?;
    let Parts {
        counts,
        batches,
        drawn,
        claim_seats,
    } = parts;
    claim.close(claim_seats);
    let counts = merge_all(rt, alloc, counts)?;
    Ok(Work {
        counts,
        batches,
        drawn,
        seats,
    })
}

// Runs all workers, one after another or beside one another.
fn run_workers<X: Threads + Wait + Sync, R: Rail, C: Clock, G: Gate>(
    rt: &X,
    alloc: Global,
    workers: u64,
    shared: &Shared<'_, R, G>,
    clock: &C,
    seats: Seats<Vec<R::Seat>>,
) -> Result<Run<R::Seat>, AllocError>
    requires workers { (1 ≤ workers) × (workers ≤ MOST_WORKERS) }
    requires shared { IsShared R.shape_of shared.now }
    requires most { length shared.now.plan.now ≤ MOST_PIECES }
    requires seats { (length seats.queue.items ≡ 1) ⊎ (length seats.queue.items ≡ workers + 1) }
    requires puts { All (R.PutsInto shared.now.rail.now) seats.queue.items }
    requires takes { All (R.TakesFrom shared.now.rail.now) seats.queue.items }
    requires unused { All (λ seat. (R.made seat ≡ []) × (R.taken seat ≡ [])) seats.queue.items }
    requires claims { length seats.claim.items ≡ workers + 1 }
    requires fresh { All (IsFresh shared.now.claim.now) seats.claim.items }
    ensures run { IfOk result (IsRun R.made R.taken R.number_of R.PutsInto R.TakesFrom R.DROPS
        shared.now.plan.now shared.now.texts.now (C.ticks clock.now) shared.now.claim.now workers
        seats.queue.items) }
    ensures each { length seats.queue.items ≡ workers + 1 → IfOk result (λ run. EachOwn R.made
        shared.now.plan.now shared.now.texts.now (C.ticks clock.now) workers
        run.parts.drawn.items run.seats.items) }
    ensures last { length seats.queue.items ≡ workers + 1 → IfOk result (λ run. (seat : R.Seat)
        → R.made (slice_index_or run.seats.items workers seat) ≡ []) }
{
    if seats.queue.len() > 1 {
        return in_threads(rt, alloc, shared, clock, seats);
    }
    let Seats { mut queue, claim } = seats;
    let Some(seat) = queue.pop() else {
        unreachable!()
    };
    let seats = Seats { queue: seat, claim };
    let run = run_in_turn(rt, alloc, workers, shared, clock, seats)?;
    Ok(run)
}

// Runs a worker with each seat but the last, beside one another, in a scope of threads.
fn in_threads<X: Threads + Wait + Sync, R: Rail, C: Clock, G: Gate>(
    rt: &X,
    alloc: Global,
    shared: &Shared<'_, R, G>,
    clock: &C,
    seats: Seats<Vec<R::Seat>>,
) -> Result<Run<R::Seat>, AllocError>
    requires shared { IsShared R.shape_of shared.now }
    requires workers { (2 ≤ length seats.queue.items)
        × (length seats.queue.items ≤ MOST_WORKERS + 1) }
    requires puts { All (R.PutsInto shared.now.rail.now) seats.queue.items }
    requires takes { All (R.TakesFrom shared.now.rail.now) seats.queue.items }
    requires unused { All (λ seat. (R.made seat ≡ []) × (R.taken seat ≡ [])) seats.queue.items }
    requires claims { length seats.claim.items ≡ length seats.queue.items }
    requires fresh { All (IsFresh shared.now.claim.now) seats.claim.items }
    ensures run { (workers : ℕ) → length seats.queue.items ≡ workers + 1
        → IfOk result (IsRun R.made R.taken R.number_of R.PutsInto R.TakesFrom R.DROPS
        shared.now.plan.now shared.now.texts.now (C.ticks clock.now) shared.now.claim.now workers
        seats.queue.items) }
    ensures each { (workers : ℕ) → length seats.queue.items ≡ workers + 1
        → IfOk result (λ run. EachOwn R.made shared.now.plan.now shared.now.texts.now
        (C.ticks clock.now) workers run.parts.drawn.items run.seats.items) }
    ensures last { (workers : ℕ) → length seats.queue.items ≡ workers + 1
        → IfOk result (λ run. (seat : R.Seat)
        → R.made (slice_index_or run.seats.items workers seat) ≡ []) }
{
    thread::scope(
        thread::scope_env(),
        rt,
        |scope| -> Result<Run<R::Seat>, AllocError>
            requires { IsShared R.shape_of shared.now
                × (2 ≤ length seats.queue.items) × (length seats.queue.items ≤ MOST_WORKERS + 1)
                × All (R.PutsInto shared.now.rail.now) seats.queue.items
                × All (R.TakesFrom shared.now.rail.now) seats.queue.items
                × All (λ seat. (R.made seat ≡ []) × (R.taken seat ≡ [])) seats.queue.items
                × (length seats.claim.items ≡ length seats.queue.items)
                × All (IsFresh shared.now.claim.now) seats.claim.items }
            ensures run { (workers : ℕ) → length seats.queue.items ≡ workers + 1
                → IfOk result (IsRun R.made R.taken R.number_of R.PutsInto R.TakesFrom R.DROPS
                shared.entry.now.plan.now shared.entry.now.texts.now (C.ticks clock.entry.now)
                shared.entry.now.claim.now workers seats.queue.items) }
            ensures each { (workers : ℕ) → length seats.queue.items ≡ workers + 1
                → IfOk result (λ run. EachOwn R.made shared.entry.now.plan.now
                shared.entry.now.texts.now (C.ticks clock.entry.now) workers
                run.parts.drawn.items run.seats.items) }
            ensures last { (workers : ℕ) → length seats.queue.items ≡ workers + 1
                → IfOk result (λ run. (seat : R.Seat)
                → R.made (slice_index_or run.seats.items workers seat) ≡ []) }
        { run_beside(scope, rt, alloc, shared, clock, seats) },
    )
}
