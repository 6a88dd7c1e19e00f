//! A worker that was begun, in a thread of its own or, where none could be made, in this one.
ghost use Rattle.std.specs.Prelude.{◌≡◌, ℕ, ◌+◌, ◌<◌, [], length, Option, Some, IfOk, IfSome};
ghost use Rattle.claim_table.specs.Claimed.{IsFresh};
ghost use Rattle.cursor_word.specs.Cursor.{most_puts};
ghost use Rattle.flow_io.specs.Clock.{Ticks};
ghost use Rattle.word_workers.specs.Child.{IsChild, Keeps, IsBegun, told_of};
ghost use Rattle.word_workers.specs.Ended.{Served};
ghost use Rattle.word_workers.specs.Shared.{IsShared};

use crate::ended::{Ended, run_to_end};
use crate::gate::Gate;
use crate::shared::{Own, Shared};
use claim_table::{Claim, ClaimSeat};
use flow_io::Hand;
use rail::Rail;
use span_words::MOST_WORKERS;
use std::alloc::{AllocError, Global};
use std::snapshot::Snapshot;
use std::sync::Wait;
use std::thread::{Promise, PromisedHandle, Scope, Threads};
use word_text::{Plan, Text};

/// What a worker is given. It promises to give the seat back with its spans.
#[derive(Drop)]
pub struct Given<'s, R: Rail, H: Hand> {
    pub worker: u64,
    pub plan: &'s Plan,
    pub texts: &'s [Text],
    pub claim: &'s Claim,
    pub seat: Snapshot<R::Seat>,
    pub hand: Snapshot<H>,
}

impl<'s, R: Rail, H: Hand> Promise<Result<Ended<R::Seat>, AllocError>> for Given<'s, R, H> {
    ghost use Rattle.std.specs.Prelude.{IfOk};
    ghost use Rattle.word_workers.specs.Child.{Keeps};

    ghost kept_by = { λ p r. IfOk r (λ ended. Keeps R.made R.taken R.number_of R.PutsInto
        R.TakesFrom R.DROPS H.ticks p ended) };
}

/// A worker that was begun in a thread of its own, or that was run here.
#[derive(Drop)]
pub enum Child<'s, R: Rail, H: Hand> {
    There(PromisedHandle<Result<Ended<R::Seat>, AllocError>, Given<'s, R, H>>),
    Here(Snapshot<Given<'s, R, H>>, Result<Ended<R::Seat>, AllocError>),
}

/// Begins a worker in a thread of its own, or runs it where none can be made.
pub fn begin<'s, E, X: Threads + Wait + Sync, R: Rail, H: Hand + 's, G: Gate>(
    scope: &Scope<'s, E>,
    rt: &'s X,
    alloc: Global,
    shared: &'s Shared<'s, R, G>,
    own: Own<R::Seat, H>,
    claim_seat: ClaimSeat,
) -> Child<'s, R, H>
    requires shared { IsShared R.shape_of shared.now }
    requires worker { own.worker < MOST_WORKERS }
    requires puts { R.PutsInto shared.now.rail.now own.seat }
    requires takes { R.TakesFrom shared.now.rail.now own.seat }
    requires unused { (R.made own.seat ≡ []) × (R.taken own.seat ≡ []) }
    requires fresh { IsFresh shared.now.claim.now claim_seat }
    ensures child { (clock : ℕ → Option Ticks)
        → IfSome (clock own.worker) (λ told. H.ticks own.hand ≡ Some told)
        → IsChild R.made R.taken R.number_of R.PutsInto R.TakesFrom R.DROPS H.ticks
        shared.now.plan.now shared.now.texts.now clock shared.now.claim.now own.worker result }
    ensures seat { (told_of result).seat.value ≡ own.seat }
{
    let given = Given {
        worker: own.worker,
        plan: shared.plan,
        texts: shared.texts,
        claim: shared.claim,
        seat: Snapshot::of(&own.seat),
        hand: Snapshot::of(&own.hand),
    };
    let told = Snapshot::of(&given);
    let run = move || -> Result<Ended<R::Seat>, AllocError>
        requires { IsShared R.shape_of shared.now × (own.worker < MOST_WORKERS)
            × R.PutsInto shared.now.rail.now own.seat
            × R.TakesFrom shared.now.rail.now own.seat
            × (length (R.made own.seat) + length shared.now.plan.now
            < most_puts (R.shape_of shared.now.rail.now))
            × IsFresh shared.now.claim.now claim_seat }
        ensures { IfOk result (λ ended. Served R.made R.taken R.number_of R.PutsInto R.TakesFrom
            R.DROPS shared.entry.now.plan.now shared.entry.now.texts.now (H.ticks own.hand)
            own.worker shared.entry.now.claim.now own.seat ended) }
    { run_to_end(rt, alloc, shared, own, claim_seat) };
    match scope.spawn_with(given, run) {
        Ok(child) => Child::There(child),
        Err(refused) => Child::Here(told, (refused.value)()),
    }
}

/// Waits for a worker.
pub fn finish<'s, R: Rail, H: Hand>(
    rt: &impl Threads,
    child: Child<'s, R, H>,
) -> Result<Ended<R::Seat>, AllocError>
    ensures { IsBegun R.made R.taken R.number_of R.PutsInto R.TakesFrom R.DROPS H.ticks child.entry
        → IfOk result (λ ended. Keeps R.made R.taken R.number_of R.PutsInto R.TakesFrom R.DROPS
        H.ticks (told_of child.entry) ended) }
{
    match child {
        Child::There(child) => child.join(rt),
        Child::Here(_, ended) => ended,
    }
}
