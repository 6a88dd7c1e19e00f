//! Workers that run one after another.
ghost use Rattle.std.specs.Prelude.{◌≡◌, ◌+◌, ◌≤◌, [], ◌∷◌, length, IfOk};
ghost use Rattle.std.specs.List.{All};
ghost use Rattle.claim_table.specs.Claimed.{IsFresh};
ghost use Rattle.word_workers.specs.Finished.{IsRun};
ghost use Rattle.word_workers.specs.Shared.{IsShared};

use crate::ended::run_to_end;
use crate::gate::Gate;
use crate::parts::{Parts, Run, next_claim_seat};
use crate::shared::{Own, Seats, Shared};
use flow_io::Clock;
use rail::Rail;
use span_words::MOST_WORKERS;
use std::alloc::{AllocError, Global};
use std::sync::Wait;
use word_text::MOST_PIECES;

/// Runs all workers, one after another, through the one seat of a queue.
pub fn run_in_turn<R: Rail, C: Clock, G: Gate>(
    rt: &impl Wait,
    alloc: Global,
    workers: u64,
    shared: &Shared<'_, R, G>,
    clock: &C,
    seats: Seats<R::Seat>,
) -> Result<Run<R::Seat>, AllocError>
    requires workers { (1 ≤ workers) × (workers ≤ MOST_WORKERS) }
    requires shared { IsShared R.shape_of shared.now }
    requires most { length shared.now.plan.now ≤ MOST_PIECES }
    requires puts { R.PutsInto shared.now.rail.now seats.queue }
    requires takes { R.TakesFrom shared.now.rail.now seats.queue }
    requires unused { (R.made seats.queue ≡ []) × (R.taken seats.queue ≡ []) }
    requires claims { length seats.claim.items ≡ workers + 1 }
    requires fresh { All (IsFresh shared.now.claim.now) seats.claim.items }
    ensures { IfOk result (IsRun R.made R.taken R.number_of R.PutsInto R.TakesFrom R.DROPS
        shared.now.plan.now shared.now.texts.now (C.ticks clock.now) shared.now.claim.now workers
        (seats.queue ∷ [])) }
{
    let _most = shared.rail.shape().most_puts();
    let Seats {
        queue,
        claim: mut claim_seats,
    } = seats;
    let mut seat = queue;
    let mut parts = Parts::new(alloc);
    for worker in 0..workers {
        let claim_seat = next_claim_seat(shared.claim, &mut claim_seats);
        let hand = clock.hand(worker);
        let own = Own { worker, seat, hand };
        let ended = run_to_end(rt, alloc, shared, own, claim_seat)?;
        seat = parts.add(ended)?;
    }
    let last = next_claim_seat(shared.claim, &mut claim_seats);
    parts.claim_seats.push(last)?;
    let mut seats = Vec::new(alloc);
    seats.push(seat)?;
    Ok(Run { parts, seats })
}
