//! What several workers gave back.
ghost use Rattle.std.specs.Prelude.{◌≡◌, ◌+◌, ◌<◌, [], ◌∷◌, ◌++◌, length, IfOk, OnOk};
ghost use Rattle.std.specs.List.{All};
ghost use Rattle.claim_table.specs.Claimed.{IsFresh};

use crate::drawn::Drawn;
use crate::ended::Ended;
use claim_table::{Claim, ClaimSeat};
use rail::Batch;
use std::alloc::{AllocError, Global};
use word_text::Counts;

/// What workers gave back, in their order, but for their seats of the queue.
#[derive(Drop)]
pub struct Parts {
    pub counts: Vec<Counts>,
    pub batches: Vec<Batch>,
    pub drawn: Vec<Drawn>,
    pub claim_seats: Vec<ClaimSeat>,
}

/// What all workers gave back, and all seats of the queue.
#[derive(Drop)]
pub struct Run<S> {
    pub parts: Parts,
    pub seats: Vec<S>,
}

impl Parts {
    /// Of no worker.
    pub fn new(alloc: Global) -> Parts
        ensures counts { result.counts.items ≡ [] }
        ensures batches { result.batches.items ≡ [] }
        ensures drawn { result.drawn.items ≡ [] }
        ensures claim_seats { result.claim_seats.items ≡ [] }
    {
        Parts {
            counts: Vec::new(alloc),
            batches: Vec::new(alloc),
            drawn: Vec::new(alloc),
            claim_seats: Vec::new(alloc),
        }
    }

    /// Of one worker more, whose seat of the queue it hands on.
    pub fn add<S: Drop>(&mut self, ended: Ended<S>) -> Result<S, AllocError>
        ensures counts { OnOk result
            (self.new.counts.items ≡ self.old.counts.items ++ ended.counts ∷ []) }
        ensures batches { OnOk result
            (self.new.batches.items ≡ self.old.batches.items ++ ended.batch ∷ []) }
        ensures drawn { OnOk result
            (self.new.drawn.items ≡ self.old.drawn.items ++ ended.drawn ∷ []) }
        ensures claim_seats { OnOk result
            (self.new.claim_seats.items ≡ self.old.claim_seats.items ++ ended.claim_seat ∷ []) }
        ensures seat { IfOk result (λ seat. seat ≡ ended.seat) }
    {
        let Ended {
            counts,
            batch,
            drawn,
            seat,
            claim_seat,
        } = ended;
        self.counts.push(counts)?;
        self.batches.push(batch)?;
        self.drawn.push(drawn)?;
        self.claim_seats.push(claim_seat)?;
        Ok(seat)
    }
}

/// One of the seats of a claim that have done nothing.
pub fn next_claim_seat(claim: &Claim, claim_seats: &mut Vec<ClaimSeat>) -> ClaimSeat
    requires some { 0 < length claim_seats.old.items }
    requires fresh { All (IsFresh claim.now) claim_seats.old.items }
    ensures fresh { IsFresh claim.now result }
    ensures rest { All (IsFresh claim.now) claim_seats.new.items }
    ensures count { length claim_seats.new.items + 1 ≡ length claim_seats.old.items }
{
    let _same = claim;
    let Some(seat) = claim_seats.pop() else {
        unreachable!()
    };
    seat
}
