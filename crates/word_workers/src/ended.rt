//! A worker with all that it is given, and all that it gives back.
ghost use Rattle.std.specs.Prelude.{◌+◌, ◌<◌, length, IfOk};
ghost use Rattle.claim_table.specs.Claimed.{IsFresh};
ghost use Rattle.cursor_word.specs.Cursor.{most_puts};
ghost use Rattle.word_workers.specs.Ended.{Served};
ghost use Rattle.word_workers.specs.Shared.{IsShared};

use crate::drawn::Drawn;
use crate::gate::Gate;
use crate::shared::{Own, Shared};
use crate::worker::{WorkerDone, run_worker};
use claim_table::ClaimSeat;
use flow_io::Hand;
use rail::{Batch, Rail};
use span_words::MOST_WORKERS;
use std::alloc::{AllocError, Global};
use std::sync::Wait;
use word_text::Counts;

/// What a worker gives back with both its seats. It names the seat's type alone, since a thread's
/// result may name no type that its closure doesn't capture.
#[derive(Drop)]
pub struct Ended<S> {
    pub counts: Counts,
    pub batch: Batch,
    pub drawn: Drawn,
    pub seat: S,
    pub claim_seat: ClaimSeat,
}

/// Runs a worker, and gives its seats back.
pub fn run_to_end<R: Rail, H: Hand, G: Gate>(
    rt: &impl Wait,
    alloc: Global,
    shared: &Shared<'_, R, G>,
    own: Own<R::Seat, H>,
    claim_seat: ClaimSeat,
) -> Result<Ended<R::Seat>, AllocError>
    requires shared { IsShared R.shape_of shared.now }
    requires worker { own.worker < MOST_WORKERS }
    requires puts { R.PutsInto shared.now.rail.now own.seat }
    requires takes { R.TakesFrom shared.now.rail.now own.seat }
    requires room { length (R.made own.seat) + length shared.now.plan.now
        < most_puts (R.shape_of shared.now.rail.now) }
    requires fresh { IsFresh shared.now.claim.now claim_seat }
    ensures { IfOk result (λ ended. Served R.made R.taken R.number_of R.PutsInto R.TakesFrom R.DROPS
        shared.now.plan.now shared.now.texts.now (H.ticks own.hand) own.worker
        shared.now.claim.now own.seat ended) }
{
    let mut claim_seat = claim_seat;
    let Own { worker, seat, hand } = own;
    let WorkerDone {
        counts,
        batch,
        drawn,
        seat,
    } = run_worker(
        rt,
        alloc,
        worker,
        shared.plan,
        shared.texts,
        shared.rail,
        seat,
        shared.claim,
        &mut claim_seat,
        hand,
        shared.gate,
    )?;
    Ok(Ended {
        counts,
        batch,
        drawn,
        seat,
        claim_seat,
    })
}
