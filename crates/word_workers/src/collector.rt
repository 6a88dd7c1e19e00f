//! The collector, which takes from the queue while the workers run.
ghost use Rattle.std.specs.Prelude.{◌≡◌, [], ◌∷◌, ◌++◌, List, false, true, IfOk};
ghost use Rattle.rail.specs.declared.entry.Placed.{Placed};
ghost use Rattle.span_recorder.specs.Gain.{GainAlike};
ghost use Rattle.word_workers.specs.Parts.{FoundEnded};
ghost use Rattle.word_workers.specs.Shared.{IsShared};

use crate::gate::Gate;
use crate::shared::Shared;
use claim_table::ClaimSeat;
use crossbeam_utils::Backoff;
use rail::{Batch, Rail, Take};
use span_recorder::collect_one;
use std::alloc::{AllocError, Global};
use std::sync::Wait;
use std::thread::Parker;
use std::time::Duration;

/// How long the collector sleeps while nothing comes. Meanwhile a worker that finds the queue full
/// takes from it.
const PAUSE_MICROSECONDS: u64 = 200;

/// What the collector took, and its seats.
#[derive(Drop)]
pub struct Collected<S> {
    pub batch: Batch,
    pub seat: S,
    pub claim_seat: ClaimSeat,
}

/// Takes from a queue that keeps all, until so many workers have ended. From one that drops its
/// oldest entries nothing is taken.
pub fn collect<R: Rail, G: Gate>(
    rt: &impl Wait,
    alloc: Global,
    shared: &Shared<'_, R, G>,
    seat: R::Seat,
    claim_seat: ClaimSeat,
    workers: u64,
) -> Result<Collected<R::Seat>, AllocError>
    requires shared { IsShared R.shape_of shared.now }
    requires takes { R.TakesFrom shared.now.rail.now seat }
    requires claim { claim_seat.of ≡ shared.now.claim.now }
    ensures taken { IfOk result (λ done.
        GainAlike (R.taken seat) (R.taken done.seat) [] done.batch.items) }
    ensures drops { R.DROPS ≡ true → IfOk result (λ done. R.taken done.seat ≡ R.taken seat) }
    ensures made { IfOk result (λ done. R.made done.seat ≡ R.made seat) }
    ensures puts { IfOk result (λ done. (q : R) → R.PutsInto q seat → R.PutsInto q done.seat) }
    ensures takes { IfOk result (λ done. (q : R) → R.TakesFrom q seat → R.TakesFrom q done.seat) }
    ensures number { IfOk result (λ done. R.number_of done.seat ≡ R.number_of seat) }
    ensures claim { IfOk result (λ done. done.claim_seat.of ≡ shared.now.claim.now) }
    ensures drawn { IfOk result (λ done. done.claim_seat.drawn ≡ claim_seat.drawn) }
    ensures waited { R.DROPS ≡ false → IfOk result (λ done. FoundEnded workers done.claim_seat) }
{
    let mut done = Collected {
        batch: Batch::new(alloc),
        seat,
        claim_seat,
    };
    if R::DROPS {
        return Ok(done);
    }
    let backoff = Backoff::new();
    let parker = Parker::new();
    let pause = Duration::from_micros(PAUSE_MICROSECONDS);
    for _ in rt.forever() {
        if shared.claim.ended(&mut done.claim_seat) == workers {
            return Ok(done);
        }
        match collect_one(alloc, shared.rail, &mut done.seat, &mut done.batch)? {
            Take::Ok(_) => backoff.reset(),
            _ if backoff.is_completed() => parker.park_timeout(rt, pause),
            _ => backoff.snooze(),
        }
    }
    unreachable!()
}
