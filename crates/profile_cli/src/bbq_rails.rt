ghost use Rattle.std.specs.Prelude.{◌≡◌, refl};
ghost use Rattle.std.proofs.Common.{inr};
ghost use Rattle.std.proofs.lemmas.Bool.{leb-true};

use crate::rails::Rails;
use cursor_word::Shape;
use drop_rail::{DropRail, DropSeat};
use retry_rail::{RetryRail, RetrySeat};
use std::alloc::{AllocError, Global};

/// Queues for many threads.
pub struct BbqRails;

impl Rails for BbqRails {
    type Retry = RetryRail;

    type DropOld = DropRail;

    ghost retry_keeps = { refl };

    ghost drop_old_drops = { refl };

    ghost retry_seats = { inr (leb-true 256 1024 refl) };

    ghost drop_old_seats = { inr (leb-true 256 1024 refl) };

    fn retry(
        &self,
        alloc: Global,
        shape: Shape,
    ) -> Result<(RetryRail, Vec<RetrySeat>), AllocError> {
        RetryRail::make(alloc, shape)
    }

    fn drop_old(
        &self,
        alloc: Global,
        shape: Shape,
    ) -> Result<(DropRail, Vec<DropSeat>), AllocError> {
        DropRail::make(alloc, shape)
    }
}
