ghost use Rattle.std.specs.Prelude.{◌≡◌, refl};
ghost use Rattle.std.proofs.Common.{inl};

use crate::rails::Rails;
use cursor_word::Shape;
use solo_rail::{SoloDrop, SoloDropSeat, SoloRetry, SoloRetrySeat};
use std::alloc::{AllocError, Global};

/// Queues for one seat.
pub struct SoloRails;

impl Rails for SoloRails {
    type Retry = SoloRetry;

    type DropOld = SoloDrop;

    ghost retry_keeps = { refl };

    ghost drop_old_drops = { refl };

    ghost retry_seats = { inl refl };

    ghost drop_old_seats = { inl refl };

    fn retry(
        &self,
        alloc: Global,
        shape: Shape,
    ) -> Result<(SoloRetry, Vec<SoloRetrySeat>), AllocError> {
        let (rail, seat) = SoloRetry::make(alloc, shape)?;
        let mut seats = Vec::new(alloc);
        seats.push(seat)?;
        Ok((rail, seats))
    }

    fn drop_old(
        &self,
        alloc: Global,
        shape: Shape,
    ) -> Result<(SoloDrop, Vec<SoloDropSeat>), AllocError> {
        let (rail, seat) = SoloDrop::make(alloc, shape)?;
        let mut seats = Vec::new(alloc);
        seats.push(seat)?;
        Ok((rail, seats))
    }
}
