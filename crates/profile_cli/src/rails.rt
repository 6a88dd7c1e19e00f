ghost use Rattle.std.specs.Prelude.{◌≡◌, ◌≤◌, ◌<◌, ◌⊎◌, [], false, map, true, IfOk};
ghost use Rattle.std.specs.List.{All};
ghost use Rattle.rail.specs.Outcome.{numbers_below};
ghost use Rattle.span_words.specs.declared.span.TheConstants.{MOST_WORKERS};

use cursor_word::Shape;
use rail::Rail;
use std::alloc::{AllocError, Global};

/// The kinds of queue that a run may use.
pub trait Rails {
    /// A queue that refuses new entries when it is full.
    type Retry: Rail;

    /// A queue that drops its oldest entries when it is full.
    type DropOld: Rail;

    /// A queue that keeps all, with all its seats, which have done nothing.
    fn retry(
        &self,
        alloc: Global,
        shape: Shape,
    ) -> Result<(Self::Retry, Vec<<Self::Retry as Rail>::Seat>), AllocError>
        requires { shape.seats ≤ Self.Retry.MOST_SEATS }
        ensures shape { IfOk result (λ made. Self.Retry.shape_of made.0 ≡ shape) }
        ensures seats { IfOk result (λ made. map Self.Retry.number_of made.1.items
            ≡ numbers_below shape.seats) }
        ensures puts { IfOk result (λ made. All (Self.Retry.PutsInto made.0) made.1.items) }
        ensures takes { IfOk result (λ made. All (Self.Retry.TakesFrom made.0) made.1.items) }
        ensures fresh { IfOk result (λ made. All (λ seat.
            (Self.Retry.made seat ≡ []) × (Self.Retry.taken seat ≡ [])) made.1.items) };

    /// A queue that keeps the newest entries, with all its seats, which have done nothing.
    fn drop_old(
        &self,
        alloc: Global,
        shape: Shape,
    ) -> Result<(Self::DropOld, Vec<<Self::DropOld as Rail>::Seat>), AllocError>
        requires { shape.seats ≤ Self.DropOld.MOST_SEATS }
        ensures shape { IfOk result (λ made. Self.DropOld.shape_of made.0 ≡ shape) }
        ensures seats { IfOk result (λ made. map Self.DropOld.number_of made.1.items
            ≡ numbers_below shape.seats) }
        ensures puts { IfOk result (λ made. All (Self.DropOld.PutsInto made.0) made.1.items) }
        ensures takes { IfOk result (λ made. All (Self.DropOld.TakesFrom made.0) made.1.items) }
        ensures fresh { IfOk result (λ made. All (λ seat.
            (Self.DropOld.made seat ≡ []) × (Self.DropOld.taken seat ≡ [])) made.1.items) };

    ghost retry_keeps: { Self.Retry.DROPS ≡ false };

    ghost drop_old_drops: { Self.DropOld.DROPS ≡ true };

    /// It has one seat, or as many as the most workers and one more.
    ghost retry_seats: { (Self.Retry.MOST_SEATS ≡ 1) ⊎ (MOST_WORKERS < Self.Retry.MOST_SEATS) };

    ghost drop_old_seats: { (Self.DropOld.MOST_SEATS ≡ 1)
        ⊎ (MOST_WORKERS < Self.DropOld.MOST_SEATS) };
}

/// The queue that a run closed, if any.
#[derive(Drop)]
pub enum Closed<R: Rails> {
    Nothing,
    Retry(<R::Retry as Rail>::Done),
    DropOld(<R::DropOld as Rail>::Done),
}

/// How the command ended.
#[derive(Drop)]
pub struct Report<R: Rails> {
    pub status: u8,
    pub detail: u64,
    pub closed: Closed<R>,
}
