//! Queues for one seat, over words whose seat keeps a log.
#![tactic(auto)]

mod done;
mod holding;
mod lone;
mod queue;
mod rule;
mod seat;
mod solo_drop;
mod solo_retry;

pub use done::SoloDone;
pub use holding::Holding;
pub use lone::LonePhase;
pub use queue::SoloQueue;
pub use rule::Alone;
pub use seat::SoloSeat;
pub use solo_drop::{SoloDrop, SoloDropDone, SoloDropSeat};
pub use solo_retry::{SoloRetry, SoloRetryDone, SoloRetrySeat};
