//! The queue that drops its oldest entries when full, for many threads over shared words.
#![tactic(auto)]

mod drop;
mod looking;

pub use block_looks::{Look, Seen};
pub use drop::{DropDone, DropRail, DropSeat, live_number};
