//! The queue with a sole consumer, for many threads over shared words: every seat puts, and the
//! first alone takes.
#![tactic(auto)]

mod sole;

pub use sole::{Consuming, SoleDone, SoleRail, SoleSeat};
