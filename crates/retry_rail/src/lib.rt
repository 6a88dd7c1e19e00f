//! The queue that refuses when full, for many threads over shared words.
#![tactic(auto)]

mod retry;

pub use retry::{RetryDone, RetryRail, RetrySeat};
