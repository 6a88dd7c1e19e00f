//! Shared words whose seats keep a log of their steps.
//! Each step stands in its seat's log with the value that it found, so a caller can tell of no step
//! that it didn't take.
//! Logs and views exist in the proofs alone.
#![tactic(auto)]

mod log;
mod rule;
mod words;

pub use log::{Logged, Step, StepKind};
pub use rule::{StepFact, StepRule};
pub use words::{Stopped, WordSeat, Words};
