//! What a machine owes, so that its calls run over shared words: laws of its table, of its answers
//! and of its seats.
#![tactic(auto)]

mod phases;

pub use phases::{CallPhase, SharedPhase};
