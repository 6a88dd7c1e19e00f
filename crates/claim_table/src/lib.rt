//! Numbers that are drawn once, and a count of the workers that ended, over shared words with a
//! log.
#![tactic(auto)]

mod claim;
mod rule;
mod share;

pub use claim::{Claim, ClaimSeat};
pub use share::ClaimShape;
