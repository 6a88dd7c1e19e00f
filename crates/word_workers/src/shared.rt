//! What workers are given.
use crate::gate::Gate;
use claim_table::{Claim, ClaimSeat};
use rail::Rail;
use word_text::{Plan, Text};

/// What all workers of a run share: the pieces of a plan over its texts, the queue that takes their
/// spans, the claim from which they draw, and the gate that they pass.
#[derive(Drop)]
pub struct Shared<'s, R: Rail, G: Gate> {
    pub plan: &'s Plan,
    pub texts: &'s [Text],
    pub rail: &'s R,
    pub claim: &'s Claim,
    pub gate: &'s G,
}

/// What one worker has for itself: its number, its seat of the queue and its hand of the clock.
#[derive(Drop)]
pub struct Own<S, H> {
    pub worker: u64,
    pub seat: S,
    pub hand: H,
}

/// The seats of a run, which have done nothing before it: those of the queue, or its only one, and
/// all of the claim.
#[derive(Drop)]
pub struct Seats<Q> {
    pub queue: Q,
    pub claim: Vec<ClaimSeat>,
}
