//! What is kept of a closed queue.
use rail::Batch;

/// How many entries a closed queue had accepted, and what was left in it.
#[derive(Drop)]
pub struct Ended {
    pub(crate) accepted: u64,
    pub(crate) left: Batch,
}
