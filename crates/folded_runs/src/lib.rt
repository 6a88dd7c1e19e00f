//! What the folded times of the profiler's own workers add up to.
#![tactic(auto)]

mod laws;

pub use laws::worker_lines_add_up;
