//! How a call of a queue becomes steps: one step of any kind on shared words, and the loop that
//! runs a put and a take of any machine.
#![tactic(auto)]

mod calls;
mod counts;
mod left;
mod operation;
mod rule;

pub use calls::{run_put, run_take};
pub use counts::{puts_after, takes_after};
pub use left::{read_left, read_unreserved};
pub use operation::operate;
pub use rule::{Call, MachineRule, NextStep};
