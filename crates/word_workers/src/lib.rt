//! Workers that count the pieces of a plan and note what they did.
#![tactic(auto)]

mod all;
mod beside;
mod child;
mod collector;
mod drawn;
mod ended;
mod gate;
mod merging;
mod parts;
mod shared;
mod turns;
mod worker;

pub use all::{Work, run_all};
pub use drawn::Drawn;
pub use gate::{Gate, NoGate};
pub use worker::{WorkerDone, run_worker};
