//! A queue as its callers see it.
#![tactic(auto)]

mod answer;
mod batch;
mod entry;
mod law;
mod outcome;
mod rail;

pub use answer::{Answer, Put, Take, Why};
pub use batch::Batch;
pub use entry::{Entry, Placed};
pub use law::close_without_loss;
pub use outcome::law_drop_outcome;
pub use rail::{Rail, Refused};
