//! The seats of any machine's queue over words that threads share: the rule of the words, the calls
//! of the seats, and how seats are dealt and gathered.
#![tactic(auto)]

mod holding;
mod memory;
mod queue;
mod rule;
mod seats;

pub use holding::Holding;
pub use memory::{LoadFact, Memory};
pub use queue::SharedQueue;
pub use rule::Holdings;
pub use seats::{SharedSeat, totals};
