//! The steps of the queue that drops its oldest entries, as a pure machine.
#![tactic(auto)]

mod causes;
mod law;
mod order;
mod phase;
mod rest;
mod running;
mod schedule;
mod table;
mod take_phase;

pub use causes::drop_law_causes;
pub use law::{drop_law_accepted, drop_law_steps, drop_law_taken};
pub use machine::{Event, Op, Start};
pub use order::drop_law_order;
pub use phase::{DropAfter, DropPhase, drop_after, drop_first_put, drop_rank, drop_want};
pub use rail::Answer;
pub use rest::drop_law_rest;
pub use schedule::{DropState, DropView, drop_run};
pub use take_phase::{DropTake, drop_first_take};
