//! The steps of the queue with a sole consumer, as a pure machine.
#![tactic(auto)]

mod causes;
mod law;
mod order;
mod phase;
mod rest;
mod running;
mod schedule;
mod table;
mod take_phase;

pub use causes::sole_law_causes;
pub use law::{sole_law_accepted, sole_law_steps, sole_law_taken};
pub use machine::{Event, Op, Start};
pub use order::sole_law_order;
pub use phase::{SoleAfter, SolePhase, sole_after, sole_first_put, sole_rank, sole_want};
pub use rail::Answer;
pub use rest::sole_law_rest;
pub use schedule::{SoleState, SoleView, sole_run};
pub use take_phase::{SoleTake, next_cursor, sole_first_take, sole_take_at};
