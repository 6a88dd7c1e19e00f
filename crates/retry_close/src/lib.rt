//! How a queue that refuses when full is closed, and what it had then.
#![tactic(auto)]

mod settled;

pub use settled::{SettledQueue, close_into, left_number, room_to_close};
