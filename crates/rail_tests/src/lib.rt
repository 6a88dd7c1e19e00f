//! Worked examples of the queues that run and of the shared words under them, as tests of what no
//! clause says.
#![tactic(auto)]

#[cfg(test)]
mod calls;
#[cfg(test)]
mod claims;
#[cfg(test)]
mod flight_views;
#[cfg(test)]
mod gathering;
#[cfg(test)]
mod list_queue;
mod list_rail;
#[cfg(test)]
mod logged_steps;
#[cfg(test)]
mod looks;
#[cfg(test)]
mod many_threads;
#[cfg(test)]
mod newcomer;
#[cfg(test)]
mod one_seat;
mod passage;
#[cfg(test)]
mod races;
#[cfg(test)]
mod sharing;
#[cfg(test)]
mod two_seats;

pub use list_rail::{ListDone, ListRail, ListSeat};
pub use passage::{Passed, pass_all, put_all, put_kept, take_all, take_kept};
