//! Tests of the queue with a sole consumer.
#![tactic(auto)]

#[cfg(test)]
mod bench;
#[cfg(test)]
mod random;
#[cfg(test)]
mod schedules;
#[cfg(test)]
mod stopped;
#[cfg(test)]
mod threads;
