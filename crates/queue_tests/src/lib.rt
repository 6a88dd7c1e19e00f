//! Worked schedules of the queues' machines, and the layout of their words, as tests of what no clause says.
#![tactic(auto)]

#[cfg(test)]
mod cursors;
#[cfg(test)]
mod drop_schedules;
#[cfg(test)]
mod schedules;
#[cfg(test)]
mod views;
