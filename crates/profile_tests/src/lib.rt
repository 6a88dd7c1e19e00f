//! Worked examples of the profiler and of what it stands on, as tests of what no clause says.
#![tactic(auto)]

#[cfg(test)]
mod beside;
#[cfg(test)]
mod command;
#[cfg(test)]
mod failures;
#[cfg(test)]
mod folded;
#[cfg(test)]
mod generated;
#[cfg(test)]
mod hands;
#[cfg(test)]
mod long_traces;
#[cfg(test)]
mod meeting;
#[cfg(test)]
mod outside;
#[cfg(test)]
mod read_traces;
#[cfg(test)]
mod reading;
#[cfg(test)]
mod recorder;
#[cfg(test)]
mod scripted;
#[cfg(test)]
mod spellings;
#[cfg(test)]
mod texts;
#[cfg(test)]
mod traces;
#[cfg(test)]
mod words;
