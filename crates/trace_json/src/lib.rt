//! The text of a trace in the JSON object form of the Trace Event Format.
#![tactic(auto)]

mod counter;
mod entries;
mod event;
mod laws;
mod thread;
mod trace;

pub use counter::counter_text;
pub use event::event_text;
pub use laws::trace_text_in_parts;
pub use thread::thread_text;
pub use trace::{TraceError, write_trace};
