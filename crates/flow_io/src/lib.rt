//! Where bytes come from and go to, with the failures of the system counted.
#![tactic(auto)]

mod arguments;
mod clock;
mod failing_calls;
mod flow;
mod memory;
mod reading;
mod real;
mod saying;
mod store;
mod writing;

pub use arguments::{ArgumentsError, read_arguments};
pub use clock::{LAST_READING, MemClock, MemHand, RealClock, RealHand};
pub use flow::{Clock, Got, Hand, Sink, Source, Took, TraceStore};
pub use memory::{MemSink, MemSource};
pub use reading::{MOST_INPUT, MOST_TEXT, Reading, read_text};
pub use real::{FileSource, FileStore, StderrSink, StdoutSink};
pub use saying::say;
pub use store::MemStore;
pub use writing::write_all;
