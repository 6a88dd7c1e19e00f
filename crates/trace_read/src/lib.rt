//! Reads the text of a trace, and checks its totals.
#![tactic(auto)]

mod checking;
mod command;
mod ending;
mod event;
mod laws;
mod members;
mod reading;
mod spans;
mod total;

pub use checking::{CheckError, totals};
pub use command::{Checked, trace_top};
pub use laws::trace_text_reads_back;
pub use reading::{ReadError, ReadTrace, read_trace};
pub use spans::Spans;
pub use total::{Total, Totals};
