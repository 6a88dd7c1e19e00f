//! Spans of a profile, each spelled as a few numbers.
#![tactic(auto)]

mod laws;
mod span;
mod workers;

pub use laws::spelling_tells_span;
pub use span::{
    MOST_WORKERS, SHORT_SPAN_WORDS, SPAN_WORDS, SpanEvent, SpanKind, WordsError, decode, encode,
};
pub use workers::tids_of;
