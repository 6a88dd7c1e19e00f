//! The queues for many threads, as a library for C.
#![tactic(auto)]

mod answer;
mod calls;
mod close;
mod closed;
mod closing;
mod consumer;
mod ended;
mod endings;
mod handle;
mod held;
mod kinds;
mod log;
mod look;
mod making;
mod own;
mod queue;
mod ring;
mod seating;
mod slot;
mod view;

pub use answer::{ZemAnswer, ZemCursor, ZemLook};
pub use close::{zem_close, zem_ring_close};
pub use closed::{ZemCounts, zem_counts, zem_done, zem_left};
pub use kinds::{ZemClosed, ZemLogConsumer, ZemLogSeat, ZemRingSeat, ZemSeat};
pub use log::{zem_log_consumer_free, zem_log_free, zem_log_make, zem_log_put, zem_log_take};
pub use look::{zem_ring_look_block, zem_ring_look_entry, zem_ring_look_head};
pub use queue::{zem_free, zem_make, zem_put, zem_take};
pub use ring::{zem_ring_free, zem_ring_make, zem_ring_put, zem_ring_take};
pub use view::{ZemGap, ZemItem, ZemView, zem_ring_view};
