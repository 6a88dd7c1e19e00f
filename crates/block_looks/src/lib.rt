//! Looks at a queue that drops its oldest entries: readings that take nothing.
#![tactic(auto)]

mod law;
mod look;
mod looks;

pub use law::look_law;
pub use look::{Look, LookAfter, LookPhase, Seen, look_after, look_want};
pub use looks::Looks;
