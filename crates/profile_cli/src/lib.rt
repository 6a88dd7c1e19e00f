//! The command: words are counted by workers that note their spans in a queue, and a trace of it is
//! stored.
#![tactic(auto)]

mod asked;
mod bbq_rails;
mod command;
mod ending;
mod input;
mod messages;
mod plans;
mod profiling;
mod queue_run;
mod rails;
mod solo_rails;
mod texts;
mod writing;

pub use bbq_rails::BbqRails;
pub use profiling::profile;
pub use rails::{Closed, Rails, Report};
pub use solo_rails::SoloRails;
