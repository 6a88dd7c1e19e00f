//! Views of a running queue that drops its oldest entries: what it holds, without taking.
#![tactic(auto)]

mod gaps;
mod law;
mod schedule;
mod spot;
mod viewer;
mod walking;

pub use gaps::{Gap, Gaps};
pub use law::law_view;
pub use schedule::{ViewEvent, ViewState, view_run};
pub use walking::{View, flight_view};
