//! The words of the command `bbq-profile`, read with `clap`.
#![tactic(auto)]

mod laws;
mod numbers;
mod options;
mod refusal;

pub use laws::{uses_in_any_order, words_behind_dashes, worked_lines};
pub use options::{MOST_PIECE, Mode, Options, read_options};
pub use refusal::{ReadError, Refusal};
