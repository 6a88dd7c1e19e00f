//! How long each worker took by itself and in each file: the lines of which flame graphs are drawn.
#![tactic(auto)]

mod folded;
mod folding;
mod writing;

pub use folded::{Folded, Line};
pub use folding::fold;
pub use writing::fold_text;
