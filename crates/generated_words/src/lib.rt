//! A text of so many words, made by a rule.
#![tactic(auto)]

mod generator;
mod laws;

pub use generator::{MOST_BYTES, MOST_GENERATED, generate};
pub use laws::generated_text_has_its_words;
