//! The words of a text, and how often each stands there.
#![tactic(auto)]

ghost use Rattle.std.specs.Prelude.{◌≡◌};
ghost use Rattle.word_text.specs.Words.{words_of};

mod counts;
mod laws;
mod plan;
mod scan;
mod text;
mod writing;

pub use counts::{Counts, count_piece, counts_text, merge};
pub use laws::{
    merging_keeps_counts, numbers_count_words, pieces_are_the_text, plans_keep_words,
    words_are_ranges,
};
pub use plan::{MOST_PIECES, Piece, Plan, PlanError, pieces};
pub use scan::Words;
pub use text::Text;

/// The words of a text in order, as slices of it.
pub fn words(text: &[u8]) -> Words<'_>
    ensures { result ≡ words_of text.now }
{
    Words::over(text)
}
