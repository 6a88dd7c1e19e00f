ghost use Rattle.std.specs.Prelude.{◌≡◌, ℕ, ◌<◌, ◌≤◌, true, false, List, [], ◌∷◌, length, slice_index, MatchOption};
ghost use Rattle.std.specs.Iterator.{YieldsFirstRef, item_count};
ghost use Rattle.word_text.specs.Words.{is_separator, words_of};

use std::marker::Model;

fn is_separator(byte: u8) -> bool
    ensures { result ≡ is_separator byte }
{
    byte == 32 || (9 <= byte && byte <= 13)
}

/// How many separators stand at the front.
fn gap_len(text: &[u8]) -> usize
    ensures within { result ≤ length text.now }
    ensures gap { (k : ℕ) → k < result → is_separator (slice_index text.now k) ≡ true }
    ensures stop { result < length text.now → is_separator (slice_index text.now result) ≡ false }
{
    text.iter()
        .position(|byte| !is_separator(*byte))
        .unwrap_or(text.len())
}

/// How many bytes stand before the first separator.
pub(crate) fn word_len(text: &[u8]) -> usize
    ensures within { result ≤ length text.now }
    ensures unbroken { (k : ℕ) → k < result → is_separator (slice_index text.now k) ≡ false }
    ensures stop { result < length text.now → is_separator (slice_index text.now result) ≡ true }
{
    for (i, byte) in text.iter().enumerate() {
        if is_separator(*byte) {
            return i;
        }
    }
    text.len()
}

/// The first word, and what stands behind it.
fn split_word(text: &[u8]) -> Option<(&[u8], &[u8])>
    ensures { MatchOption result (words_of text.now ≡ [])
        (λ parts. words_of text.now ≡ parts.0.now ∷ words_of parts.1.now) }
{
    let gap = gap_len(text);
    let from = &text[gap..];
    let len = word_len(from);
    if len == 0 {
        return None;
    }
    Some((&from[..len], &from[len..]))
}

/// The words of a text that are left, in order.
#[derive(Drop)]
pub struct Words<'a> {
    rest: &'a [u8],
}

impl<'a> Model for Words<'a> {
    ghost use Rattle.std.specs.Prelude.{List, ℕ};
    ghost use Rattle.word_text.specs.Words.{words_of};

    ghost Value = { List (List ℕ) };

    ghost view = { λ a. words_of a.rest.now };
}

impl<'a> Words<'a> {
    pub(crate) fn over(text: &'a [u8]) -> Words<'a>
        ensures { result ≡ words_of text.now }
    {
        Words { rest: text }
    }
}

impl<'a> Iterator for Words<'a> {
    type Item = &'a [u8];

    ghost next_gives = { YieldsFirstRef (λ s. s) };

    ghost remaining = { item_count (λ s. s) };

    fn next(&mut self) -> Option<&'a [u8]> {
        let (word, rest) = split_word(self.rest)?;
        self.rest = rest;
        Some(word)
    }
}
