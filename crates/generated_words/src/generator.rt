ghost use Rattle.std.specs.Prelude.{◌≡◌, ◌≤◌, ◌<◌, ◌*◌, ◌++◌, length, IfOk, OnOk};
ghost use Rattle.generated_words.specs.Generated.{first_words, generated_text, word_and_byte};

use itoa::Buffer;
use std::alloc::{AllocError, Global};
use word_text::Text;

/// A generated text has so many words at most.
pub const MOST_GENERATED: u64 = 10_000_000;

/// Each word of it has so many bytes at most, with the space or the newline after it.
pub const MOST_BYTES: usize = 5;

// So many words come again and again, each with the same byte after it.
const PERIOD: u64 = 1_000;

// Word i of n, with what stands after it.
fn push_word(text: &mut Vec<u8>, n: u64, i: u64) -> Result<(), AllocError>
    requires few { n ≤ MOST_GENERATED }
    requires place { i < n }
    ensures { OnOk result (text.new.items ≡ text.old.items ++ word_and_byte n i) }
{
    let mut digits = Buffer::new();
    text.push(b'w')?;
    text.extend_from_slice(digits.format((i * i + n) % 1000).as_bytes())?;
    let ends_line = i + 1 == n || (i + 1) % 10 == 0;
    text.push(if ends_line { b'\n' } else { b' ' })?;
    Ok(())
}

// Of the text of n words those from number `from` to number `to`, behind the ones before.
fn push_words(text: &mut Vec<u8>, n: u64, from: u64, to: u64) -> Result<(), AllocError>
    requires few { n ≤ MOST_GENERATED }
    requires order { from ≤ to }
    requires within { to ≤ n }
    requires begun { text.old.items ≡ first_words n from }
    ensures { OnOk result (text.new.items ≡ first_words n to) }
{
    for i in from..to {
        push_word(text, n, i)?;
    }
    Ok(())
}

/// The generated text of n words.
pub fn generate(alloc: Global, n: u64) -> Result<Text, AllocError>
    requires { n ≤ MOST_GENERATED }
    ensures text { IfOk result (λ text. text ≡ generated_text n) }
    ensures small { IfOk result (λ text. length text ≤ MOST_BYTES * n) }
{
    let mut period = Vec::with_capacity(alloc, PERIOD as usize * MOST_BYTES)?;
    push_words(&mut period, n, 0, PERIOD.min(n))?;
    let mut text = Vec::with_capacity(alloc, n as usize * MOST_BYTES)?;
    let periods = n / PERIOD;
    for _ in 0..periods {
        text.extend_from_slice(period.as_slice())?;
    }
    push_words(&mut text, n, periods * PERIOD, n)?;
    Ok(Text::from_bytes(text))
}
