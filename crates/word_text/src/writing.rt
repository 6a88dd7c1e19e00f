ghost use Rattle.std.specs.Prelude.{◌≡◌, ℕ, ◌+◌, ◌<◌, ◌≤◌, ◌^◌, List, ◌++◌, length, map, sum, sum_by, decimal, OnOk, IfOk};
ghost use Rattle.std.specs.FinMap as map_of;
ghost use Rattle.std.specs.Map.{values_of};
ghost use Rattle.word_text.specs.Counts.{told, pair_of, line_of, head_of, text_of_entries};

use itoa::Buffer;
use std::alloc::{AllocError, Global};
use std::collections::HashMap;

/// The words of a table with their numbers, in byte order of the words.
pub(crate) fn in_order(
    alloc: Global,
    table: &HashMap<Vec<u8>, u64>,
) -> Result<Vec<(&[u8], u64)>, AllocError>
    ensures { IfOk result
        (λ pairs. map pair_of pairs.items ≡ map_of.entries (told table.now.entries)) }
{
    let mut pairs = Vec::with_capacity(alloc, table.len())?;
    for (word, number) in table {
        pairs.push((word.as_slice(), *number))?;
    }
    pairs.sort_unstable();
    Ok(pairs)
}

fn push_number(text: &mut Vec<u8>, number: u64) -> Result<(), AllocError>
    ensures { OnOk result (text.new.items ≡ text.old.items ++ decimal number) }
{
    let mut digits = Buffer::new();
    text.extend_from_slice(digits.format(number).as_bytes())
}

fn push_line(text: &mut Vec<u8>, word: &[u8], number: u64) -> Result<(), AllocError>
    ensures { OnOk result (text.new.items ≡ text.old.items ++ line_of (word.now, number)) }
{
    push_number(text, number)?;
    text.push(b' ')?;
    text.extend_from_slice(word)?;
    text.push(b'\n')?;
    Ok(())
}

fn push_head(text: &mut Vec<u8>, words: u64, distinct: usize) -> Result<(), AllocError>
    ensures { OnOk result (text.new.items ≡ text.old.items ++ head_of words distinct) }
{
    text.extend_from_slice(b"words ")?;
    push_number(text, words)?;
    text.extend_from_slice(b" distinct ")?;
    push_number(text, distinct as u64)?;
    text.push(b'\n')?;
    Ok(())
}

fn sum_of(pairs: &[(&[u8], u64)]) -> u64
    requires { sum_by (λ p. p.1) pairs.now < 2 ^ 63 }
    ensures { result ≡ sum_by (λ p. p.1) pairs.now }
{
    pairs.iter().map(|pair| pair.1).sum()
}

/// The counts text of words with their numbers.
pub(crate) fn text_of(alloc: Global, pairs: &[(&[u8], u64)]) -> Result<Vec<u8>, AllocError>
    requires { sum (values_of (map pair_of pairs.now)) < 2 ^ 63 }
    ensures { IfOk result (λ text. text.items ≡ text_of_entries (map pair_of pairs.now)) }
{
    let mut text = Vec::new(alloc);
    push_head(&mut text, sum_of(pairs), pairs.len())?;
    for pair in pairs {
        push_line(&mut text, pair.0, pair.1)?;
    }
    Ok(text)
}
