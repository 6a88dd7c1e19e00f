ghost use Rattle.std.specs.Prelude.{◌≡◌, ℕ, ◌+◌, ◌<◌, ◌≤◌, ◌^◌, List, ◌++◌, ◌⊎◌, length, OnOk, OnErr, IfOk, IsOk};
ghost use Rattle.std.specs.FinMap as map_of;
ghost use Rattle.std.specs.HashMap.{IsUnchanged};
ghost use Rattle.word_text.specs.Words.{words_of};
ghost use Rattle.word_text.specs.Counts.{count_in, add_number, add_all, merged, told, total, counts_text_of};

use crate::text::Text;
use crate::words;
use crate::writing::{in_order, text_of};
use std::alloc::{AllocError, Global};
use std::collections::HashMap;
use std::marker::Model;

/// Words, each with the number of times that it was counted, which is at least one.
#[derive(Drop)]
pub struct Counts {
    table: HashMap<Vec<u8>, u64>,
}

impl Model for Counts {
    ghost use Rattle.std.specs.Prelude.{ℕ};
    ghost use Rattle.std.specs.Ordering.{nat_cmp};
    ghost use Rattle.std.specs.Cmp.Lexicographic.{slice_cmp};
    ghost use Rattle.std.specs.Coded.{coded_ℕ, coded_list};
    ghost use Rattle.std.specs.FinMap as map_of;
    ghost use Rattle.word_text.specs.Counts.{told, IsCounted};

    ghost Value = { map_of.FinMap (slice_cmp nat_cmp) ℕ };

    ghost coded = { map_of.code (coded_list coded_ℕ) coded_ℕ };

    ghost view = { λ a. told a.table.entries };

    ghost invariant = { λ a. IsCounted (told a.table.entries) };
}

impl Counts {
    pub fn new(alloc: Global) -> Counts
        ensures none { result ≡ map_of.empty }
        ensures total { total result ≡ 0 }
    {
        Counts {
            table: HashMap::new(alloc),
        }
    }

    /// How many different words were counted.
    pub fn distinct(&self) -> usize
        ensures { result ≡ map_of.len self.now }
    {
        self.table.len()
    }

    fn add(&mut self, alloc: Global, word: &[u8], number: u64) -> Result<(), AllocError>
        requires some { 0 < number }
        requires room { total self.old + number < 2 ^ 63 }
        ensures ok { OnOk result (self.new ≡ add_number self.old word.now number) }
        ensures known { 0 < count_in self.old word.now → IsOk result }
        ensures err { OnErr result (self.new ≡ self.old) }
    {
        add_number(alloc, &mut self.table, word, number)
    }
}

/// Adds one for each word of a text, and answers how many words it has.
pub fn count_piece(alloc: Global, counts: &mut Counts, text: &[u8]) -> Result<u64, AllocError>
    requires { total counts.old + length (words_of text.now) < 2 ^ 63 }
    ensures counted { OnOk result (counts.new ≡ add_all counts.old (words_of text.now)) }
    ensures answer { IfOk result (λ n. n ≡ length (words_of text.now)) }
    ensures err { OnErr result ((done : List (List ℕ)) × (left : List (List ℕ))
        × (done ++ left ≡ words_of text.now) × (counts.new ≡ add_all counts.old done)) }
{
    let mut count = 0;
    for word in words(text) {
        counts.add(alloc, word, 1)?;
        count += 1;
    }
    Ok(count)
}

/// Adds the numbers of other counts, word by word.
pub fn merge(alloc: Global, into: &mut Counts, from: &Counts) -> Result<(), AllocError>
    requires { total into.old + total from.now < 2 ^ 63 }
    ensures ok { OnOk result (into.new ≡ merged into.old from.now) }

    // Some words were added in full, and the others not at all.
    ensures err { OnErr result ((word : List ℕ)
        → (count_in into.new word ≡ count_in into.old word + count_in from.now word)
        ⊎ (count_in into.new word ≡ count_in into.old word)) }
{
    for (word, number) in from.table.iter() {
        into.add(alloc, word.as_slice(), *number)?;
    }
    Ok(())
}

/// The counts text of 'words', 'distinct' and a line for each word in byte order.
pub fn counts_text(alloc: Global, counts: &Counts) -> Result<Text, AllocError>
    ensures { IfOk result (λ text. text ≡ counts_text_of counts.now) }
{
    let pairs = in_order(alloc, &counts.table)?;
    let bytes = text_of(alloc, pairs.as_slice())?;
    Ok(Text::from_bytes(bytes))
}

/// Adds a number for a word. Only a word that is new takes memory.
fn add_number(
    alloc: Global,
    table: &mut HashMap<Vec<u8>, u64>,
    word: &[u8],
    number: u64,
) -> Result<(), AllocError>
    requires { count_in (told table.old.entries) word.now + number < 2 ^ 64 }
    ensures ok { OnOk result
        (told table.new.entries ≡ add_number (told table.old.entries) word.now number) }
    ensures known { 0 < count_in (told table.old.entries) word.now → IsOk result }
    ensures err { OnErr result (IsUnchanged table.old table.new) }
{
    match table.get_mut(word) {
        Some(count) => *count += number,
        None => {
            table.insert(Vec::from_slice(alloc, word)?, number)?;
        }
    }
    Ok(())
}
