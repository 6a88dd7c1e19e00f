//! The counts of all workers together.
ghost use Rattle.std.specs.Prelude.{◌≡◌, ◌+◌, ◌<◌, ◌≤◌, ◌++◌, ◌^◌, List, ℕ, length, sum_by, true, IfOk};
ghost use Rattle.std.specs.List.{All};
ghost use Rattle.std.specs.FinMap as map_of;
ghost use denote.Param.Send.{IsSync};
ghost use Rattle.word_text.specs.Counts.{add_all, total};
ghost use Rattle.word_workers.specs.Merged.{AreTogether};

use std::alloc::{AllocError, Global};
use std::thread::{Threads, join};
use word_text::{Counts, merge};

/// With fewer words than this a thread costs more than it saves.
const WORDS_FOR_A_THREAD: usize = 4096;

/// The counts of all of these together: those of each half, merged with one another. Where both
/// halves have much to merge, one is merged in a thread of its own, or here where none can be made.
#[cycle(merging)]
pub fn merge_all<X: Threads + Sync>(
    rt: &X,
    alloc: Global,
    counts: Vec<Counts>,
) -> Result<Counts, AllocError>
    requires room { sum_by total counts.items < 2 ^ 63 }
    ensures { IfOk result (AreTogether counts.items) }
{
    if counts.len() < 2 {
        return Ok(only_one(alloc, counts));
    }
    let (half, rest) = in_halves(counts)?;
    if !pays_a_thread(half.as_slice()) || !pays_a_thread(rest.as_slice()) {
        let first = merge_all(rt, alloc, half)?;
        let second = merge_all(rt, alloc, rest)?;
        let both = merge_two(alloc, first, second)?;
        return Ok(both);
    }
    let (first, second) = join(
        rt,
        move || -> Result<Counts, AllocError>
            requires { IsSync X.row × (sum_by total half.items < 2 ^ 63) }
            ensures { IfOk result (AreTogether half.items) }
        { merge_all(rt, alloc, half) },
        move || -> Result<Counts, AllocError>
            requires { IsSync X.row × (sum_by total rest.items < 2 ^ 63) }
            ensures { IfOk result (AreTogether rest.items) }
        { merge_all(rt, alloc, rest) },
    );
    let both = merge_two(alloc, first?, second?)?;
    Ok(both)
}

// The only counts, or those of no word.
fn only_one(alloc: Global, counts: Vec<Counts>) -> Counts
    requires few { length counts.items < 2 }
    ensures { AreTogether counts.items result }
{
    let mut counts = counts;
    match counts.pop() {
        Some(only) => only,
        None => Counts::new(alloc),
    }
}

// The first half of several counts, and the rest.
fn in_halves(counts: Vec<Counts>) -> Result<(Vec<Counts>, Vec<Counts>), AllocError>
    requires some { 2 ≤ length counts.items }
    ensures all { IfOk result (λ halves. halves.0.items ++ halves.1.items ≡ counts.items) }
    ensures totals { IfOk result (λ halves.
        sum_by total halves.0.items + sum_by total halves.1.items ≡ sum_by total counts.items) }
    ensures first { IfOk result (λ halves. length halves.0.items < length counts.items) }
    ensures second { IfOk result (λ halves. length halves.1.items < length counts.items) }
{
    let mut counts = counts;
    let half = counts.len() / 2;
    let rest = counts.split_off(half)?;
    Ok((counts, rest))
}

// Whether there is something to merge here, and each of these has words enough for a thread.
fn pays_a_thread(counts: &[Counts]) -> bool
    ensures several { result ≡ true → 2 ≤ length counts.now }
    ensures words { result ≡ true → All (λ own. WORDS_FOR_A_THREAD ≤ map_of.len own) counts.now }
{
    counts.len() > 1
        && counts
            .iter()
            .all(|own| own.distinct() >= WORDS_FOR_A_THREAD)
}

// The counts of both together. Those with more words are taken as they are.
fn merge_two(alloc: Global, first: Counts, second: Counts) -> Result<Counts, AllocError>
    requires room { total first + total second < 2 ^ 63 }
    ensures counted { IfOk result (λ both. (words more : List (List ℕ))
        → first ≡ add_all map_of.empty words → second ≡ add_all map_of.empty more
        → both ≡ add_all map_of.empty (words ++ more)) }
    ensures totals { IfOk result (λ both. total both ≡ total first + total second) }
{
    let mut first = first;
    let mut second = second;
    if first.distinct() < second.distinct() {
        merge(alloc, &mut second, &first)?;
        return Ok(second);
    }
    merge(alloc, &mut first, &second)?;
    Ok(first)
}
