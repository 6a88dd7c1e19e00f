ghost use Rattle.std.specs.Prelude.{◌≡◌, ◌≢◌, ℕ, ◌+◌, ◌<◌, ◌^◌, if◌then◌else◌, unwrap_or, Some, None, IfOk, OnOk};
ghost use Rattle.std.specs.BTreeMap.{get, keys, Updates};
ghost use Rattle.std.specs.BTreeSet.{insert_key};
ghost use Rattle.std.specs.Ordering.{nat_cmp};
ghost use Rattle.span_words.specs.declared.span.SpanKind.TheVariants.{Piece};
ghost use Rattle.span_words.specs.declared.span.SpanEvent.{SpanEvent};
ghost use Rattle.span_words.specs.Workers.{is_kind, spans_of};
ghost use Rattle.span_fold.specs.Folded.{dur_of, folded, stack_cmp, stack_of, stacks_of, whole_time, Stack};
ghost use Rattle.span_fold.specs.Nested.{IsNested, time_of};

use crate::folded::{Folded, Line};
use span_words::{SpanEvent, SpanKind};
use std::alloc::{AllocError, Global};
use std::collections::BTreeMap;

/// How long each worker took by itself and in each file, by its spans.
pub fn fold(alloc: Global, spans: &[SpanEvent]) -> Result<Folded, AllocError>
    ensures lines { IfOk result (λ lines. lines ≡ folded spans.now) }
    ensures nested { IfOk result (λ lines. (tid : ℕ) (worker : SpanEvent)
        → IsNested tid worker spans.now → time_of tid lines ≡ worker.dur) }
{
    let stacks = stack_times(alloc, spans)?;
    let pieces = piece_times(alloc, spans)?;
    let mut lines = Vec::with_capacity(alloc, stacks.len())?;
    for (stack, whole) in stacks.iter() {
        let (tid, file) = *stack;
        let time = whole.saturating_sub(inner_time(&pieces, tid, file));
        lines.push(Line { tid, file, time })?;
    }
    Ok(Folded::new(lines))
}

// How long the spans of each stack took.
fn stack_times(
    alloc: Global,
    spans: &[SpanEvent],
) -> Result<BTreeMap<(u64, Option<u64>), u128>, AllocError>
    ensures keys { IfOk result (λ times. keys times ≡ stacks_of spans.now) }
    ensures times { IfOk result (λ times. (stack : Stack)
        → unwrap_or (get stack_cmp times stack) 0 ≡ whole_time spans.now stack.0 stack.1) }
{
    let mut times = BTreeMap::new(alloc);
    for span in spans {
        add(&mut times, stack_of(span), span.dur)?;
    }
    Ok(times)
}

// How long the pieces of each worker took.
fn piece_times(alloc: Global, spans: &[SpanEvent]) -> Result<BTreeMap<u64, u128>, AllocError>
    ensures { IfOk result (λ times. (tid : ℕ)
        → unwrap_or (get nat_cmp times tid) 0 ≡ dur_of (spans_of Piece tid spans.now)) }
{
    let mut times = BTreeMap::new(alloc);
    for span in spans {
        add(&mut times, span.tid, piece_time(span))?;
    }
    Ok(times)
}

// How long what lies within a stack took, where the pieces of each worker took so long.
fn inner_time(pieces: &BTreeMap<u64, u128>, tid: u64, file: Option<u64>) -> u128
    ensures own { file ≡ None → result ≡ unwrap_or (get nat_cmp pieces.now tid) 0 }
    ensures in_file { file ≢ None → result ≡ 0 }
{
    match file {
        None => pieces.get(&tid).copied().unwrap_or(0),
        Some(_) => 0,
    }
}

// How long a span took where it is a piece.
fn piece_time(span: &SpanEvent) -> u64
    ensures { result ≡ (if is_kind Piece span.now.kind then span.now.dur else 0) }
{
    match span.kind {
        SpanKind::Worker => 0,
        SpanKind::Piece => span.dur,
    }
}

fn stack_of(span: &SpanEvent) -> (u64, Option<u64>)
    ensures { result ≡ stack_of span.now }
{
    match span.kind {
        SpanKind::Worker => (span.tid, None),
        SpanKind::Piece => (span.tid, Some(span.file)),
    }
}

// Adds a time to what stands at a key.
fn add<K: Ord + Copy + Drop>(
    times: &mut BTreeMap<K, u128>,
    key: K,
    dur: u64,
) -> Result<(), AllocError>
    requires { unwrap_or (get K.cmp times.old key) 0 + dur < 2 ^ 128 }
    ensures updates { OnOk result (Updates K.cmp times.old times.new key
        (Some (unwrap_or (get K.cmp times.old key) 0 + dur))) }
    ensures keys { OnOk result (keys times.new ≡ insert_key K.cmp (keys times.old) key) }
{
    let time = times.get(&key).copied().unwrap_or(0);
    times.insert(key, time + u128::from(dur))?;
    Ok(())
}
