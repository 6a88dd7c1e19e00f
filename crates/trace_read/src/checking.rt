ghost use Rattle.std.specs.Prelude.{◌≡◌, ◌⊎◌, Ok, Err, IfOk, IfErr, length, slice_get};
ghost use Rattle.span_words.specs.Workers.{spans_of};
ghost use Rattle.trace_read.specs.Totals.{agreed, words_of, total_of, totals_by_worker};

use crate::reading::ReadTrace;
use crate::total::{Total, Totals};
use span_words::{SpanEvent, SpanKind, tids_of};
use std::alloc::Global;
use thiserror::Error;

/// How a worker's spans disagree.
#[derive(Clone, Copy, Debug, Drop, PartialEq, Eq, Error)]
pub enum CheckError {
    #[error("worker {tid} has {found} spans of its own, and not one")]
    Workers { tid: u64, found: u64 },
    #[error("worker {tid} says {said} pieces, and {found} are listed")]
    Pieces { tid: u64, said: u64, found: u64 },
    #[error("worker {tid} says {said} words, and its pieces have {found}")]
    Words { tid: u64, said: u64, found: u128 },
    #[error("out of memory")]
    Memory,
}

/// The totals of all workers, or the first of them whose spans disagree.
pub fn totals(alloc: Global, trace: &ReadTrace) -> Result<Totals, CheckError>
    ensures ok { IfOk result (λ totals. totals_by_worker trace.now.spans ≡ Ok totals) }
    ensures err { IfErr result (λ e. (e ≡ CheckError.Memory)
        ⊎ (totals_by_worker trace.now.spans ≡ Err e)) }
{
    let spans = trace.spans.as_slice();
    let Ok(tids) = tids_of(alloc, spans) else {
        return Err(CheckError::Memory);
    };
    let mut totals = Vec::new(alloc);
    for tid in tids.iter() {
        let total = total_of(spans, *tid)?;
        if let Err(_) = totals.push(total) {
            return Err(CheckError::Memory);
        }
    }
    Ok(Totals::new(totals))
}

// How many spans of this kind a worker has.
fn number_of(spans: &[SpanEvent], kind: SpanKind, tid: u64) -> u64
    ensures { result ≡ length (spans_of kind tid spans.now) }
{
    spans
        .iter()
        .filter(|span| span.kind == kind && span.tid == tid)
        .count() as u64
}

// How many words the pieces of a worker have.
fn words_of(spans: &[SpanEvent], tid: u64) -> u128
    ensures { result ≡ words_of (spans_of SpanKind.Piece tid spans.now) }
{
    let mut words = 0;
    for span in spans {
        if span.kind == SpanKind::Piece && span.tid == tid {
            words += u128::from(span.words);
        }
    }
    words
}

// A worker's first span of its own.
fn first_worker(spans: &[SpanEvent], tid: u64) -> Option<SpanEvent>
    ensures { result ≡ slice_get (spans_of SpanKind.Worker tid spans.now) 0 }
{
    for span in spans {
        if span.kind == SpanKind::Worker && span.tid == tid {
            return Some(*span);
        }
    }
    None
}

// The total of a worker of this number.
fn total_of(spans: &[SpanEvent], tid: u64) -> Result<Total, CheckError>
    ensures { result ≡ total_of tid spans.now }
{
    let found = number_of(spans, SpanKind::Worker, tid);
    match first_worker(spans, tid) {
        Some(worker) if found == 1 => agreed(spans, tid, &worker),
        _ => Err(CheckError::Workers { tid, found }),
    }
}

// The total of a worker by its one span.
fn agreed(spans: &[SpanEvent], tid: u64, worker: &SpanEvent) -> Result<Total, CheckError>
    ensures { result ≡ agreed tid worker.now (spans_of SpanKind.Piece tid spans.now) }
{
    let pieces = number_of(spans, SpanKind::Piece, tid);
    if worker.piece != pieces {
        return Err(CheckError::Pieces {
            tid,
            said: worker.piece,
            found: pieces,
        });
    }
    let words = words_of(spans, tid);
    if u128::from(worker.words) != words {
        return Err(CheckError::Words {
            tid,
            said: worker.words,
            found: words,
        });
    }
    Ok(Total {
        tid,
        pieces,
        words,
        dur: worker.dur,
    })
}
