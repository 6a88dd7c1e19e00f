ghost use Rattle.std.specs.Prelude.{◌≡◌};
ghost use Rattle.serde_json.specs.View.{view};
ghost use Rattle.trace_read.specs.Event.{tid_in, file_in, piece_in, span_of, kind_named, span_kind};

use crate::members::{text_at, whole_at, whole_or_absent};
use serde_json::Value;
use span_words::{MOST_WORKERS, SpanEvent, SpanKind};

#[tactic(auto, unfolding(crate::specs::Event::tid_in))]
fn tid_in(event: &Value) -> Option<u64>
    ensures { result ≡ tid_in (view event.now) }
{
    let tid = whole_at(event, "tid")?;
    if 1 <= tid && tid <= MOST_WORKERS {
        Some(tid)
    } else {
        None
    }
}

#[tactic(auto, unfolding(crate::specs::Event::file_in))]
fn file_in(kind: SpanKind, args: &Value) -> Option<u64>
    ensures { result ≡ file_in kind (view args.now) }
{
    match kind {
        SpanKind::Worker => Some(0),
        SpanKind::Piece => whole_at(args, "file"),
    }
}

#[tactic(auto, unfolding(crate::specs::Event::piece_in))]
fn piece_in(kind: SpanKind, args: &Value) -> Option<u64>
    ensures { result ≡ piece_in kind (view args.now) }
{
    match kind {
        SpanKind::Worker => whole_at(args, "pieces"),
        SpanKind::Piece => whole_at(args, "piece"),
    }
}

/// The span of this kind that an event is, where no member that it needs is missing or wrong.
#[tactic(auto, unfolding(crate::specs::Event::span_of))]
pub fn span_of(kind: SpanKind, event: &Value) -> Option<SpanEvent>
    ensures { result ≡ span_of kind (view event.now) }
{
    let tid = tid_in(event)?;
    let ts = whole_at(event, "ts")?;
    let dur = whole_at(event, "dur")?;
    let args = event.get("args")?;
    Some(SpanEvent {
        kind,
        tid,
        ts,
        dur,
        file: file_in(kind, args)?,
        piece: piece_in(kind, args)?,
        words: whole_at(args, "words")?,
        depth: whole_or_absent(args, "depth")?,
        total: whole_or_absent(args, "total")?,
    })
}

fn kind_named(cat: &str) -> Option<SpanKind>
    ensures { result ≡ kind_named cat.now }
{
    if cat == "piece" {
        Some(SpanKind::Piece)
    } else if cat == "worker" {
        Some(SpanKind::Worker)
    } else {
        None
    }
}

/// The kind of span that an event is, if it is one.
#[tactic(auto, unfolding(crate::specs::Event::span_kind))]
pub fn span_kind(ph: &str, event: &Value) -> Option<SpanKind>
    ensures { result ≡ span_kind ph.now (view event.now) }
{
    if ph != "X" {
        return None;
    }
    kind_named(text_at(event, "cat")?)
}
