ghost use Rattle.std.specs.Prelude.{◌≡◌, ◌<◌, List, length, map, string_bytes, IfOk};
ghost use Rattle.serde_json.specs.Data.{object, member, no_members};
ghost use Rattle.serde_json.specs.View.{view};
ghost use Rattle.trace_json.specs.Trace.{whole, complete_event, event_data, text_of_event, piece_args, worker_args, HasFile};

use serde_json::{Value, json};
use span_words::{SpanEvent, SpanKind};
use std::alloc::{AllocError, Global};
use word_text::Text;

fn piece_args(alloc: Global, event: &SpanEvent) -> Result<Value, AllocError>
    ensures { IfOk result (λ v. view v ≡ object (piece_args event.now)) }
{
    json!(in alloc; {
        "depth": event.depth,
        "file": event.file,
        "piece": event.piece,
        "total": event.total,
        "words": event.words
    })
}

fn worker_args(alloc: Global, event: &SpanEvent) -> Result<Value, AllocError>
    ensures { IfOk result (λ v. view v ≡ object (worker_args event.now)) }
{
    json!(in alloc; {
        "depth": event.depth,
        "pieces": event.piece,
        "total": event.total,
        "words": event.words
    })
}

fn complete_event(
    alloc: Global,
    cat: &str,
    name: &str,
    args: Value,
    event: &SpanEvent,
) -> Result<Value, AllocError>
    ensures { IfOk result (λ v. view v ≡ complete_event cat.now name.now (view args) event.now) }
{
    json!(in alloc; {
        "args": args,
        "cat": cat,
        "dur": event.dur,
        "name": name,
        "ph": "X",
        "pid": 1u64,
        "tid": event.tid,
        "ts": event.ts
    })
}

fn event_value(alloc: Global, event: &SpanEvent, files: &[String]) -> Result<Value, AllocError>
    requires { HasFile (length files.now) event.now }
    ensures { IfOk result (λ v. view v ≡ event_data (map string_bytes files.now) event.now) }
{
    match event.kind {
        SpanKind::Piece => {
            let name = files[event.file as usize].as_str();
            complete_event(alloc, "piece", name, piece_args(alloc, event)?, event)
        }
        SpanKind::Worker => {
            complete_event(alloc, "worker", "worker", worker_args(alloc, event)?, event)
        }
    }
}

/// The text of the event of a span, where the texts have these names.
pub fn event_text(alloc: Global, event: &SpanEvent, files: &[String]) -> Result<Text, AllocError>
    requires { HasFile (length files.now) event.now }
    ensures { IfOk result (λ text. text ≡ text_of_event (map string_bytes files.now) event.now) }
{
    let value = event_value(alloc, event, files)?;
    let text = value.to_string(alloc)?;
    Ok(Text::from_bytes(text.into_bytes()))
}
