ghost use Rattle.std.specs.Prelude.{◌≡◌, ◌++◌, codes, decimal, string_bytes, IfOk};
ghost use Rattle.serde_json.specs.View.{view};
ghost use Rattle.span_words.specs.declared.span.SpanKind.TheVariants.{Piece};
ghost use Rattle.trace_json.specs.Trace.{counter_data, text_of_counter};

use serde_json::{Value, json};
use span_words::SpanEvent;
use std::alloc::{AllocError, Global};
use word_text::Text;

fn counter_value(alloc: Global, event: &SpanEvent) -> Result<Value, AllocError>
    ensures { IfOk result (λ v. view v ≡ counter_data event.now) }
{
    let name = counter_name(alloc, event.tid)?;
    let args = json!(in alloc; {"words": event.total})?;
    json!(in alloc; {
        "args": args,
        "name": name.as_str(),
        "ph": "C",
        "pid": 1u64,
        "tid": event.tid,
        "ts": event.ts.saturating_add(event.dur)
    })
}

fn counter_name(alloc: Global, tid: u64) -> Result<String, AllocError>
    ensures { IfOk result (λ name. string_bytes name ≡ codes "words " ++ decimal tid) }
{
    format!(in alloc; "words {tid}")
}

/// The text of the counter of a worker's words, as the span of a piece left it.
pub fn counter_text(alloc: Global, event: &SpanEvent) -> Result<Text, AllocError>
    requires { event.now.kind ≡ Piece }
    ensures { IfOk result (λ text. text ≡ text_of_counter event.now) }
{
    let value = counter_value(alloc, event)?;
    let text = value.to_string(alloc)?;
    Ok(Text::from_bytes(text.into_bytes()))
}
