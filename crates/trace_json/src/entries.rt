ghost use Rattle.std.specs.Prelude.{◌≡◌, ◌++◌, [], ◌∷◌, length, map, flat_map, string_bytes, OnOk};
ghost use Rattle.serde_json.specs.Written.{comma_if};
ghost use Rattle.span_words.specs.Workers.{tids_of};
ghost use Rattle.trace_json.specs.Trace.{HasFile, text_of_thread, text_of_counter, text_of_span};

use crate::{counter_text, event_text, thread_text};
use span_words::{SpanEvent, SpanKind, tids_of};
use std::alloc::{AllocError, Global};

/// Writes what the workers of these spans are called. A span follows each, so a comma does too.
pub fn push_threads(
    alloc: Global,
    text: &mut Vec<u8>,
    events: &[SpanEvent],
) -> Result<(), AllocError>
    ensures { OnOk result (text.new.items ≡ text.old.items
        ++ flat_map (λ tid. text_of_thread tid ++ 44 ∷ []) (tids_of events.now)) }
{
    let tids = tids_of(alloc, events)?;
    for tid in tids.iter() {
        text.extend_from_slice(thread_text(alloc, *tid)?.bytes())?;
        text.push(b',')?;
    }
    Ok(())
}

fn push_comma_if(text: &mut Vec<u8>, later: bool) -> Result<(), AllocError>
    ensures { OnOk result (text.new.items ≡ text.old.items ++ comma_if later) }
{
    if later {
        text.push(b',')?;
    }
    Ok(())
}

fn push_counter(alloc: Global, text: &mut Vec<u8>, event: &SpanEvent) -> Result<(), AllocError>
    requires { event.now.kind ≡ SpanKind.Piece }
    ensures { OnOk result (text.new.items ≡ text.old.items ++ 44 ∷ text_of_counter event.now) }
{
    text.push(b',')?;
    text.extend_from_slice(counter_text(alloc, event)?.bytes())?;
    Ok(())
}

/// Writes the entries of a span, behind a comma where something stands before.
pub fn push_span(
    alloc: Global,
    text: &mut Vec<u8>,
    later: bool,
    event: &SpanEvent,
    files: &[String],
) -> Result<(), AllocError>
    requires { HasFile (length files.now) event.now }
    ensures { OnOk result (text.new.items ≡ text.old.items
        ++ (comma_if later ++ text_of_span (map string_bytes files.now) event.now)) }
{
    push_comma_if(text, later)?;
    text.extend_from_slice(event_text(alloc, event, files)?.bytes())?;
    match event.kind {
        SpanKind::Piece => push_counter(alloc, text, event),
        SpanKind::Worker => Ok(()),
    }
}
