ghost use Rattle.std.specs.Prelude.{◌≡◌, ◌⊎◌, Ok, Err, Some, None, IfOk, IfErr, option_map};
ghost use Rattle.serde_json.specs.View.{view, items_view};
ghost use Rattle.trace_read.specs.Reading.{document_of, event_reading, spans_from, events_of, number_beside, trace_of, reading};

use crate::event::{span_kind, span_of};
use crate::members::{text_at, whole_at};
use crate::spans::Spans;
use serde_json::Value;
use span_words::SpanEvent;
use std::alloc::Global;
use thiserror::Error;

/// A trace that was read.
#[derive(Drop)]
pub struct ReadTrace {
    /// How many spans were accepted.
    pub accepted: u64,
    /// How many spans are said to be listed, which is how many are.
    pub kept: u64,
    pub spans: Spans,
}

/// Why a text is no trace.
#[derive(Clone, Copy, Debug, Drop, PartialEq, Eq, Error)]
pub enum ReadError {
    #[error("the text is not JSON")]
    Json,
    #[error("the text is not an object")]
    Top,
    #[error("there is no list of events")]
    Events,
    #[error("the number of accepted or of kept spans is missing")]
    Numbers,
    /// The event of this index.
    #[error("event {0} is not one")]
    Event(usize),
    /// The span at this index among the events.
    #[error("the span at {0} is not whole")]
    Span(usize),
    #[error("{found} spans are listed, and not {said}")]
    Kept { said: u64, found: u64 },
    #[error("out of memory")]
    Memory,
}

/// Reads a text as a trace, or refuses it by its first fault.
#[tactic(auto, unfolding(crate::specs::Reading::reading))]
pub fn read_trace(alloc: Global, text: &[u8]) -> Result<ReadTrace, ReadError>
    ensures ok { IfOk result (λ trace. reading text.now ≡ Ok trace) }
    ensures err { IfErr result (λ e. (e ≡ ReadError.Memory) ⊎ (reading text.now ≡ Err e)) }
{
    let document = document_of(alloc, text)?;
    trace_of(alloc, &document)
}

fn document_of(alloc: Global, text: &[u8]) -> Result<Value, ReadError>
    ensures ok { IfOk result (λ document. document_of text.now ≡ Some (view document)) }
    ensures err { IfErr result (λ e. (e ≡ ReadError.Memory)
        ⊎ ((e ≡ ReadError.Json) × (document_of text.now ≡ None))) }
{
    match Value::from_slice(alloc, text) {
        Ok(document) => Ok(document),
        Err(error) => {
            if error.is_memory() {
                return Err(ReadError::Memory);
            }
            Err(ReadError::Json)
        }
    }
}

#[tactic(auto, unfolding(crate::specs::Reading::event_reading))]
fn event_reading(index: usize, event: &Value) -> Result<Option<SpanEvent>, ReadError>
    ensures { result ≡ event_reading index (view event.now) }
{
    let ph = text_at(event, "ph").ok_or(ReadError::Event(index))?;
    match span_kind(ph, event) {
        None => Ok(None),
        Some(kind) => match span_of(kind, event) {
            Some(span) => Ok(Some(span)),
            None => Err(ReadError::Span(index)),
        },
    }
}

fn spans_of(alloc: Global, events: &[Value]) -> Result<Vec<SpanEvent>, ReadError>
    ensures ok { IfOk result (λ spans. spans_from 0 (items_view events.now) ≡ Ok spans.items) }
    ensures err { IfErr result (λ e. (e ≡ ReadError.Memory)
        ⊎ (spans_from 0 (items_view events.now) ≡ Err e)) }
{
    let mut spans = Vec::new(alloc);
    for (index, event) in events.iter().enumerate() {
        if let Some(span) = event_reading(index, event)? {
            if let Err(_) = spans.push(span) {
                return Err(ReadError::Memory);
            }
        }
    }
    Ok(spans)
}

#[tactic(auto, unfolding(crate::specs::Reading::events_of))]
fn events_of(document: &Value) -> Option<&Vec<Value>>
    ensures { option_map (λ events. items_view events.now.items) result
        ≡ events_of (view document.now) }
{
    document.get("traceEvents").and_then(Value::as_array)
}

#[tactic(auto, unfolding(crate::specs::Reading::number_beside))]
fn number_beside(document: &Value, name: &str) -> Option<u64>
    ensures { result ≡ number_beside name.now (view document.now) }
{
    whole_at(document.get("otherData")?, name)
}

#[tactic(auto, unfolding(crate::specs::Reading::trace_of))]
fn trace_of(alloc: Global, document: &Value) -> Result<ReadTrace, ReadError>
    ensures ok { IfOk result (λ trace. trace_of (view document.now) ≡ Ok trace) }
    ensures err { IfErr result (λ e. (e ≡ ReadError.Memory)
        ⊎ (trace_of (view document.now) ≡ Err e)) }
{
    if !document.is_object() {
        return Err(ReadError::Top);
    }
    let events = events_of(document).ok_or(ReadError::Events)?;
    let accepted = number_beside(document, "accepted").ok_or(ReadError::Numbers)?;
    let kept = number_beside(document, "kept").ok_or(ReadError::Numbers)?;
    let spans = spans_of(alloc, events.as_slice())?;
    let found = spans.len() as u64;
    if kept != found {
        return Err(ReadError::Kept { said: kept, found });
    }
    Ok(ReadTrace {
        accepted,
        kept,
        spans: Spans::new(spans),
    })
}
