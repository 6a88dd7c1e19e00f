ghost use Rattle.std.specs.Prelude.{◌≡◌, ◌<◌, ◌≤◌, [], ◌++◌, All, length, map, string_bytes, IfErr, IsErrOf, OnOk, OnErr};
ghost use Rattle.flow_io.specs.Flow.{Rose, gained, GainedPart};
ghost use Rattle.trace_json.specs.Trace.{trace_text, head_text, HasFile, HandsOver};

use crate::entries::{push_span, push_threads};
use flow_io::{Sink, write_all};
use itoa::Buffer;
use span_words::SpanEvent;
use std::alloc::{AllocError, Global};
use thiserror::Error;

/// From this length on the text is handed to the sink.
const FULL: usize = 65_536;

/// Why a trace isn't whole.
#[derive(Debug, Drop, Error)]
pub enum TraceError {
    #[error("cannot write the trace")]
    Fault,
    #[error("out of memory")]
    Memory,
}

impl From<AllocError> for TraceError {
    ghost use Rattle.trace_json.specs.declared.trace.TraceError.TheVariants.{Memory};

    ghost from_gives = { λ _ e. e ≡ Memory };

    fn from(_refused: AllocError) -> TraceError {
        TraceError::Memory
    }
}

/// Hands the text to the sink.
fn hand_over<O: Sink>(sink: &mut O, text: &mut Vec<u8>) -> Result<(), TraceError>
    requires { O.ready sink.old }
    ensures later { O.faults sink.old ≤ O.faults sink.new }
    ensures ready { O.ready sink.new }
    ensures beside { O.beside sink.new ≡ O.beside sink.old }
    ensures ok { OnOk result (O.told sink.new ≡ gained (O.told sink.old) text.old.items) }
    ensures empty { OnOk result (text.new.items ≡ []) }
    ensures quiet { OnOk result (O.faults sink.new ≡ O.faults sink.old) }
    ensures kind { IfErr result (λ e. e ≡ TraceError.Fault) }
    ensures part { OnErr result (GainedPart (O.told sink.old) (O.told sink.new) text.old.items) }
    ensures cause { OnErr result (Rose (O.faults sink.old) (O.faults sink.new)) }
{
    if !write_all(sink, text.as_slice()) {
        return Err(TraceError::Fault);
    }
    text.clear();
    Ok(())
}

/// Hands the text to the sink where it is long enough.
fn hand_over_full<O: Sink>(sink: &mut O, text: &mut Vec<u8>) -> Result<(), TraceError>
    requires { O.ready sink.old }
    ensures later { O.faults sink.old ≤ O.faults sink.new }
    ensures ready { O.ready sink.new }
    ensures beside { O.beside sink.new ≡ O.beside sink.old }
    ensures ok { OnOk result
        (HandsOver (O.told sink.old) (O.told sink.new) text.old.items text.new.items) }
    ensures short { OnOk result (length text.new.items < FULL) }
    ensures quiet { OnOk result (O.faults sink.new ≡ O.faults sink.old) }
    ensures kind { IfErr result (λ e. e ≡ TraceError.Fault) }
    ensures part { OnErr result (GainedPart (O.told sink.old) (O.told sink.new) text.old.items) }
    ensures cause { OnErr result (Rose (O.faults sink.old) (O.faults sink.new)) }
{
    if text.len() < FULL {
        return Ok(());
    }
    hand_over(sink, text)
}

fn push_head(text: &mut Vec<u8>, accepted: u64, kept: usize) -> Result<(), AllocError>
    ensures { OnOk result (text.new.items ≡ text.old.items ++ head_text accepted kept) }
{
    text.extend_from_slice(b"{\"displayTimeUnit\":\"ms\",\"otherData\":{\"accepted\":")?;
    text.extend_from_slice(Buffer::new().format(accepted).as_bytes())?;
    text.extend_from_slice(b",\"kept\":")?;
    text.extend_from_slice(Buffer::new().format(kept).as_bytes())?;
    text.extend_from_slice(b"},\"traceEvents\":[")?;
    Ok(())
}

/// Writes the trace of these spans, of so many that were accepted.
pub fn write_trace<O: Sink>(
    alloc: Global,
    sink: &mut O,
    events: &[SpanEvent],
    files: &[String],
    accepted: u64,
) -> Result<(), TraceError>
    requires files { All (HasFile (length files.now)) events.now }
    requires ready { O.ready sink.old }

    ensures later { O.faults sink.old ≤ O.faults sink.new }
    ensures ready { O.ready sink.new }
    ensures beside { O.beside sink.new ≡ O.beside sink.old }

    ensures ok { OnOk result (O.told sink.new
        ≡ gained (O.told sink.old) (trace_text (map string_bytes files.now) accepted events.now)) }
    ensures part { OnErr result (GainedPart (O.told sink.old) (O.told sink.new)
        (trace_text (map string_bytes files.now) accepted events.now)) }
    ensures cause { IsErrOf result TraceError.Fault
        → Rose (O.faults sink.old) (O.faults sink.new) }
    ensures quiet { OnOk result (O.faults sink.new ≡ O.faults sink.old) }
    ensures sound { IsErrOf result TraceError.Memory
        → O.faults sink.new ≡ O.faults sink.old }
{
    let mut text = Vec::with_capacity(alloc, FULL)?;
    push_head(&mut text, accepted, events.len())?;
    push_threads(alloc, &mut text, events)?;
    for (index, event) in events.iter().enumerate() {
        push_span(alloc, &mut text, index > 0, event, files)?;
        hand_over_full(sink, &mut text)?;
    }
    text.extend_from_slice(b"]}\n")?;
    hand_over(sink, &mut text)
}
