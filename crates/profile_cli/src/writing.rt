ghost use Rattle.std.specs.Prelude.{◌≡◌, ◌∷◌, [], ◌≤◌, ◌⊎◌, ◌++◌, codes, length, string_bytes, IfOk, OnOk, OnErr, IsErrOf};
ghost use Rattle.std.specs.List.{All};
ghost use Rattle.flow_io.specs.Flow.{Rose, documents};
ghost use Rattle.trace_json.specs.Trace.{HasFile, trace_text};
ghost use Rattle.word_text.specs.Counts.{counts_text_of};
ghost use Rattle.command_words.specs.Texts.{bytes_of};
ghost use Rattle.profile_cli.specs.Written.{GainsDocuments, GainsPart, OutFaults, StoreFaults, Writes, asks_of, folded_of, trace_of};

use crate::ending::Ending;
use flow_io::{Sink, TraceStore, write_all};
use span_fold::{fold, fold_text};
use span_words::SpanEvent;
use std::alloc::{AllocError, Global};
use trace_json::{TraceError, write_trace};
use word_text::{Counts, counts_text};

/// What is to be written: the counts, and the trace of these spans, of so many that were accepted,
/// where the texts have these names; and where they are asked for, the folded times.
#[derive(Clone, Copy)]
pub struct Results<'a> {
    pub counts: &'a Counts,
    pub trace: &'a str,
    pub names: &'a [String],
    pub events: &'a [SpanEvent],
    pub accepted: u64,
    pub fold: bool,
}

/// Stores the trace under its name.
fn store_trace<T: TraceStore>(
    alloc: Global,
    results: &Results<'_>,
    trace: &mut T,
) -> Result<(), TraceError>
    requires { All (HasFile (length results.now.names.now)) results.now.events.now }
    ensures whole { OnOk result (GainsDocuments
        (documents (T.told trace.old) (T.beside trace.old))
        (documents (T.told trace.new) (T.beside trace.new))
        (trace_of results.now.trace.now (bytes_of results.now.names.now) results.now.accepted
        results.now.events.now ∷ [])) }
    ensures part { OnErr result (GainsPart
        (documents (T.told trace.old) (T.beside trace.old))
        (documents (T.told trace.new) (T.beside trace.new))
        (trace_of results.now.trace.now (bytes_of results.now.names.now) results.now.accepted
        results.now.events.now ∷ [])) }
    ensures cause { IsErrOf result TraceError.Fault
        → Rose (T.faults trace.old) (T.faults trace.new) }
    ensures quiet { OnOk result (T.faults trace.new ≡ T.faults trace.old) }
    ensures sound { IsErrOf result TraceError.Memory
        → T.faults trace.new ≡ T.faults trace.old }
{
    if !trace.begin(results.trace) {
        return Err(TraceError::Fault);
    }
    write_trace(
        alloc,
        trace,
        results.events,
        results.names,
        results.accepted,
    )
}

/// The name of the folded times, by that of the trace.
fn folded_name(alloc: Global, trace: &str) -> Result<String, AllocError>
    ensures { IfOk result (λ name. string_bytes name ≡ trace.now ++ codes ".folded") }
{
    format!(in alloc; "{trace}.folded")
}

/// Stores the folded times behind the trace, under their name.
fn store_folded<T: TraceStore>(
    alloc: Global,
    results: &Results<'_>,
    trace: &mut T,
) -> Result<(), TraceError>
    ensures whole { OnOk result (GainsDocuments
        (documents (T.told trace.old) (T.beside trace.old))
        (documents (T.told trace.new) (T.beside trace.new))
        (folded_of results.now.trace.now results.now.events.now ∷ [])) }
    ensures part { OnErr result (GainsPart
        (documents (T.told trace.old) (T.beside trace.old))
        (documents (T.told trace.new) (T.beside trace.new))
        (folded_of results.now.trace.now results.now.events.now ∷ [])) }
    ensures cause { IsErrOf result TraceError.Fault
        → Rose (T.faults trace.old) (T.faults trace.new) }
    ensures quiet { OnOk result (T.faults trace.new ≡ T.faults trace.old) }
    ensures sound { IsErrOf result TraceError.Memory
        → T.faults trace.new ≡ T.faults trace.old }
{
    let folded = fold(alloc, results.events)?;
    let text = fold_text(alloc, &folded)?;
    let name = folded_name(alloc, results.trace)?;
    if !trace.begin(name.as_str()) {
        return Err(TraceError::Fault);
    }
    if !write_all(trace, text.bytes()) {
        return Err(TraceError::Fault);
    }
    Ok(())
}

/// Stores the trace, and behind it the folded times, where they are asked for.
fn store_all<T: TraceStore>(
    alloc: Global,
    results: &Results<'_>,
    trace: &mut T,
) -> Result<(), TraceError>
    requires { All (HasFile (length results.now.names.now)) results.now.events.now }
    ensures whole { OnOk result (GainsDocuments
        (documents (T.told trace.old) (T.beside trace.old))
        (documents (T.told trace.new) (T.beside trace.new))
        (asks_of results.now)) }
    ensures part { OnErr result (GainsPart
        (documents (T.told trace.old) (T.beside trace.old))
        (documents (T.told trace.new) (T.beside trace.new))
        (asks_of results.now)) }
    ensures cause { IsErrOf result TraceError.Fault
        → Rose (T.faults trace.old) (T.faults trace.new) }
    ensures quiet { OnOk result (T.faults trace.new ≡ T.faults trace.old) }
    ensures sound { IsErrOf result TraceError.Memory
        → T.faults trace.new ≡ T.faults trace.old }
{
    store_trace(alloc, results, trace)?;
    if !results.fold {
        return Ok(());
    }
    store_folded(alloc, results, trace)
}

/// Writes the counts text, and then stores the trace and what is asked for besides.
pub fn write_results<O: Sink, T: TraceStore>(
    alloc: Global,
    results: &Results<'_>,
    out: &mut O,
    trace: &mut T,
) -> Ending
    requires ready { O.ready out.old }
    requires files { All (HasFile (length results.now.names.now)) results.now.events.now }
    ensures ready { O.ready out.new }
    ensures beside { O.beside out.new ≡ O.beside out.old }
    ensures out { OutFaults result (O.faults out.old) (O.faults out.new) }
    ensures store { StoreFaults result (T.faults trace.old) (T.faults trace.new) }
    ensures writes { Writes (counts_text_of results.now.counts.now) (asks_of results.now)
        (record {
          out = O.told out.old;
          out_faults = O.faults out.old;
          documents = documents (T.told trace.old) (T.beside trace.old);
          store_faults = T.faults trace.old;
        })
        (record {
          out = O.told out.new;
          out_faults = O.faults out.new;
          documents = documents (T.told trace.new) (T.beside trace.new);
          store_faults = T.faults trace.new;
        })
        result }
{
    let Ok(text) = counts_text(alloc, results.counts) else {
        return Ending::OutOfMemory;
    };
    if !write_all(out, text.bytes()) {
        return Ending::CountsUnwritten;
    }
    match store_all(alloc, results, trace) {
        Ok(()) => Ending::Done,
        Err(TraceError::Fault) => Ending::TraceUnwritten,
        Err(TraceError::Memory) => Ending::OutOfMemory,
    }
}
