ghost use Rattle.std.specs.Prelude.{◌≡◌, ℕ, List, All, Ok, length};
ghost use Rattle.std.specs.Str.{IsUtf8};
ghost use Rattle.span_words.specs.declared.span.SpanEvent.{SpanEvent};
ghost use Rattle.trace_json.specs.Trace.{trace_text};
ghost use Rattle.trace_read.specs.Listed.{IsListed, IsWord, trace_of_spans};
ghost use Rattle.trace_read.specs.Reading.{reading};

/// The trace text of spans reads back as these spans, whatever the names of the files.
pub fn trace_text_reads_back()
    ensures { (names : List (List ℕ)) (accepted : ℕ) (spans : List SpanEvent)
        → All IsUtf8 names → IsWord accepted → IsWord (length spans)
        → All (IsListed (length names)) spans
        → reading (trace_text names accepted spans) ≡ Ok (trace_of_spans accepted spans) }
{}
