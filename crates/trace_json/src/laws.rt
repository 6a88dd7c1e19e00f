ghost use Rattle.std.specs.Prelude.{◌≡◌, ℕ, List, ◌++◌, length, map, codes};
ghost use Rattle.std.specs.List.{join_with_byte};
ghost use Rattle.serde_json.specs.Written.{compact_text};
ghost use Rattle.span_words.specs.declared.span.SpanEvent.{SpanEvent};
ghost use Rattle.trace_json.specs.Trace.{head_text, trace_entries, trace_text};

/// The trace text byte for byte: what stands before the entries, their texts with a comma between
/// each two, and the end.
pub fn trace_text_in_parts()
    ensures { (names : List (List ℕ)) (accepted : ℕ) (events : List SpanEvent)
        → trace_text names accepted events
        ≡ head_text accepted (length events)
        ++ (join_with_byte 44 (map compact_text (trace_entries names events)) ++ codes "]}\n") }
{}
