ghost use Rattle.std.specs.Prelude.{◌≡◌};
ghost use Rattle.span_words.specs.Span.{spelling, event_of};
ghost use Rattle.span_words.specs.declared.span.SpanEvent.{SpanEvent};

/// The numbers of a span tell it, so no two spans have one spelling.
pub fn spelling_tells_span()
    ensures { (event : SpanEvent) → event_of (spelling event) ≡ event }
{}
