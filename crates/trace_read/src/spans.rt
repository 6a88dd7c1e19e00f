ghost use Rattle.std.specs.Prelude.{◌≡◌, ◌≤◌, ◌↔◌, [], length, slice_get, IsNone, IsTrue, option_copied};

use span_words::SpanEvent;
use std::marker::Model;

/// The spans of a trace, in its order.
#[derive(Drop)]
pub struct Spans {
    events: Vec<SpanEvent>,
}

impl Model for Spans {
    ghost use Rattle.std.specs.Prelude.{List};
    ghost use Rattle.span_words.specs.declared.span.SpanEvent.{SpanEvent};

    ghost Value = { List SpanEvent };

    ghost view = { λ a. a.events.items };
}

impl Spans {
    pub(crate) fn new(events: Vec<SpanEvent>) -> Spans
        ensures { result ≡ events.items }
    {
        Spans { events }
    }

    pub fn len(&self) -> usize
        ensures { result ≡ length self.now }
    {
        self.events.len()
    }

    pub fn is_empty(&self) -> bool
        ensures { IsTrue result ↔ (self.now ≡ []) }
    {
        self.events.is_empty()
    }

    pub fn get(&self, index: usize) -> Option<&SpanEvent>
        ensures span { option_copied result ≡ slice_get self.now index }
        ensures none { IsNone result ↔ (length self.now ≤ index) }
    {
        self.events.get(index)
    }

    /// All spans in order.
    pub fn as_slice(&self) -> &[SpanEvent]
        ensures { result.now ≡ self.now }
    {
        &self.events
    }
}
