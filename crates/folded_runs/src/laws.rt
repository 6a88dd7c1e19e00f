ghost use Rattle.std.specs.Prelude.{◌≡◌, ℕ, ◌+◌, ◌-◌, ◌*◌, ◌==◌, List, filter, length, slice_index};
ghost use Rattle.std.specs.List.Sorted.{IsNonDecreasing};
ghost use Rattle.span_fold.specs.Folded.{folded};
ghost use Rattle.span_fold.specs.Nested.{IsNested, time_of};
ghost use Rattle.span_words.specs.declared.span.SpanEvent.{SpanEvent};
ghost use Rattle.word_text.specs.declared.plan.Piece.{Piece};
ghost use Rattle.word_workers.specs.Spans.{spans_of, worker_span};

/// Where a worker's readings don't fall, its pieces lie in its span one after another, and its
/// lines add up to the time between the first reading and the last.
pub fn worker_lines_add_up()
    ensures nested { (plan : List Piece) (texts : List (List ℕ)) (worker : ℕ)
        (drawn readings : List ℕ) (spans : List SpanEvent)
        → length readings ≡ 2 * length drawn + 2 → IsNonDecreasing readings
        → filter (λ s. s.tid == worker + 1) spans ≡ spans_of plan texts worker drawn readings
        → IsNested (worker + 1) (worker_span plan texts worker drawn
        (slice_index readings 0) (slice_index readings (2 * length drawn + 1))) spans }
    ensures adds_up { (plan : List Piece) (texts : List (List ℕ)) (worker : ℕ)
        (drawn readings : List ℕ) (spans : List SpanEvent)
        → length readings ≡ 2 * length drawn + 2 → IsNonDecreasing readings
        → filter (λ s. s.tid == worker + 1) spans ≡ spans_of plan texts worker drawn readings
        → time_of (worker + 1) (folded spans)
        ≡ slice_index readings (2 * length drawn + 1) - slice_index readings 0 }
{}
