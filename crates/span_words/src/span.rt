ghost use Rattle.std.specs.Prelude.{◌≡◌, ◌≢◌, ◌/◌, ◌%◌, ◌<◌, ◌≤◌, ◌↔◌, Ok, length, slice_index, IfOk, IsErrOf};
ghost use Rattle.span_words.specs.Span.{spelling, IsTid, Spells, HasSpanWidth};
ghost use Rattle.span_words.specs.declared.span.SpanEvent.{SpanEvent};

use thiserror::Error;

/// How many numbers spell a span.
pub const SPAN_WORDS: usize = 8;

/// How many numbers spell a span without its depth and total.
pub const SHORT_SPAN_WORDS: usize = 6;

/// The greatest number of a worker.
pub const MOST_WORKERS: u64 = 255;

/// What a span is the time of.
#[derive(Clone, Copy, Debug, PartialEq, Eq)]
pub enum SpanKind {
    Worker,
    Piece,
}

/// The time that a worker took, or that it took for one piece.
#[derive(Clone, Copy, Debug, PartialEq, Eq)]
pub struct SpanEvent {
    pub kind: SpanKind,
    /// The worker's number from 1 on.
    pub tid: u64,
    /// When it began, in microseconds.
    pub ts: u64,
    /// How long it took, in microseconds.
    pub dur: u64,
    /// The file of a piece, counted from 0; 0 for a worker.
    pub file: u64,
    /// The number of a piece in the plan; for a worker the number of its pieces.
    pub piece: u64,
    /// The number of words counted.
    pub words: u64,
    /// How many spans it lies in: 1 for a piece, 0 for a worker.
    pub depth: u64,
    /// The number of words that the worker counted up to the end of this span.
    pub total: u64,
}

/// Why numbers spell no span.
#[derive(Debug, Drop, Error)]
pub enum WordsError {
    #[error("a span has another number of words")]
    Width,
    #[error("no kind of span has this number")]
    Kind,
    #[error("no worker has this number")]
    Tid,
}

/// The numbers that spell a span.
pub fn encode(event: &SpanEvent) -> [u64; SPAN_WORDS]
    requires { IsTid event.now.tid }
    ensures { result ≡ spelling event.now }
{
    let kind = match event.kind {
        SpanKind::Worker => 0,
        SpanKind::Piece => 1,
    };
    [
        kind + 256 * event.tid,
        event.ts,
        event.dur,
        event.file,
        event.piece,
        event.words,
        event.depth,
        event.total,
    ]
}

/// The span that numbers spell; the short form leaves out a depth and a total of 0.
pub fn decode(words: &[u64]) -> Result<SpanEvent, WordsError>
    ensures spells { IfOk result (λ event. Spells words.now event) }
    ensures reads { (event : SpanEvent) → Spells words.now event → result ≡ Ok event }
    ensures same { length words.now ≡ SPAN_WORDS
        → IfOk result (λ event. spelling event ≡ words.now) }

    ensures width { IsErrOf result WordsError.Width ↔ (¬ (HasSpanWidth words.now)) }
    ensures kind { IsErrOf result WordsError.Kind ↔ (HasSpanWidth words.now
        × (1 < slice_index words.now 0 % 256)) }
    ensures tid { IsErrOf result WordsError.Tid ↔ (HasSpanWidth words.now
        × (slice_index words.now 0 % 256 ≤ 1) × (¬ (IsTid (slice_index words.now 0 / 256)))) }
{
    match words {
        &[first, ts, dur, file, piece, words] => {
            decode_whole([first, ts, dur, file, piece, words, 0, 0])
        }
        &[first, ts, dur, file, piece, words, depth, total] => {
            decode_whole([first, ts, dur, file, piece, words, depth, total])
        }
        _ => Err(WordsError::Width),
    }
}

// The span that numbers spell with its depth and total.
fn decode_whole(numbers: [u64; SPAN_WORDS]) -> Result<SpanEvent, WordsError>
    ensures spells { IfOk result (λ event. IsTid event.tid × (spelling event ≡ numbers)) }
    ensures reads { (event : SpanEvent) → IsTid event.tid → spelling event ≡ numbers
        → result ≡ Ok event }
    ensures width { ¬ (IsErrOf result WordsError.Width) }
    ensures kind { IsErrOf result WordsError.Kind ↔ (1 < slice_index numbers 0 % 256) }
    ensures tid { IsErrOf result WordsError.Tid ↔ ((slice_index numbers 0 % 256 ≤ 1)
        × (¬ (IsTid (slice_index numbers 0 / 256)))) }
{
    let [first, ts, dur, file, piece, words, depth, total] = numbers;
    let kind = match first % 256 {
        0 => SpanKind::Worker,
        1 => SpanKind::Piece,
        _ => return Err(WordsError::Kind),
    };
    let tid = first / 256;
    if tid == 0 || tid > MOST_WORKERS {
        return Err(WordsError::Tid);
    }
    Ok(SpanEvent {
        kind,
        tid,
        ts,
        dur,
        file,
        piece,
        words,
        depth,
        total,
    })
}
