ghost use Rattle.std.specs.Prelude.{◌≡◌, ◌+◌, ◌<◌, ◌^◌, [], ◌∷◌, ◌++◌, true, false, length, IfOk, OnOk};
ghost use Rattle.std.specs.List.{All};
ghost use Rattle.claim_table.specs.Claimed.{IsFresh};
ghost use Rattle.cursor_word.specs.Cursor.{most_puts};
ghost use Rattle.rail.specs.Items.{IsRising};
ghost use Rattle.span_recorder.specs.Gain.{GainAlike};
ghost use Rattle.span_words.specs.Span.{duration};
ghost use Rattle.word_text.specs.Counts.{add_all, total};
ghost use Rattle.word_text.specs.Pieces.{LiesIn, plan_bytes};
ghost use Rattle.word_workers.specs.Shared.{IsShared};
ghost use Rattle.word_workers.specs.Spans.{AllLieIn, counts_at, piece_at, plan_words, words_at};
ghost use Rattle.word_workers.specs.Worked.{NotesPiece, Worked};

use crate::drawn::Drawn;
use crate::gate::Gate;
use crate::shared::{Own, Shared};
use claim_table::{Claim, ClaimSeat};
use flow_io::Hand;
use rail::{Batch, Rail};
use span_recorder::note_span;
use span_words::{MOST_WORKERS, SPAN_WORDS, SpanEvent, SpanKind};
use std::alloc::{AllocError, Global};
use std::sync::Wait;
use word_text::{Counts, Piece, Plan, Text, count_piece};

/// What a worker hands back.
#[derive(Drop)]
pub struct WorkerDone<R: Rail> {
    pub counts: Counts,
    pub batch: Batch,
    pub drawn: Drawn,
    pub seat: R::Seat,
}

/// Counts each piece that it draws and notes its span, and notes a span of its own at the end. Last,
/// in every outcome, it is counted as ended.
pub fn run_worker<R: Rail, H: Hand, G: Gate>(
    rt: &impl Wait,
    alloc: Global,
    worker: u64,
    plan: &Plan,
    texts: &[Text],
    rail: &R,
    seat: R::Seat,
    claim: &Claim,
    claim_seat: &mut ClaimSeat,
    hand: H,
    gate: &G,
) -> Result<WorkerDone<R>, AllocError>
    requires worker { worker < MOST_WORKERS }
    requires puts { R.PutsInto rail.now seat }
    requires takes { R.TakesFrom rail.now seat }
    requires width { (R.shape_of rail.now).width ≡ SPAN_WORDS }
    requires room { length (R.made seat) + length plan.now < most_puts (R.shape_of rail.now) }
    requires inside { AllLieIn texts.now plan.now }
    requires words { length (plan_words plan.now texts.now) < 2 ^ 63 }
    requires fresh { IsFresh claim.now claim_seat.old }
    requires pieces { claim.now.shape.pieces ≡ length plan.now }
    ensures same { claim_seat.new.of ≡ claim_seat.old.of }
    ensures ended { claim_seat.new.ended ≡ true }
    ensures stopped { OnOk result (claim_seat.new.stopped ≡ true) }
    ensures drawn { IfOk result (λ done. done.drawn ≡ claim_seat.new.drawn) }
    ensures rising { IfOk result (λ done. IsRising done.drawn) }
    ensures within { IfOk result (λ done. All (λ n. n < length plan.now) done.drawn) }
    ensures counts { IfOk result (λ done. done.counts
        ≡ counts_at plan.now texts.now done.drawn) }
    ensures spans { IfOk result (λ done. Worked plan.now texts.now
        (H.ticks hand) worker done.drawn (R.made seat) (R.made done.seat)) }
    ensures taken { IfOk result (λ done.
        GainAlike (R.taken seat) (R.taken done.seat) [] done.batch.items) }
    ensures drops { R.DROPS ≡ true → IfOk result (λ done. R.taken done.seat ≡ R.taken seat) }
    ensures puts { IfOk result (λ done. (q : R) → R.PutsInto q seat → R.PutsInto q done.seat) }
    ensures takes { IfOk result (λ done. (q : R) → R.TakesFrom q seat → R.TakesFrom q done.seat) }
    ensures number { IfOk result (λ done. R.number_of done.seat ≡ R.number_of seat) }
{
    let shared = Shared {
        plan,
        texts,
        rail,
        claim,
        gate,
    };
    let own = Own { worker, seat, hand };
    let done = work_off(rt, alloc, &shared, own, claim_seat);
    claim.end(claim_seat);
    done
}

// What a worker does before it is counted as ended.
fn work_off<R: Rail, H: Hand, G: Gate>(
    rt: &impl Wait,
    alloc: Global,
    shared: &Shared<'_, R, G>,
    own: Own<R::Seat, H>,
    claim_seat: &mut ClaimSeat,
) -> Result<WorkerDone<R>, AllocError>
    requires shared { IsShared R.shape_of shared.now }
    requires worker { own.worker < MOST_WORKERS }
    requires puts { R.PutsInto shared.now.rail.now own.seat }
    requires takes { R.TakesFrom shared.now.rail.now own.seat }
    requires room { length (R.made own.seat) + length shared.now.plan.now
        < most_puts (R.shape_of shared.now.rail.now) }
    requires fresh { IsFresh shared.now.claim.now claim_seat.old }
    ensures same { claim_seat.new.of ≡ claim_seat.old.of }
    ensures running { claim_seat.new.ended ≡ false }
    ensures stopped { OnOk result (claim_seat.new.stopped ≡ true) }
    ensures drawn { IfOk result (λ done. done.drawn ≡ claim_seat.new.drawn) }
    ensures rising { IfOk result (λ done. IsRising done.drawn) }
    ensures within { IfOk result (λ done. All (λ n. n < length shared.now.plan.now) done.drawn) }
    ensures counts { IfOk result (λ done. done.counts
        ≡ counts_at shared.now.plan.now shared.now.texts.now done.drawn) }
    ensures spans { IfOk result (λ done. Worked shared.now.plan.now shared.now.texts.now
        (H.ticks own.hand) own.worker done.drawn (R.made own.seat) (R.made done.seat)) }
    ensures taken { IfOk result (λ done.
        GainAlike (R.taken own.seat) (R.taken done.seat) [] done.batch.items) }
    ensures drops { R.DROPS ≡ true → IfOk result (λ done. R.taken done.seat ≡ R.taken own.seat) }
    ensures puts { IfOk result (λ done. (q : R)
        → R.PutsInto q own.seat → R.PutsInto q done.seat) }
    ensures takes { IfOk result (λ done. (q : R)
        → R.TakesFrom q own.seat → R.TakesFrom q done.seat) }
    ensures number { IfOk result (λ done. R.number_of done.seat ≡ R.number_of own.seat) }
{
    let Own { worker, seat, hand } = own;
    let done = WorkerDone {
        counts: Counts::new(alloc),
        batch: Batch::new(alloc),
        drawn: Drawn::new(alloc),
        seat,
    };
    let mut counting = Counting {
        done,
        hand,
        words: 0,
    };
    let first = counting.hand.now();
    shared.gate.arrive(worker);
    while let Some(number) = shared.claim.claim(claim_seat) {
        count_noted(rt, alloc, shared, worker, number, &mut counting)?;
    }
    let last = counting.hand.now();
    let own_span = SpanEvent {
        kind: SpanKind::Worker,
        tid: worker + 1,
        ts: first,
        dur: elapsed(first, last),
        file: 0,
        piece: counting.done.drawn.numbers().len() as u64,
        words: counting.words,
        depth: 0,
        total: counting.words,
    };
    let mut done = counting.done;
    note_span(
        rt,
        alloc,
        shared.rail,
        &mut done.seat,
        &mut done.batch,
        &own_span,
    )?;
    Ok(done)
}

// A worker between two pieces: what it hands back so far, its hand of the clock, and how many words
// it has counted.
#[derive(Drop)]
struct Counting<R: Rail, H: Hand> {
    done: WorkerDone<R>,
    hand: H,
    words: u64,
}

// Counts a piece between two readings of the clock, and notes its span.
fn count_noted<R: Rail, H: Hand, G: Gate>(
    rt: &impl Wait,
    alloc: Global,
    shared: &Shared<'_, R, G>,
    worker: u64,
    number: u64,
    counting: &mut Counting<R, H>,
) -> Result<(), AllocError>
    requires shared { IsShared R.shape_of shared.now }
    requires worker { worker < MOST_WORKERS }
    requires puts { R.PutsInto shared.now.rail.now counting.old.done.seat }
    requires takes { R.TakesFrom shared.now.rail.now counting.old.done.seat }
    requires room { length (R.made counting.old.done.seat)
        < most_puts (R.shape_of shared.now.rail.now) }
    requires number { number < length shared.now.plan.now }
    requires rising { All (λ n. n < number) counting.old.done.drawn }
    requires before { total counting.old.done.counts ≡ counting.old.words }
    requires words { counting.old.words
        + length (words_at shared.now.plan.now shared.now.texts.now number) < 2 ^ 63 }
    ensures counts { OnOk result (counting.new.done.counts ≡ add_all counting.old.done.counts
        (words_at shared.now.plan.now shared.now.texts.now number)) }
    ensures words { OnOk result (counting.new.words ≡ counting.old.words
        + length (words_at shared.now.plan.now shared.now.texts.now number)) }
    ensures drawn { OnOk result
        (counting.new.done.drawn ≡ counting.old.done.drawn ++ number ∷ []) }
    ensures span { OnOk result (NotesPiece shared.now.plan.now shared.now.texts.now worker number
        counting.new.words (H.ticks counting.old.hand) (H.ticks counting.new.hand)
        (R.made counting.old.done.seat) (R.made counting.new.done.seat)) }
    ensures taken { GainAlike (R.taken counting.old.done.seat) (R.taken counting.new.done.seat)
        counting.old.done.batch.items counting.new.done.batch.items }
    ensures drops { R.DROPS ≡ true
        → R.taken counting.new.done.seat ≡ R.taken counting.old.done.seat }
    ensures puts { (q : R)
        → R.PutsInto q counting.old.done.seat → R.PutsInto q counting.new.done.seat }
    ensures takes { (q : R)
        → R.TakesFrom q counting.old.done.seat → R.TakesFrom q counting.new.done.seat }
    ensures seat_number { R.number_of counting.new.done.seat
        ≡ R.number_of counting.old.done.seat }
{
    let (file, bytes) = piece_at(shared.plan, shared.texts, number);
    let start = counting.hand.now();
    let words = count_piece(alloc, &mut counting.done.counts, bytes)?;
    let end = counting.hand.now();
    counting.words += words;
    let event = SpanEvent {
        kind: SpanKind::Piece,
        tid: worker + 1,
        ts: start,
        dur: elapsed(start, end),
        file,
        piece: number,
        words,
        depth: 1,
        total: counting.words,
    };
    let done = &mut counting.done;
    note_span(
        rt,
        alloc,
        shared.rail,
        &mut done.seat,
        &mut done.batch,
        &event,
    )?;
    done.drawn.push(number)
}

// How long it was between two readings, 0 where the clock ran backwards.
fn elapsed(before: u64, after: u64) -> u64
    ensures { result ≡ duration before after }
{
    after.saturating_sub(before)
}

// The file of a piece, and its bytes.
fn piece_at<'a>(plan: &Plan, texts: &'a [Text], number: u64) -> (u64, &'a [u8])
    requires inside { AllLieIn texts.now plan.now }
    requires number { number < length plan.now }
    ensures file { result.0 ≡ (piece_at plan.now number).file }
    ensures bytes { result.1.now ≡ plan_bytes texts.now (piece_at plan.now number) }
{
    let Some(piece) = plan.get(number as usize) else {
        unreachable!()
    };
    (piece.file, lying_bytes(texts, piece))
}

// The bytes of a piece that lies in its text.
fn lying_bytes<'a>(texts: &'a [Text], piece: &Piece) -> &'a [u8]
    requires { LiesIn texts.now piece.now }
    ensures { result.now ≡ plan_bytes texts.now piece.now }
{
    let Some(text) = texts.get(piece.file as usize) else {
        unreachable!()
    };
    &text.bytes()[piece.start..piece.end]
}
