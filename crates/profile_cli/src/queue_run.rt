ghost use Rattle.std.specs.Prelude.{◌≡◌, ◌<◌, ◌≤◌, ◌⊎◌, [], Some, length, map, sum_by, IfOk};
ghost use Rattle.std.specs.List.{All};
ghost use Rattle.rail.specs.Outcome.{numbers_below};
ghost use Rattle.span_recorder.specs.Events.{events_of};
ghost use Rattle.trace_json.specs.Trace.{HasFile};
ghost use Rattle.word_text.specs.Counts.{counts_of_all};
ghost use Rattle.word_text.specs.Pieces.{plan_of};
ghost use Rattle.word_workers.specs.Trace.{IsSpanOfSome};
ghost use Rattle.profile_cli.specs.Queue.{ClosedQueue, HasListed, IsQueueOf, closed_queue, listed_by, mode_by, queue_of, seen, shape_for};
ghost use Rattle.profile_cli.specs.Texts.{input_limit};
ghost use Rattle.command_words.specs.Usage.{IsWithinLimits, asked_of};
ghost use Rattle.profile_cli.specs.Written.{Spell};

use crate::rails::{Closed, Rails};
use command_words::{Mode, Options};
use cursor_word::Shape;
use flow_io::Clock;
use order_list::gather;
use rail::{Batch, Rail};
use span_words::{MOST_WORKERS, SPAN_WORDS, SpanEvent, decode};
use std::alloc::{AllocError, Global};
use std::sync::Wait;
use std::thread::Threads;
use word_text::{Counts, Plan, Text};
use word_workers::{Gate, Work, run_all};

/// What a run counted, the queue that it closed, how many spans that had accepted, and the spans that
/// it lists, in order.
#[derive(Drop)]
pub struct Ran<R: Rails> {
    pub counts: Counts,
    pub closed: Closed<R>,
    pub accepted: u64,
    pub events: Vec<SpanEvent>,
}

/// What a run over a queue of one kind counted, the closed queue, and the spans that it lists.
#[derive(Drop)]
struct Through<Q: Rail> {
    counts: Counts,
    done: Q::Done,
    events: Vec<SpanEvent>,
}

/// Makes a queue of the asked mode, runs all workers through it, and closes it.
pub fn run_queue<X: Threads + Wait + Sync, C: Clock, G: Gate, R: Rails>(
    rt: &X,
    alloc: Global,
    options: &Options,
    plan: &Plan,
    texts: &[Text],
    clock: &C,
    gate: &G,
    rails: &R,
) -> Result<Ran<R>, AllocError>
    requires limits { IsWithinLimits options.now }
    requires plan { plan.now ≡ plan_of texts.now options.now.piece }
    requires size { sum_by length texts.now ≤ input_limit }
    ensures counts { IfOk result (λ ran. ran.counts ≡ counts_of_all texts.now) }
    ensures queue { IfOk result (λ ran. (queue : ClosedQueue)
        × IsQueueOf (asked_of options.now) texts.now (C.ticks clock.now) queue
        × HasListed queue ran.accepted ran.events.items
        × (queue_of
        (seen R.Retry.MOST_SEATS R.Retry.done_shape R.Retry.done_accepted R.Retry.done_taken
        R.Retry.done_left)
        (seen R.DropOld.MOST_SEATS R.DropOld.done_shape R.DropOld.done_accepted
        R.DropOld.done_taken R.DropOld.done_left) ran.closed ≡ Some queue)) }
    ensures files { IfOk result (λ ran. All (HasFile (length texts.now)) ran.events.items) }
{
    match options.mode {
        Mode::RetryNew => {
            let shape = shape_for::<R::Retry>(options);
            let (rail, seats) = rails.retry(alloc, shape)?;
            let through = run_through(rt, alloc, options, plan, texts, rail, seats, clock, gate)?;
            let Through {
                counts,
                done,
                events,
            } = through;
            Ok(Ran {
                counts,
                accepted: <R::Retry as Rail>::accepted(&done),
                closed: Closed::Retry(done),
                events,
            })
        }
        Mode::DropOld => {
            let shape = shape_for::<R::DropOld>(options);
            let (rail, seats) = rails.drop_old(alloc, shape)?;
            let through = run_through(rt, alloc, options, plan, texts, rail, seats, clock, gate)?;
            let Through {
                counts,
                done,
                events,
            } = through;
            Ok(Ran {
                counts,
                accepted: <R::DropOld as Rail>::accepted(&done),
                closed: Closed::DropOld(done),
                events,
            })
        }
    }
}

// The shape of a queue of some kind: a seat for each worker and one more, where it may have more
// than one.
fn shape_for<Q: Rail>(options: &Options) -> Shape
    requires limits { IsWithinLimits options.now }
    requires kind { (Q.MOST_SEATS ≡ 1) ⊎ (MOST_WORKERS < Q.MOST_SEATS) }
    ensures shape { result ≡ shape_for (asked_of options.now) Q.MOST_SEATS }
    ensures fits { result.seats ≤ Q.MOST_SEATS }
{
    let seats = if Q::MOST_SEATS > 1 {
        options.workers + 1
    } else {
        1
    };
    let Ok(shape) = Shape::new(options.blocks, options.size, SPAN_WORDS as u64, seats) else {
        unreachable!()
    };
    shape
}

/// Runs all workers through a queue, closes it, and reads the spans that it lists: all that it had
/// accepted, or where it drops its oldest entries, what is left.
fn run_through<X: Threads + Wait + Sync, Q: Rail, C: Clock, G: Gate>(
    rt: &X,
    alloc: Global,
    options: &Options,
    plan: &Plan,
    texts: &[Text],
    rail: Q,
    seats: Vec<Q::Seat>,
    clock: &C,
    gate: &G,
) -> Result<Through<Q>, AllocError>
    requires limits { IsWithinLimits options.now }
    requires plan { plan.now ≡ plan_of texts.now options.now.piece }
    requires size { sum_by length texts.now ≤ input_limit }
    requires mode { options.now.mode ≡ mode_by Q.DROPS }
    requires shape { Q.shape_of rail ≡ shape_for (asked_of options.now) Q.MOST_SEATS }
    requires numbers { map Q.number_of seats.items ≡ numbers_below (Q.shape_of rail).seats }
    requires puts { All (Q.PutsInto rail) seats.items }
    requires takes { All (Q.TakesFrom rail) seats.items }
    requires fresh { All (λ seat. (Q.made seat ≡ []) × (Q.taken seat ≡ [])) seats.items }
    ensures counts { IfOk result (λ through. through.counts ≡ counts_of_all texts.now) }
    ensures queue { IfOk result (λ through.
        IsQueueOf (asked_of options.now) texts.now (C.ticks clock.now)
        (closed_queue (mode_by Q.DROPS)
        (seen Q.MOST_SEATS Q.done_shape Q.done_accepted Q.done_taken Q.done_left) through.done)) }
    ensures events { IfOk result (λ through. through.events.items
        ≡ events_of (listed_by (mode_by Q.DROPS)
        (Q.done_accepted through.done) (Q.done_left through.done))) }
    ensures files { IfOk result (λ through.
        All (HasFile (length texts.now)) through.events.items) }
{
    let workers = options.workers;
    let work = run_all(rt, alloc, plan, texts, workers, &rail, seats, clock, gate)?;
    let Work {
        counts,
        batches,
        drawn: _,
        seats,
    } = work;
    let Ok(done) = rail.close(alloc, seats) else {
        return Err(AllocError);
    };
    let list = gather(alloc, batches.as_slice(), Q::left(&done))?;
    let events = decoded(alloc, &list)?;
    Ok(Through {
        counts,
        done,
        events,
    })
}

// The spans that the items of a list spell.
fn decoded(alloc: Global, list: &Batch) -> Result<Vec<SpanEvent>, AllocError>
    requires { All (λ i. IsSpanOfSome MOST_WORKERS i.words) list.now.items }
    ensures { IfOk result (λ events. Spell events.items list.now.items) }
{
    let items = list.as_slice();
    let mut events = Vec::new(alloc);
    for item in items {
        let Ok(event) = decode(item.words.words()) else {
            unreachable!()
        };
        events.push(event)?;
    }
    Ok(events)
}
