//! The calls of a seat, step by step.
ghost use Rattle.std.specs.Prelude.{◌≡◌, ℕ, ◌<◌, ◌≤◌, List, [], length, None};
ghost use Rattle.cursor_word.specs.Layout.{word_count};
ghost use Rattle.cursor_word.specs.Cursor.{most_puts};
ghost use Rattle.machine.specs.declared.event.Start.TheVariants as start;
ghost use Rattle.call_laws.specs.Calls.{IsWordWithin};
ghost use Rattle.call_steps.specs.Buffer.{out_after};
ghost use Rattle.call_steps.specs.Midway.{Call, HasAnsweredPut, HasAnsweredTake, IsFree, IsPutAt, IsPutOn, IsTakeAt, IsTakeOn, put_call, steps_left, take_call};

use crate::operation::operate;
use crate::rule::{Call, MachineRule, NextStep};
use call_laws::CallPhase;
use cursor_word::Shape;
use machine::After;
use rail::{Answer, Put, Take};
use step_log::{WordSeat, Words};

/// Puts an entry by the machine's steps and no other.
pub fn run_put<P: CallPhase, U: MachineRule<P>, E: Call>(
    words: &Words<U>,
    shape: &Shape,
    seat: &mut WordSeat<U>,
    entry: &[u64],
) -> Put
    requires words { words.now.id.words ≡ word_count shape.now }
    requires own { seat.old.id ≡ words.now.id }
    requires free { IsFree U.rule shape.now (start.Put entry.now) seat.old.view }
    requires width { length entry.now ≡ shape.now.width }
    requires room { length (U.rule.view_of seat.old.view).made < most_puts shape.now }
    requires call { E.start ≡ start.Put entry.now }
    ensures { HasAnsweredPut P.table P.drops U.rule (put_call P.table shape.now entry.now seat.old)
        seat.new result }
{
    P::calls();
    U::runs();
    let own = *shape;
    let shape = &own;
    let state = After::Next(P::first_put());
    let state = put_while::<P, U, E, _>(
        words,
        shape,
        seat,
        entry,
        state,
        |phase: &P| phase.usual_step() == 0,
    );
    let state = put_while::<P, U, E, _>(
        words,
        shape,
        seat,
        entry,
        state,
        |phase: &P| phase.usual_step() == 1,
    );
    let state = put_while::<P, U, E, _>(
        words,
        shape,
        seat,
        entry,
        state,
        |phase: &P| phase.usual_step() == 2,
    );
    let state = put_while::<P, U, E, _>(
        words,
        shape,
        seat,
        entry,
        state,
        |phase: &P| phase.usual_step() == 3,
    );
    let state = put_while::<P, U, E, _>(
        words,
        shape,
        seat,
        entry,
        state,
        |phase: &P| phase.usual_step() == 4,
    );
    let mut state = state;
    loop {
        match state {
            After::Next(phase) => state = put_step::<P, U, E>(words, shape, seat, entry, phase),
            After::Done(Answer::Put(answer)) => return answer,
            After::Done(Answer::Take(_)) => unreachable!(),
        }
    }
}

// Does the steps of a put for as long as its phases are of a kind.
#[inline(always)]
fn put_while<P: CallPhase, U: MachineRule<P>, E: Call, F: Fn(&P) -> bool>(
    words: &Words<U>,
    shape: &Shape,
    seat: &mut WordSeat<U>,
    entry: &[u64],
    mut state: After<P>,
    is_of_kind: F,
) -> After<P>
    requires words { words.now.id.words ≡ word_count shape.now }
    requires own { seat.old.id ≡ words.now.id }
    requires width { length entry.now ≡ shape.now.width }
    requires kind { F.IsAlwaysCallable is_of_kind }
    requires on { (c : Call P U.View) × (c.shape ≡ shape.now) × (c.words ≡ entry.now)
        × (c.start ≡ E.start) × IsPutOn P.table P.drops U.rule c seat.old state }
    ensures same { seat.new.id ≡ seat.old.id }
    ensures on { (c : Call P U.View) → c.shape ≡ shape.now → c.words ≡ entry.now → c.start ≡ E.start
        → IsPutOn P.table P.drops U.rule c seat.old state
        → IsPutOn P.table P.drops U.rule c seat.new result }
{
    P::calls();
    loop {
        let phase = match state {
            After::Next(phase) => phase,
            After::Done(answer) => return After::Done(answer),
        };
        if !is_of_kind(&phase) {
            return After::Next(phase);
        }
        state = put_step::<P, U, E>(words, shape, seat, entry, phase);
    }
}

// One step of a put.
#[inline(always)]
fn put_step<P: CallPhase, U: MachineRule<P>, E: Call>(
    words: &Words<U>,
    shape: &Shape,
    seat: &mut WordSeat<U>,
    entry: &[u64],
    phase: P,
) -> After<P>
    requires words { words.now.id.words ≡ word_count shape.now }
    requires own { seat.old.id ≡ words.now.id }
    requires width { length entry.now ≡ shape.now.width }
    requires at { (c : Call P U.View) × (c.shape ≡ shape.now) × (c.words ≡ entry.now)
        × (c.start ≡ E.start) × IsPutAt P.table P.drops U.rule c seat.old phase }
    ensures same { seat.new.id ≡ seat.old.id }
    ensures on { (c : Call P U.View) → c.shape ≡ shape.now → c.words ≡ entry.now → c.start ≡ E.start
        → IsPutAt P.table P.drops U.rule c seat.old phase
        → IsPutOn P.table P.drops U.rule c seat.new result }
    ensures falls { steps_left P.table shape.now result < P.table.rank shape.now phase }
{
    P::calls();
    U::runs();
    let op = phase.want(shape, entry);
    let found = operate::<U, NextStep<P, E>>(words, seat, &op);
    phase.after(shape, found)
}

/// Takes an entry by the machine's steps and no other. It begins in the phase that the machine's
/// table names.
pub fn run_take<P: CallPhase, U: MachineRule<P>, E: Call>(
    words: &Words<U>,
    shape: &Shape,
    seat: &mut WordSeat<U>,
    first: P,
    out: &mut [u64],
) -> Take
    requires words { words.now.id.words ≡ word_count shape.now }
    requires own { seat.old.id ≡ words.now.id }
    requires free { IsFree U.rule shape.now start.Take seat.old.view }
    requires first { first ≡ P.table.first_take shape.now (U.rule.view_of seat.old.view).taken }
    requires width { length out.old ≡ shape.now.width }
    requires call { E.start ≡ start.Take }
    ensures { HasAnsweredTake P.table P.drops U.rule
        (take_call P.table U.rule shape.now out.old seat.old) seat.new out.new result }
{
    P::calls();
    U::runs();
    let own = *shape;
    let shape = &own;
    let state = After::Next(first);
    let state = take_while::<P, U, E, _>(
        words,
        shape,
        seat,
        out,
        state,
        |phase: &P| phase.usual_step() == 0,
    );
    let state = take_while::<P, U, E, _>(
        words,
        shape,
        seat,
        out,
        state,
        |phase: &P| phase.usual_step() == 1,
    );
    let state = take_while::<P, U, E, _>(
        words,
        shape,
        seat,
        out,
        state,
        |phase: &P| phase.usual_step() == 2,
    );
    let state = take_while::<P, U, E, _>(
        words,
        shape,
        seat,
        out,
        state,
        |phase: &P| phase.usual_step() == 3,
    );
    let state = take_while::<P, U, E, _>(
        words,
        shape,
        seat,
        out,
        state,
        |phase: &P| phase.usual_step() == 4,
    );
    let state = take_while::<P, U, E, _>(
        words,
        shape,
        seat,
        out,
        state,
        |phase: &P| phase.usual_step() == 5,
    );
    let mut state = state;
    loop {
        match state {
            After::Next(phase) => state = take_step::<P, U, E>(words, shape, seat, out, phase),
            After::Done(Answer::Take(answer)) => return answer,
            After::Done(Answer::Put(_)) => unreachable!(),
        }
    }
}

// Does the steps of a take for as long as its phases are of a kind.
#[inline(always)]
fn take_while<P: CallPhase, U: MachineRule<P>, E: Call, F: Fn(&P) -> bool>(
    words: &Words<U>,
    shape: &Shape,
    seat: &mut WordSeat<U>,
    out: &mut [u64],
    mut state: After<P>,
    is_of_kind: F,
) -> After<P>
    requires words { words.now.id.words ≡ word_count shape.now }
    requires own { seat.old.id ≡ words.now.id }
    requires kind { F.IsAlwaysCallable is_of_kind }
    requires on { (c : Call P U.View) × (c.shape ≡ shape.now) × (c.start ≡ E.start)
        × IsTakeOn P.table P.drops U.rule c seat.old out.old state }
    ensures same { seat.new.id ≡ seat.old.id }
    ensures on { (c : Call P U.View) → c.shape ≡ shape.now → c.start ≡ E.start
        → IsTakeOn P.table P.drops U.rule c seat.old out.old state
        → IsTakeOn P.table P.drops U.rule c seat.new out.new result }
{
    P::calls();
    loop {
        let phase = match state {
            After::Next(phase) => phase,
            After::Done(answer) => return After::Done(answer),
        };
        if !is_of_kind(&phase) {
            return After::Next(phase);
        }
        state = take_step::<P, U, E>(words, shape, seat, out, phase);
    }
}

// One step of a take.
#[inline(always)]
fn take_step<P: CallPhase, U: MachineRule<P>, E: Call>(
    words: &Words<U>,
    shape: &Shape,
    seat: &mut WordSeat<U>,
    out: &mut [u64],
    phase: P,
) -> After<P>
    requires words { words.now.id.words ≡ word_count shape.now }
    requires own { seat.old.id ≡ words.now.id }
    requires at { (c : Call P U.View) × (c.shape ≡ shape.now) × (c.start ≡ E.start)
        × IsTakeAt P.table P.drops U.rule c seat.old out.old phase }
    ensures same { seat.new.id ≡ seat.old.id }
    ensures on { (c : Call P U.View) → c.shape ≡ shape.now → c.start ≡ E.start
        → IsTakeAt P.table P.drops U.rule c seat.old out.old phase
        → IsTakeOn P.table P.drops U.rule c seat.new out.new result }
    ensures falls { steps_left P.table shape.now result < P.table.rank shape.now phase }
{
    P::calls();
    U::runs();
    let op = phase.want(shape, out);
    let found = operate::<U, NextStep<P, E>>(words, seat, &op);
    keep_read(&phase, found, out);
    phase.after(shape, found)
}

// Keeps a word of the entry that a take reads.
#[inline(always)]
fn keep_read<P: CallPhase>(phase: &P, found: u64, out: &mut [u64])
    requires { IsWordWithin (P.table.reading phase.now) (length out.old) }
    ensures { out.new ≡ out_after (P.table.reading phase.now) out.old found }
{
    if let Some(next) = phase.word_read() {
        out[next as usize] = found;
    }
}
