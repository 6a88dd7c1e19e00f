//! One step of any kind.
ghost use Rattle.std.specs.Prelude.{◌≡◌, ◌<◌, ◌++◌, [], ◌∷◌};
ghost use Rattle.step_log.specs.Log.{Keeps};
ghost use Rattle.machine.specs.Ops.{index, moved};
ghost use Rattle.call_steps.specs.Rule.{logged, value_of};

use machine::Op;
use step_log::{StepFact, StepRule, WordSeat, Words};

/// Does the step, and answers the value that it found, or of a store the value that it wrote.
#[inline(always)]
pub fn operate<U: StepRule, T: StepFact<U>>(
    words: &Words<U>,
    seat: &mut WordSeat<U>,
    op: &Op,
) -> u64
    requires own { seat.old.id ≡ words.now.id }
    requires index { index op.now < words.now.id.words }
    requires rule { Keeps (U.holds words.now.key) seat.old.view (index op.now) (moved op.now)
        (λ n. T.then seat.old.view (logged op.now n)) }
    ensures log { seat.new ≡ record {
      id = seat.old.id;
      view = seat.new.view;
      log = seat.old.log ++ logged op.now result ∷ [];
    } }
    ensures fact { T.then seat.old.view (logged op.now result) seat.new.view }
    ensures value { result ≡ value_of (logged op.now result) }
{
    match op {
        Op::Load(index) => words.load::<T>(seat, *index),
        Op::Store(index, value) => {
            words.store::<T>(seat, *index, *value);
            *value
        }
        Op::AddOne(index) => words.add_one::<T>(seat, *index),
        Op::Max(index, value) => words.max::<T>(seat, *index, *value),
    }
}
