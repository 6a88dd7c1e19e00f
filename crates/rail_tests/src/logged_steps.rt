//! Steps on shared words, by one thread and by two.
ghost use Rattle.std.specs.Prelude.{◌≡◌, ◌<◌};

use std::test::Fail;
use std::thread::join;
use step_log::{StepFact, StepRule, WordSeat, Words};

/// A rule that allows every step.
pub struct Anything;

impl StepRule for Anything {
    type Key = ();

    type View = ();

    ghost holds = { λ _ _ _. Unit {0} };

    ghost first = { λ _. tt };

    ghost spent = { tt };
}

/// What a step tells under it.
pub struct Nothing;

impl StepFact<Anything> for Nothing {
    ghost then = { λ _ _ _. Unit {0} };
}

#[test]
fn each_step_answers_what_it_found(rt: HostRuntime) -> Result<(), Fail> {
    let start = vec![in rt.alloc(); 5u64, 6, 7]?;
    let (words, mut seat) = Words::<Anything>::make(rt.alloc(), start, ())?;
    let loaded = words.load::<Nothing>(&mut seat, 1);
    let added = words.add_one::<Nothing>(&mut seat, 1);
    let raised = words.max::<Nothing>(&mut seat, 1, 3);
    let again = words.load::<Nothing>(&mut seat, 1);
    words.store::<Nothing>(&mut seat, 0, 9);
    let stored = words.load::<Nothing>(&mut seat, 0);
    assert_eq!(rt; [loaded, added, raised, again, stored], [6, 6, 7, 7, 9]);
    let stopped = words.close(seat);
    assert_eq!(rt;
        [stopped.word(0), stopped.word(1), stopped.word(2)],
        [9, 7, 7]
    );
    Ok(())
}

fn add_often(
    words: &Words<Anything>,
    mut seat: WordSeat<Anything>,
    times: u64,
) -> WordSeat<Anything>
    requires own { seat.id ≡ words.now.id }
    requires some { 0 < words.now.id.words }
    ensures { result.id ≡ words.now.id }
{
    for _turn in 0..times {
        words.add_one::<Nothing>(&mut seat, 0);
    }
    seat
}

// Each thread owns its seat and gives it back, so both seats are joined before the words are closed.
#[test]
fn adds_of_two_threads_are_all_kept(rt: HostRuntime) -> Result<(), Fail> {
    let start = vec![in rt.alloc(); 0u64]?;
    let (words, mut seat) = Words::<Anything>::make(rt.alloc(), start, ())?;
    let other = words.split::<Nothing>(&mut seat);
    let shared = &words;
    let (mut seat, other) = join(
        &rt,
        || -> WordSeat<Anything>
            requires { (seat.id ≡ shared.now.id) × (0 < shared.now.id.words) }
            ensures { result.id ≡ shared.entry.now.id }
        { add_often(shared, seat, 100000) },
        || -> WordSeat<Anything>
            requires { (other.id ≡ shared.now.id) × (0 < shared.now.id.words) }
            ensures { result.id ≡ shared.entry.now.id }
        { add_often(shared, other, 100000) },
    );
    words.join::<Nothing>(&mut seat, other);
    let stopped = words.close(seat);
    assert_eq!(rt; stopped.word(0), 200000);
    Ok(())
}
