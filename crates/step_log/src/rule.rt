//! The rule of the words, and what one step tells.
ghost use Rattle.std.specs.Prelude.{◌≡◌, ℕ, List, [], ◌∷◌, ◌++◌};
ghost use Rattle.step_log.specs.declared.log.Step.{Step};
ghost use Rattle.step_log.specs.Log.{views_of, begun, with_step, loaded, stored, added, raised, parted, merged};

use crate::log::Logged;
use atomic_table::{Join, Play, Split, TableRule};
use std::marker::PhantomData;

/// The fact that holds between any two steps. It speaks of no log: logs stand beside the views, and
/// the clauses of a call read them.
pub trait StepRule {
    type Key: Drop;

    type View;

    // The fact, of the key, the words and the views of all seats.
    ghost holds: { Self.Key → List ℕ → List Self.View → Type 0 };

    // The view with which the first seat of a key starts.
    ghost first: { Self.Key → Self.View };

    // The view of a seat that another seat took in, which what the fact says of each seat excepts.
    ghost spent: { Self.View };
}

/// What a step tells its caller. One that tells of loads, stores, adds and maxima alone names
/// `then` alone.
pub trait StepFact<U: StepRule> {
    // Of the view before, the step, and the view after. The step has the value that it found and
    // the one that it brought, which determine the word afterwards.
    ghost then: { U.View → Step → U.View → Type 0 };

    // The view that a split leaves its seat, and the one that the new seat gets.
    ghost left: { U.View → U.View } = { λ v. v };

    ghost right: { U.View → U.View } = { λ v. v };

    // The view that a join makes of two.
    ghost both: { U.View → U.View → U.View } = { λ v w. v };
}

pub(crate) struct Lifted<U> {
    rule: PhantomData<U>,
}

impl<U: StepRule> TableRule<(), Logged<U::View>, U::Key> for Lifted<U> {
    ghost holds = { λ key s. U.holds key s.words (views_of s.views) };

    ghost first = { λ key. begun (U.first key) };
}

pub(crate) struct Loads<U, T> {
    fact: PhantomData<(U, T)>,
}

impl<U: StepRule, T: StepFact<U>> Play<(), Logged<U::View>> for Loads<U, T> {
    ghost then = { λ s me n after. (after ≡ (with_step me.0 after.0.view (loaded s.word n), me.1))
        × T.then me.0.view (loaded s.word n) after.0.view };
}

pub(crate) struct Stores<U, T> {
    fact: PhantomData<(U, T)>,
}

impl<U: StepRule, T: StepFact<U>> Play<(), Logged<U::View>> for Stores<U, T> {
    ghost then = { λ s me n after. (after ≡ (
      with_step me.0 after.0.view (stored s.word s.first),
      me.1,
    )) × T.then me.0.view (stored s.word s.first) after.0.view };
}

pub(crate) struct Adds<U, T> {
    fact: PhantomData<(U, T)>,
}

impl<U: StepRule, T: StepFact<U>> Play<(), Logged<U::View>> for Adds<U, T> {
    ghost then = { λ s me n after. (after ≡ (with_step me.0 after.0.view (added s.word n), me.1))
        × T.then me.0.view (added s.word n) after.0.view };
}

pub(crate) struct Raises<U, T> {
    fact: PhantomData<(U, T)>,
}

impl<U: StepRule, T: StepFact<U>> Play<(), Logged<U::View>> for Raises<U, T> {
    ghost then = { λ s me n after. (after ≡ (
      with_step me.0 after.0.view (raised s.word s.first n),
      me.1,
    )) × T.then me.0.view (raised s.word s.first n) after.0.view };
}

pub(crate) struct Cuts<U, T> {
    fact: PhantomData<(U, T)>,
}

impl<U: StepRule, T: StepFact<U>> Split<Logged<U::View>> for Cuts<U, T> {
    ghost left = { λ l. with_step l (T.left l.view) parted };

    ghost right = { λ l. begun (T.right l.view) };
}

pub(crate) struct Joins<U, T> {
    fact: PhantomData<(U, T)>,
}

impl<U: StepRule, T: StepFact<U>> Join<Logged<U::View>> for Joins<U, T> {
    ghost both = { λ l m. with_step l (T.both l.view m.view) merged };

    ghost spent = { begun U.spent };
}
