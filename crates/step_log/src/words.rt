//! The words, and the seats from which threads step on them.
ghost use Rattle.std.specs.Prelude.{◌≡◌, ◌≢◌, ℕ, ◌+◌, ◌%◌, ◌^◌, ◌<◌, List, [], ◌∷◌, ◌++◌, length, max, IfOk};
ghost use mathlib.Core.Option.{some};
ghost use lib.ListN.{get_elem?};
ghost use Rattle.step_log.specs.Log.{Standing, Sitting, Keeps, Parts, Merges, Ends, loaded, stored, added, raised, parted, merged};

use crate::log::Logged;
use crate::rule::{Adds, Cuts, Joins, Lifted, Loads, Raises, StepFact, StepRule, Stores};
use atomic_table::{Closed, Seat, Table};
use std::alloc::{AllocError, Global};
use std::marker::Model;

/// The shared words. Threads step on them through a reference, each with a seat of its own.
#[derive(Drop)]
pub struct Words<U: StepRule> {
    table: Table<(), Logged<U::View>, U::Key, Lifted<U>, Global>,
}

impl<U: StepRule> Model for Words<U> {
    ghost Value = { Standing U.Key };

    ghost view = { λ w. record { id = w.table.shared.table_id; key = w.table.shared.key } };

    ghost invariant = { λ w. (w.table.shared.table_id.slots ≡ 0)
        × (0 < w.table.shared.table_id.words) };
}

/// The token with which one caller steps: a view of the words, and the log of the steps that were
/// taken with it. It has no bytes at run time.
#[derive(Drop)]
pub struct WordSeat<U: StepRule> {
    seat: Seat<(), Logged<U::View>>,
}

impl<U: StepRule> Model for WordSeat<U> {
    ghost Value = { Sitting U.View };

    ghost view = { λ s. record {
      id = s.seat.table_id;
      view = s.seat.me.0.view;
      log = s.seat.me.0.log;
    } };

    ghost invariant = { λ s. s.seat.me.1 ≡ [] };
}

impl<U: StepRule> Words<U> {
    /// The words as they are given, and one seat with an empty log. After an `AllocError` both
    /// `words` and `key` are given up.
    pub fn make(
        alloc: Global,
        words: Vec<u64>,
        key: U::Key,
    ) -> Result<(Words<U>, WordSeat<U>), AllocError>
        requires some { 0 < length words.items }
        requires rule { U.holds key words.items (U.first key ∷ []) }
        ensures words { IfOk result (λ r. (r.0.id.words ≡ length words.items) × (r.0.key ≡ key)) }
        ensures seat { IfOk result (λ r. r.1 ≡ record { id = r.0.id; view = U.first key; log = [] }) }
    {
        let (table, seat) = Table::of_words(alloc, words.as_slice(), &key)?;
        Ok((Words { table }, WordSeat { seat }))
    }

    /// Loads a word.
    pub fn load<T: StepFact<U>>(&self, seat: &mut WordSeat<U>, index: u64) -> u64
        requires own { seat.old.id ≡ self.now.id }
        requires index { index < self.now.id.words }
        requires rule { Keeps (U.holds self.now.key) seat.old.view index (λ n. n)
            (λ n. T.then seat.old.view (loaded index n)) }
        ensures log { seat.new ≡ record {
          id = seat.old.id;
          view = seat.new.view;
          log = seat.old.log ++ loaded index result ∷ [];
        } }
        ensures fact { T.then seat.old.view (loaded index result) seat.new.view }
    {
        let shared = &self.table.shared;
        shared.load::<Loads<U, T>>(&mut seat.seat, index as usize)
    }

    /// Stores a word.
    pub fn store<T: StepFact<U>>(&self, seat: &mut WordSeat<U>, index: u64, value: u64)
        requires own { seat.old.id ≡ self.now.id }
        requires index { index < self.now.id.words }
        requires rule { Keeps (U.holds self.now.key) seat.old.view index (λ _. value)
            (λ n. T.then seat.old.view (stored index value)) }
        ensures log { seat.new ≡ record {
          id = seat.old.id;
          view = seat.new.view;
          log = seat.old.log ++ stored index value ∷ [];
        } }
        ensures fact { T.then seat.old.view (stored index value) seat.new.view }
    {
        let shared = &self.table.shared;
        shared.store::<Stores<U, T>>(&mut seat.seat, index as usize, value);
    }

    /// Adds one to a word modulo 2^64, and answers what it found.
    pub fn add_one<T: StepFact<U>>(&self, seat: &mut WordSeat<U>, index: u64) -> u64
        requires own { seat.old.id ≡ self.now.id }
        requires index { index < self.now.id.words }
        requires rule { Keeps (U.holds self.now.key) seat.old.view index (λ n. (n + 1) % 2 ^ 64)
            (λ n. T.then seat.old.view (added index n)) }
        ensures log { seat.new ≡ record {
          id = seat.old.id;
          view = seat.new.view;
          log = seat.old.log ++ added index result ∷ [];
        } }
        ensures fact { T.then seat.old.view (added index result) seat.new.view }
    {
        let shared = &self.table.shared;
        shared.fetch_add::<Adds<U, T>>(&mut seat.seat, index as usize, 1)
    }

    /// Raises a word to `value` where it is less, and answers what it found.
    pub fn max<T: StepFact<U>>(&self, seat: &mut WordSeat<U>, index: u64, value: u64) -> u64
        requires own { seat.old.id ≡ self.now.id }
        requires index { index < self.now.id.words }
        requires rule { Keeps (U.holds self.now.key) seat.old.view index (λ n. max n value)
            (λ n. T.then seat.old.view (raised index value n)) }
        ensures log { seat.new ≡ record {
          id = seat.old.id;
          view = seat.new.view;
          log = seat.old.log ++ raised index value result ∷ [];
        } }
        ensures fact { T.then seat.old.view (raised index value result) seat.new.view }
    {
        let shared = &self.table.shared;
        shared.fetch_max::<Raises<U, T>>(&mut seat.seat, index as usize, value)
    }

    /// Loads word 0, and hands out a new seat with an empty log. The load is told to nobody.
    pub fn split<T: StepFact<U>>(&self, seat: &mut WordSeat<U>) -> WordSeat<U>
        requires own { seat.old.id ≡ self.now.id }
        requires rule { Parts (U.holds self.now.key) seat.old.view (T.left seat.old.view)
            (T.right seat.old.view) }
        ensures kept { seat.new ≡ record {
          id = seat.old.id;
          view = T.left seat.old.view;
          log = seat.old.log ++ parted ∷ [];
        } }
        ensures given { result ≡ record { id = seat.old.id; view = T.right seat.old.view; log = [] } }
    {
        let shared = &self.table.shared;
        let given = shared.split_seat::<Cuts<U, T>>(&mut seat.seat);
        WordSeat { seat: given }
    }

    /// Loads word 0, and takes in the other seat, whose view and log are spent. The load is told to
    /// nobody.
    pub fn join<T: StepFact<U>>(&self, seat: &mut WordSeat<U>, other: WordSeat<U>)
        requires own { (seat.old.id ≡ self.now.id) × (other.id ≡ self.now.id) }
        requires rule { Merges (U.holds self.now.key) seat.old.view other.view
            (T.both seat.old.view other.view) U.spent }
        ensures taken { seat.new ≡ record {
          id = seat.old.id;
          view = T.both seat.old.view other.view;
          log = seat.old.log ++ merged ∷ [];
        } }
    {
        let WordSeat { seat: other } = other;
        let shared = &self.table.shared;
        shared.join_seat::<Joins<U, T>>(&mut seat.seat, other);
    }

    /// Stops all steps, and keeps the words.
    pub fn close(self, seat: WordSeat<U>) -> Stopped
        requires own { seat.id ≡ self.id }
        ensures words { length result ≡ self.id.words }
        ensures rule { Ends (U.holds self.key) seat.view result }
    {
        let Words { table } = self;
        let WordSeat { seat } = seat;
        Stopped {
            closed: table.close_with(seat),
        }
    }
}

/// The words as the last step left them, which no thread shares any more.
pub struct Stopped {
    closed: Closed<(), Global>,
}

impl Model for Stopped {
    ghost use Rattle.std.specs.Prelude.{◌≡◌, ℕ, List};
    ghost use Rattle.std.specs.Slots.{slots_items, slots_len, IsFull};

    ghost Value = { List ℕ };

    ghost view = { λ s. slots_items s.closed.words };

    ghost invariant = { λ s. (slots_len s.closed.slots ≡ 0) × IsFull s.closed.words };
}

impl Stopped {
    /// One of the words.
    pub fn word(&self, index: u64) -> u64
        requires index { index < length self.now }
        ensures value { get_elem? self.now index ≡ some result }
    {
        self.closed.word(index as usize)
    }
}

impl Drop for Stopped {
    fn drop(self) {
        let Stopped { closed } = self;
        closed.free();
    }
}
