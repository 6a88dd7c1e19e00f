//! The phases of a machine's calls.
ghost use Rattle.std.specs.Prelude.{◌≡◌, ℕ, ◌<◌, length};
ghost use Rattle.cursor_word.specs.Layout.{word_count};
ghost use Rattle.machine.specs.Ops.{index};
ghost use Rattle.machine.specs.Table.{Table, word_of};
ghost use Rattle.machine.specs.Invariant.{Fact, IsInvariant};
ghost use Rattle.machine.specs.Bounds.{IsRanked};

use crate::op::{After, Op};
use cursor_word::Shape;
use rail::Batch;

/// Where a call stands. The machine's table says what its step is and what follows it, and that is
/// what the code computes.
pub trait Phase: Copy {
    // The table of the machine.
    ghost table: { Table Self };

    // What holds between any two steps.
    ghost Holds: { Fact Self };

    /// Where a put begins.
    fn first_put() -> Self
        ensures { result ≡ table.first_put };

    /// Where a take begins, of a seat that has taken these.
    fn first_take(shape: &Shape, taken: &Batch) -> Self
        ensures { result ≡ table.first_take shape.now taken.now.items };

    /// The step of the phase.
    fn want(&self, shape: &Shape, entry: &[u64]) -> Op
        requires width { length entry.now ≡ shape.now.width }
        requires phase { table.IsInRange shape.now self.now }
        ensures op { result ≡ table.want shape.now self.now entry.now }
        ensures within { index result < word_count shape.now };

    /// What follows where the step found a value.
    fn after(&self, shape: &Shape, old: u64) -> After<Self>
        requires phase { table.IsInRange shape.now self.now }
        requires found { table.FindsFit self.now old }
        ensures { result ≡ table.after shape.now self.now old };

    /// The word of the entry that the step reads, if it reads one.
    fn word_read(&self) -> Option<u64>
        ensures { result ≡ word_of (table.reading self.now) };

    /// The law of the machine: it keeps what holds. It does nothing when it runs.
    fn keeps()
        ensures { IsInvariant table Holds };

    /// The law of its calls: each ends. It does nothing when it runs.
    fn ends()
        ensures { IsRanked table };
}
