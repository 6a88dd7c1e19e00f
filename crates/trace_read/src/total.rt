ghost use Rattle.std.specs.Prelude.{◌≡◌, ◌≤◌, ◌↔◌, [], length, slice_get, IsNone, IsTrue, option_copied};

use std::marker::Model;

/// What a worker's spans add up to.
#[derive(Clone, Copy, Debug, PartialEq, Eq)]
pub struct Total {
    pub tid: u64,
    /// The number of its pieces.
    pub pieces: u64,
    /// The number of words in its pieces.
    pub words: u128,
    /// How long the worker took, in microseconds.
    pub dur: u64,
}

/// The totals of a trace, in rising order of the workers' numbers.
#[derive(Drop)]
pub struct Totals {
    totals: Vec<Total>,
}

impl Model for Totals {
    ghost use Rattle.std.specs.Prelude.{List};
    ghost use Rattle.trace_read.specs.declared.total.Total.{Total};

    ghost Value = { List Total };

    ghost view = { λ a. a.totals.items };
}

impl Totals {
    pub(crate) fn new(totals: Vec<Total>) -> Totals
        ensures { result ≡ totals.items }
    {
        Totals { totals }
    }

    pub fn len(&self) -> usize
        ensures { result ≡ length self.now }
    {
        self.totals.len()
    }

    pub fn is_empty(&self) -> bool
        ensures { IsTrue result ↔ (self.now ≡ []) }
    {
        self.totals.is_empty()
    }

    pub fn get(&self, index: usize) -> Option<&Total>
        ensures total { option_copied result ≡ slice_get self.now index }
        ensures none { IsNone result ↔ (length self.now ≤ index) }
    {
        self.totals.get(index)
    }

    /// All totals in order.
    pub fn as_slice(&self) -> &[Total]
        ensures { result.now ≡ self.now }
    {
        &self.totals
    }
}
