ghost use Rattle.std.specs.Prelude.{◌≡◌, ◌≤◌, ◌↔◌, [], length, slice_get, IsNone, IsTrue, option_copied};

use std::marker::Model;

/// How long a worker took by itself, or in one of its files.
#[derive(Clone, Copy, Debug, PartialEq, Eq)]
pub struct Line {
    pub tid: u64,
    /// The file's number; none for what the worker took by itself.
    pub file: Option<u64>,
    /// In microseconds.
    pub time: u128,
}

/// The lines of a profile, by workers; of each worker its own line first, and then its files.
#[derive(Drop)]
pub struct Folded {
    lines: Vec<Line>,
}

impl Model for Folded {
    ghost use Rattle.std.specs.Prelude.{List};
    ghost use Rattle.span_fold.specs.declared.folded.Line.{Line};

    ghost Value = { List Line };

    ghost view = { λ a. a.lines.items };
}

impl Folded {
    pub(crate) fn new(lines: Vec<Line>) -> Folded
        ensures { result ≡ lines.items }
    {
        Folded { lines }
    }

    pub fn len(&self) -> usize
        ensures { result ≡ length self.now }
    {
        self.lines.len()
    }

    pub fn is_empty(&self) -> bool
        ensures { IsTrue result ↔ (self.now ≡ []) }
    {
        self.lines.is_empty()
    }

    pub fn get(&self, index: usize) -> Option<&Line>
        ensures line { option_copied result ≡ slice_get self.now index }
        ensures none { IsNone result ↔ (length self.now ≤ index) }
    {
        self.lines.get(index)
    }

    /// All lines in order.
    pub fn as_slice(&self) -> &[Line]
        ensures { result.now ≡ self.now }
    {
        &self.lines
    }
}
