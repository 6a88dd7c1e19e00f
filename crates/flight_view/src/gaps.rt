//! Where a view has gaps, and why.
ghost use Rattle.std.specs.Prelude.{◌≡◌, ◌≤◌, ◌↔◌, IfSome, IsNone, Some, length, slice_get};

use cursor_word::Cursor;
use std::marker::Model;

/// A block of which a view may lack entries, and the two cursors that tell why: one is of another
/// block, or they differ.
#[derive(Clone, Copy, Debug, PartialEq, Eq)]
pub struct Gap {
    pub block: u64,
    pub committed: Cursor,
    pub allocated: Cursor,
}

/// The gaps of a view, in rising order of block.
#[derive(Drop)]
pub struct Gaps {
    pub(crate) gaps: Vec<Gap>,
}

impl Model for Gaps {
    ghost use Rattle.std.specs.Prelude.{List};
    ghost use Rattle.flight_view.specs.declared.gaps.Gap.{Gap};

    ghost Value = { List Gap };

    ghost view = { λ g. g.gaps.items };
}

impl Gaps {
    /// How many gaps there are.
    pub fn len(&self) -> usize
        ensures { result ≡ length self.now }
    {
        self.gaps.len()
    }

    /// The gap at an index.
    pub fn get(&self, index: usize) -> Option<&Gap>
        ensures none { IsNone result ↔ (length self.now ≤ index) }
        ensures some { IfSome result (λ gap. slice_get self.now index ≡ Some gap.now) }
    {
        self.gaps.get(index)
    }
}
