ghost use Rattle.std.specs.Prelude.{◌≡◌, ◌+◌, ◌<◌, ◌≤◌, ◌↔◌, List, [], ◌∷◌, ◌++◌, length, take, slice_get, IsNone, IsTrue, IsErrOf, OnOk, OnErr, option_copied};
ghost use Rattle.word_text.specs.Pieces.{piece_len, pieces_of};

use crate::scan::word_len;
use std::alloc::{AllocError, Global};
use std::marker::Model;
use thiserror::Error;

/// The most pieces that a plan holds.
pub const MOST_PIECES: usize = 1_048_576;

/// A range of the bytes of one text of the input.
#[derive(Clone, Copy, Debug, PartialEq, Eq)]
pub struct Piece {
    pub file: u64,
    pub start: usize,
    pub end: usize,
}

/// Why a text's pieces aren't all in the plan.
#[derive(Debug, Drop, Error)]
pub enum PlanError {
    #[error("too many pieces")]
    TooMany,
    #[error("out of memory")]
    Memory,
}

/// The pieces of the input in order, at most `MOST_PIECES`.
#[derive(Drop)]
pub struct Plan {
    pieces: Vec<Piece>,
}

impl Model for Plan {
    ghost use Rattle.std.specs.Prelude.{List, length, ◌≤◌};
    ghost use Rattle.word_text.specs.declared.plan.Piece.{Piece};
    ghost use Rattle.word_text.specs.declared.plan.TheConstants.{MOST_PIECES};

    ghost Value = { List Piece };

    ghost view = { λ a. a.pieces.items };

    ghost invariant = { λ a. length a.pieces.items ≤ MOST_PIECES };
}

impl Plan {
    /// A plan without pieces. It takes no memory.
    pub fn new(alloc: Global) -> Plan
        ensures { result ≡ [] }
    {
        Plan {
            pieces: Vec::new(alloc),
        }
    }

    pub fn len(&self) -> usize
        ensures number { result ≡ length self.now }
        ensures bounded { result ≤ MOST_PIECES }
    {
        self.pieces.len()
    }

    pub fn is_empty(&self) -> bool
        ensures { IsTrue result ↔ (self.now ≡ []) }
    {
        self.pieces.is_empty()
    }

    pub fn get(&self, index: usize) -> Option<&Piece>
        ensures piece { option_copied result ≡ slice_get self.now index }
        ensures none { IsNone result ↔ (length self.now ≤ index) }
    {
        self.pieces.get(index)
    }

    fn add(&mut self, piece: Piece) -> Result<(), PlanError>
        ensures ok { OnOk result (self.new ≡ self.old ++ piece ∷ []) }
        ensures full { IsErrOf result PlanError.TooMany ↔ (length self.old ≡ MOST_PIECES) }
        ensures memory { IsErrOf result PlanError.Memory → length self.old < MOST_PIECES }
        ensures err { OnErr result (self.new ≡ self.old) }
    {
        if self.pieces.len() == MOST_PIECES {
            return Err(PlanError::TooMany);
        }
        self.pieces.push(piece).map_err(|_| PlanError::Memory)
    }
}

/// How long the first piece of what is left of a text is.
fn piece_len(rest: &[u8], k: usize) -> usize
    ensures exact { result ≡ piece_len k rest.now }
    ensures within { result ≤ length rest.now }
    ensures some { 0 < k → 0 < length rest.now → 0 < result }
{
    let least = k.min(rest.len());
    least + word_len(&rest[least..])
}

/// Cuts a text into pieces of at least `k` bytes each, but for the last, and adds them to the plan.
pub fn pieces(
    _alloc: Global,
    text: &[u8],
    file: u64,
    k: usize,
    plan: &mut Plan,
) -> Result<(), PlanError>
    requires { 0 < k }
    ensures ok { OnOk result (plan.new ≡ plan.old ++ pieces_of text.now file k) }
    ensures fit { OnOk result
        (length plan.old + length (pieces_of text.now file k) ≤ MOST_PIECES) }
    ensures too_many { IsErrOf result PlanError.TooMany
        → MOST_PIECES < length plan.old + length (pieces_of text.now file k) }
    ensures first_ones { IsErrOf result PlanError.TooMany
        → plan.new ≡ take MOST_PIECES (plan.old ++ pieces_of text.now file k) }
    ensures memory { IsErrOf result PlanError.Memory → length plan.new < MOST_PIECES }
    ensures err { OnErr result ((done : List Piece) × (left : List Piece)
        × (done ++ left ≡ pieces_of text.now file k) × (plan.new ≡ plan.old ++ done)) }
{
    let mut start = 0;
    while start < text.len() {
        let end = start + piece_len(&text[start..], k);
        plan.add(Piece { file, start, end })?;
        start = end;
    }
    prove!(plan.len() <= MOST_PIECES);
    Ok(())
}
