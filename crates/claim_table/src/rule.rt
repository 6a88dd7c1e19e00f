//! The rule of the claim's two words, and what its steps tell.
ghost use Rattle.std.specs.Prelude.{◌≡◌, [], false};
ghost use Rattle.claim_table.specs.Claimed.{Claimed, Draws, Marks, Looks, share, kept_share, given_share, joint_share, spent_share};

use crate::share::{ClaimShape, Share};
use step_log::{StepFact, StepRule};

pub struct Claiming;

impl StepRule for Claiming {
    type Key = ClaimShape;

    type View = Share;

    ghost holds = { Claimed };

    ghost first = { λ shape. share shape.seats shape [] false 0 };

    ghost spent = { spent_share };
}

/// A number is drawn, or the end is found.
pub struct Draw;

impl StepFact<Claiming> for Draw {
    ghost then = { Draws };
}

/// The seat is marked ended.
pub struct End;

impl StepFact<Claiming> for End {
    ghost then = { Marks };
}

/// The count of ended seats is read.
pub struct Look;

impl StepFact<Claiming> for Look {
    ghost then = { Looks };
}

/// Seats are dealt, and gathered again.
pub struct Deal;

impl StepFact<Claiming> for Deal {
    ghost then = { λ v t w. w ≡ v };

    ghost left = { kept_share };

    ghost right = { given_share };

    ghost both = { joint_share };
}
