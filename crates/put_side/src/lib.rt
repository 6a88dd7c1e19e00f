//! The steps of a put that every queue of blocks shares, and what they keep, whatever takes do.
#![tactic(auto)]

mod put_phase;

pub use put_phase::{
    PutPhase, SharesPuts, after_put, by_turn, first_put, opened, rank_put, want_put,
};
