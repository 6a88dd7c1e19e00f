//! What the claim is told when it is made, and what a seat of it knows.

/// How many numbers there are to draw, and for how many seats.
#[derive(Clone, Copy)]
pub struct ClaimShape {
    pub pieces: u64,
    pub seats: u64,
}

/// What a seat knows: how many seats it stands for, what they drew, whether one found the end, and
/// how many are marked ended.
/// A share of no part is spent. No value of it is made.
pub struct Share {
    pub parts: u64,
    pub shape: ClaimShape,
    pub drawn: [u64; 0],
    pub stopped: bool,
    pub ended: u64,
}
