//! How many entries a seat has put and taken.
ghost use Rattle.std.specs.Prelude.{◌≡◌, ◌+◌, ◌-◌, ◌^◌, ◌<◌, min};
ghost use Rattle.call_steps.specs.Queue.{puts_by, takes_by};

use rail::{Put, Take};

/// The number of puts accepted, with one more answer.
#[inline(always)]
pub fn puts_after(puts: u64, answer: &Put) -> u64
    requires room { puts + 1 < 2 ^ 64 }
    ensures { result ≡ puts + puts_by answer.now }
{
    match answer {
        Put::Ok(_) => puts + 1,
        _ => puts,
    }
}

/// The number of entries taken, with one more answer; at most 2^64 - 1.
#[inline(always)]
pub fn takes_after(takes: u64, answer: &Take) -> u64
    ensures { result ≡ min (takes + takes_by answer.now) (2 ^ 64 - 1) }
{
    match answer {
        Take::Ok(_) => takes.saturating_add(1),
        _ => takes,
    }
}
