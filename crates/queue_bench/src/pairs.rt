//! A put and a take through one seat, or a put alone, again and again.
ghost use Rattle.std.specs.Prelude.{◌≡◌, ◌+◌, ◌≤◌, ◌<◌, length};
ghost use Rattle.cursor_word.specs.Cursor.{most_puts};

use rail::{Put, Rail, Take};

/// Puts an entry and takes one, so many times, and answers how many came back as they were put.
pub fn pairs<Q: Rail>(rail: &Q, seat: &mut Q::Seat, times: u64) -> u64
    requires puts { Q.PutsInto rail.now seat.old }
    requires takes { Q.TakesFrom rail.now seat.old }
    requires width { (Q.shape_of rail.now).width ≡ 6 }
    requires room { length (Q.made seat.old) + times ≤ most_puts (Q.shape_of rail.now) }
{
    let mut kept = 0;
    for turn in 0..times {
        kept += u64::from(pair(rail, seat, turn));
    }
    kept
}

// One put and one take.
fn pair<Q: Rail>(rail: &Q, seat: &mut Q::Seat, turn: u64) -> bool
    requires puts { Q.PutsInto rail.now seat.old }
    requires takes { Q.TakesFrom rail.now seat.old }
    requires width { (Q.shape_of rail.now).width ≡ 6 }
    requires room { length (Q.made seat.old) < most_puts (Q.shape_of rail.now) }
    ensures puts { Q.PutsInto rail.now seat.new }
    ensures takes { Q.TakesFrom rail.now seat.new }
    ensures one { length (Q.made seat.new) ≤ length (Q.made seat.old) + 1 }
{
    let entry = entry_of(turn);
    let mut out = [0; 6];
    let put = rail.put(seat, &entry);
    let take = rail.take(seat, &mut out);
    matches!((put, take), (Put::Ok(_), Take::Ok(_))) && out == entry
}

/// Puts an entry so many times, and answers how many were accepted.
pub fn puts<Q: Rail>(rail: &Q, seat: &mut Q::Seat, times: u64) -> u64
    requires puts { Q.PutsInto rail.now seat.old }
    requires width { (Q.shape_of rail.now).width ≡ 6 }
    requires room { length (Q.made seat.old) + times ≤ most_puts (Q.shape_of rail.now) }
{
    let mut kept = 0;
    for turn in 0..times {
        let put = rail.put(seat, &entry_of(turn));
        kept += u64::from(matches!(put, Put::Ok(_)));
    }
    kept
}

/// The entry of a turn.
pub fn entry_of(turn: u64) -> [u64; 6] {
    [turn, 1, 2, 3, 4, 5]
}
