//! Calls of any queue, through its bound.
ghost use Rattle.std.specs.Prelude.{◌≡◌, ◌+◌, ◌≤◌, ◌<◌, length};

use rail::{Answer, Rail};
use std::alloc::{AllocError, Global};

/// One call, and the words of the buffer after it: a put of an entry that begins with this word, or a take.
pub fn call_of<Q: Rail>(rail: &Q, seat: &mut Q::Seat, word: Option<u64>) -> (Answer, [u64; 8])
    requires puts { Q.PutsInto rail.now seat.old }
    requires takes { Q.TakesFrom rail.now seat.old }
    requires few { length (Q.made seat.old) < 1000 }
    ensures puts { Q.PutsInto rail.now seat.new }
    ensures takes { Q.TakesFrom rail.now seat.new }
    ensures number { Q.number_of seat.new ≡ Q.number_of seat.old }
    ensures one { length (Q.made seat.new) ≤ length (Q.made seat.old) + 1 }
{
    let shape = rail.shape();
    let _most = shape.most_puts();
    let width = shape.width() as usize;
    let mut words = [0, 1, 2, 3, 4, 5, 6, 7];
    let answer = match word {
        Some(word) => {
            words[0] = word;
            Answer::Put(rail.put(seat, &words[..width]))
        }
        None => Answer::Take(rail.take(seat, &mut words[..width])),
    };
    (answer, words)
}

/// What a closed queue of one seat had: how many entries were accepted, and what is left.
pub fn ended<Q: Rail>(
    alloc: Global,
    rail: Q,
    seat: Q::Seat,
) -> Result<(u64, Vec<(u64, u64)>), AllocError>
    requires puts { Q.PutsInto rail seat }
    requires one { ((Q.shape_of rail).seats ≡ 1) × (Q.number_of seat ≡ 0) }
{
    let mut seats = Vec::new(alloc);
    seats.push(seat)?;
    let Ok(done) = rail.close(alloc, seats) else {
        return Err(AllocError);
    };
    let left = left_of::<Q>(alloc, &done)?;
    Ok((Q::accepted(&done), left))
}

/// The places that are left in a closed queue, with the first word of each.
pub fn left_of<Q: Rail>(alloc: Global, done: &Q::Done) -> Result<Vec<(u64, u64)>, AllocError> {
    let mut left = Vec::new(alloc);
    for item in Q::left(done).as_slice() {
        left.push((item.place, item.words.words()[0]))?;
    }
    Ok(left)
}
