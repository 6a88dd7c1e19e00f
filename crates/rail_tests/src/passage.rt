ghost use Rattle.std.specs.Prelude.{◌≡◌, ◌++◌, ◌+◌, ◌≤◌, ◌<◌, [], List, IfOk, OnOk, length, false, IsPermutation};
ghost use Rattle.std.specs.List.{All};
ghost use Rattle.cursor_word.specs.Cursor.{most_puts};
ghost use Rattle.rail.specs.Told.{IsPut, IsTake};

use rail::{Batch, Entry, Placed, Put, Rail, Take, close_without_loss};
use std::alloc::{AllocError, Global};

/// What went through a queue: what was put, what was taken, and the closed queue.
#[derive(Drop)]
pub struct Passed<D> {
    pub put: Batch,
    pub taken: Batch,
    pub done: D,
}

/// Puts an entry, and keeps it with its place where it is accepted.
pub fn put_kept<Q: Rail>(
    rail: &Q,
    seat: &mut Q::Seat,
    entry: &Entry,
    put: &mut Batch,
) -> Result<(), AllocError>
    requires seat { Q.PutsInto rail.now seat.old }
    requires width { length entry.now ≡ (Q.shape_of rail.now).width }
    requires room { length (Q.made seat.old) < most_puts (Q.shape_of rail.now) }
    requires kept { put.old.items ≡ Q.made seat.old }
    ensures seat { Q.PutsInto rail.now seat.new }
    ensures takes { Q.TakesFrom rail.now seat.old → Q.TakesFrom rail.now seat.new }
    ensures number { Q.number_of seat.new ≡ Q.number_of seat.old }
    ensures taken { Q.taken seat.new ≡ Q.taken seat.old }
    ensures one { length (Q.made seat.new) ≤ length (Q.made seat.old) + 1 }
    ensures calls { OnOk result (IsPut (Q.told seat.new).answer) }
    ensures kept { put.new.items ≡ Q.made seat.new }
{
    put.reserve_one()?;
    if let Put::Ok(place) = rail.put(seat, entry.words()) {
        put.push(Placed {
            place,
            words: *entry,
        });
    }
    Ok(())
}

/// Takes an entry, and keeps it with its place.
pub fn take_kept<Q: Rail>(
    rail: &Q,
    seat: &mut Q::Seat,
    out: &mut [u64],
    taken: &mut Batch,
) -> Result<(), AllocError>
    requires seat { Q.TakesFrom rail.now seat.old }
    requires width { length out.old ≡ (Q.shape_of rail.now).width }
    requires kept { taken.old.items ≡ Q.taken seat.old }
    ensures seat { Q.TakesFrom rail.now seat.new }
    ensures puts { Q.PutsInto rail.now seat.old → Q.PutsInto rail.now seat.new }
    ensures number { Q.number_of seat.new ≡ Q.number_of seat.old }
    ensures made { Q.made seat.new ≡ Q.made seat.old }
    ensures kept { taken.new.items ≡ Q.taken seat.new }
    ensures calls { OnOk result (IsTake (Q.told seat.new).answer) }
{
    taken.reserve_one()?;
    let _width = rail.shape().width();
    if let Take::Ok(place) = rail.take(seat, out) {
        taken.push(Placed {
            place,
            words: Entry::new(out),
        });
    }
    Ok(())
}

/// Puts each entry once, and keeps those that are accepted.
pub fn put_all<Q: Rail>(
    rail: &Q,
    seat: &mut Q::Seat,
    entries: &[Entry],
    put: &mut Batch,
) -> Result<(), AllocError>
    requires seat { Q.PutsInto rail.now seat.old }
    requires width { All (λ entry. length entry ≡ (Q.shape_of rail.now).width) entries.now }
    requires room { length (Q.made seat.old) + length entries.now ≤ most_puts (Q.shape_of rail.now) }
    requires kept { put.old.items ≡ Q.made seat.old }
    ensures seat { Q.PutsInto rail.now seat.new }
    ensures takes { Q.TakesFrom rail.now seat.old → Q.TakesFrom rail.now seat.new }
    ensures number { Q.number_of seat.new ≡ Q.number_of seat.old }
    ensures taken { Q.taken seat.new ≡ Q.taken seat.old }
    ensures kept { put.new.items ≡ Q.made seat.new }
    ensures calls { OnOk result (0 < length entries.now → IsPut (Q.told seat.new).answer) }
{
    for entry in entries {
        put_kept(rail, seat, entry, put)?;
    }
    Ok(())
}

/// Takes so many times, and keeps what is taken.
pub fn take_all<Q: Rail>(
    rail: &Q,
    seat: &mut Q::Seat,
    times: usize,
    taken: &mut Batch,
) -> Result<(), AllocError>
    requires seat { Q.TakesFrom rail.now seat.old }
    requires kept { taken.old.items ≡ Q.taken seat.old }
    ensures seat { Q.TakesFrom rail.now seat.new }
    ensures puts { Q.PutsInto rail.now seat.old → Q.PutsInto rail.now seat.new }
    ensures number { Q.number_of seat.new ≡ Q.number_of seat.old }
    ensures made { Q.made seat.new ≡ Q.made seat.old }
    ensures kept { taken.new.items ≡ Q.taken seat.new }
    ensures calls { OnOk result (0 < times → IsTake (Q.told seat.new).answer) }
{
    let width = rail.shape().width() as usize;
    let mut words = [0; 8];
    for _ in 0..times {
        take_kept(rail, seat, &mut words[..width], taken)?;
    }
    Ok(())
}

/// Puts each entry once through the one seat of a queue that drops nothing, takes as often, and
/// closes the queue.
pub fn pass_all<Q: Rail>(
    alloc: Global,
    rail: Q,
    seat: Q::Seat,
    entries: &[Entry],
) -> Result<Passed<Q::Done>, AllocError>
    requires keeps { Q.DROPS ≡ false }
    requires puts { Q.PutsInto rail seat }
    requires takes { Q.TakesFrom rail seat }
    requires fresh { (Q.made seat ≡ []) × (Q.taken seat ≡ []) }
    requires one { ((Q.shape_of rail).seats ≡ 1) × (Q.number_of seat ≡ 0) }
    requires width { All (λ entry. length entry ≡ (Q.shape_of rail).width) entries.now }
    requires room { length entries.now ≤ most_puts (Q.shape_of rail) }
    ensures { IfOk result (λ passed. IsPermutation
        (passed.taken.items ++ Q.done_left passed.done) passed.put.items) }
{
    let mut seat = seat;
    let mut put = Batch::new(alloc);
    let mut taken = Batch::new(alloc);
    put_all(&rail, &mut seat, entries, &mut put)?;
    take_all(&rail, &mut seat, entries.len(), &mut taken)?;
    let mut seats = Vec::new(alloc);
    seats.push(seat)?;
    match close_without_loss(rail, alloc, seats) {
        Ok(done) => Ok(Passed { put, taken, done }),
        Err(_) => Err(AllocError),
    }
}
