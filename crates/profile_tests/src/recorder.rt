//! Noting spans in a queue that fills.
ghost use Rattle.std.specs.Prelude.{◌≡◌, ◌≤◌, [], length, OnOk};

use crate::scripted::{Says, Script, Scripted};
use cursor_word::Shape;
use rail::{Batch, Rail, Take};
use solo_rail::SoloRetry;
use span_recorder::{collect_one, note_span};
use span_words::{SPAN_WORDS, SpanEvent, SpanKind, encode};
use std::alloc::{AllocError, Global};
use std::sync::Wait;
use std::test::Fail;

fn span_of(piece: u64) -> SpanEvent
    ensures { result.tid ≡ 1 }
{
    SpanEvent {
        kind: SpanKind::Piece,
        tid: 1,
        ts: piece,
        dur: 1,
        file: 0,
        piece,
        words: 3,
        depth: 1,
        total: 3,
    }
}

// What a queue of one seat has when it is closed.
fn closed<Q: Rail>(alloc: Global, rail: Q, seat: Q::Seat) -> Result<Q::Done, AllocError>
    requires puts { Q.PutsInto rail seat }
    requires one { ((Q.shape_of rail).seats ≡ 1) × (Q.number_of seat ≡ 0) }
{
    let mut seats = Vec::new(alloc);
    seats.push(seat)?;
    rail.close(alloc, seats).map_err(|_| AllocError)
}

// Notes the spans of so many pieces.
fn noted<X: Wait, R: Rail>(
    rt: &X,
    alloc: Global,
    rail: &R,
    seat: &mut R::Seat,
    batch: &mut Batch,
    count: u64,
) -> Result<(), AllocError>
    requires puts { R.PutsInto rail.now seat.old }
    requires takes { R.TakesFrom rail.now seat.old }
    requires width { (R.shape_of rail.now).width ≡ SPAN_WORDS }
    requires fresh { R.made seat.old ≡ [] }
    requires few { count ≤ 100 }
    ensures puts { R.PutsInto rail.now seat.new }
    ensures takes { R.TakesFrom rail.now seat.new }
    ensures number { R.number_of seat.new ≡ R.number_of seat.old }
    ensures made { OnOk result (length (R.made seat.new) ≡ count) }
{
    let _most = rail.shape().most_puts();
    for piece in 0..count {
        note_span(rt, alloc, rail, seat, batch, &span_of(piece))?;
    }
    Ok(())
}

#[test]
fn a_full_queue_is_helped_and_then_noted_in(rt: HostRuntime) -> Result<(), Fail> {
    let alloc = rt.alloc();
    let (rail, mut seat) = SoloRetry::make(alloc, Shape::new(2, 2, 8, 1)?)?;
    let mut batch = Batch::new(alloc);
    noted(&rt, alloc, &rail, &mut seat, &mut batch, 4)?;
    assert_eq!(rt; batch.len(), 0);
    note_span(&rt, alloc, &rail, &mut seat, &mut batch, &span_of(4))?;
    assert_eq!(rt; SoloRetry::puts(&seat), 5);
    assert_eq!(rt; batch.len(), 2);
    assert_eq!(rt;
        collect_one(alloc, &rail, &mut seat, &mut batch)?,
        Take::Ok(2)
    );
    assert_eq!(rt; batch.len(), 3);
    let done = closed(alloc, rail, seat)?;
    let left = SoloRetry::left(&done);
    assert_eq!(rt; left.len(), 2);
    let items = batch.as_slice().iter().chain(left.as_slice());
    for (place, item) in (0..5).zip(items) {
        assert_eq!(rt; item.place, place);
        assert_eq!(rt; item.words.words(), encode(&span_of(place)).as_slice());
    }
    Ok(())
}

#[test]
fn takes_once_where_it_is_full_and_never_where_it_is_busy(rt: HostRuntime) -> Result<(), Fail> {
    let alloc = rt.alloc();
    // what the puts answer, the last first, and how many puts and takes there are
    let cases: [(&[Says], u64, u64); 4] = [
        (&[Says::Ok], 1, 0),
        (&[Says::Ok, Says::Busy, Says::Busy], 3, 0),
        (&[Says::Ok, Says::Full], 2, 1),
        (
            &[Says::Ok, Says::Busy, Says::Full, Says::Busy, Says::Full],
            5,
            2,
        ),
    ];
    for (says, puts, takes) in cases {
        let rail = Scripted {
            shape: Shape::new(2, 2, 8, 1)?,
        };
        let mut seat = Script {
            says: Vec::from_slice(alloc, says)?,
            made: None,
            puts: 0,
            takes: 0,
            last: None,
        };
        let mut batch = Batch::new(alloc);
        note_span(&rt, alloc, &rail, &mut seat, &mut batch, &span_of(0))?;
        assert_eq!(rt; (seat.puts, seat.takes), (puts, takes));
        assert_eq!(rt; batch.len(), 0);
    }
    Ok(())
}
