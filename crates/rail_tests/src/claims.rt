//! Numbers drawn by two seats, in one thread and in two.
ghost use Rattle.std.specs.Prelude.{◌≡◌, true};

use claim_table::{Claim, ClaimSeat};
use std::sync::Wait;
use std::test::Fail;
use std::thread::join;

#[test]
fn two_seats_draw_two_numbers(rt: HostRuntime) -> Result<(), Fail> {
    let (claim, mut seats) = Claim::make(rt.alloc(), 2, 2)?;
    let Some(mut second) = seats.pop() else {
        unreachable!()
    };
    let Some(mut first) = seats.pop() else {
        unreachable!()
    };
    let drawn = [
        claim.claim(&mut first),
        claim.claim(&mut second),
        claim.claim(&mut first),
        claim.claim(&mut first),
        claim.claim(&mut second),
    ];
    assert_eq!(rt; drawn, [Some(0), Some(1), None, None, None]);
    let before = claim.ended(&mut second);
    claim.end(&mut first);
    let after = claim.ended(&mut second);
    claim.end(&mut first);
    assert_eq!(rt; [before, after, claim.ended(&mut second)], [0, 1, 1]);
    Ok(())
}

// Draws until none is left, and answers how many it drew.
fn draw_all<R: Wait>(rt: &R, claim: &Claim, mut seat: ClaimSeat) -> (ClaimSeat, u64)
    requires { seat.of ≡ claim.now }
    ensures { (result.0.of ≡ claim.now) × (result.0.stopped ≡ true) }
{
    let mut count = 0u64;
    for _ in rt.forever() {
        if claim.claim(&mut seat).is_none() {
            claim.end(&mut seat);
            return (seat, count);
        }
        count = count.wrapping_add(1);
    }
    unreachable!()
}

#[test]
fn two_threads_draw_each_number_once(rt: HostRuntime) -> Result<(), Fail> {
    let (claim, mut seats) = Claim::make(rt.alloc(), 20000, 2)?;
    let Some(second) = seats.pop() else {
        unreachable!()
    };
    let Some(first) = seats.pop() else {
        unreachable!()
    };
    let shared = &claim;
    let ((mut first, by_first), (second, by_second)) = join(
        &rt,
        || -> (ClaimSeat, u64)
            requires { first.of ≡ shared.now }
            ensures { (result.0.of ≡ shared.entry.now) × (result.0.stopped ≡ true) }
        { draw_all(&rt, shared, first) },
        || -> (ClaimSeat, u64)
            requires { second.of ≡ shared.now }
            ensures { (result.0.of ≡ shared.entry.now) × (result.0.stopped ≡ true) }
        { draw_all(&rt, shared, second) },
    );
    assert_eq!(rt; by_first.wrapping_add(by_second), 20000);
    assert_eq!(rt; claim.ended(&mut first), 2);
    let seats = vec![in rt.alloc(); first, second]?;
    claim.close(seats);
    Ok(())
}
