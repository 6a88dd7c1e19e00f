//! The queue in use, as README.md prints it.
ghost use Rattle.std.specs.Prelude.{◌≡◌, ◌<◌, length};

use cursor_word::Shape;
use rail::{Put, Rail, Take};
use retry_rail::RetryRail;
use std::test::Fail;

#[test]
fn an_entry_goes_from_one_seat_to_another(rt: HostRuntime) -> Result<(), Fail> {
    let shape = Shape::new(8, 64, 2, 2)?; // 8 blocks of 64 entries of 2 words, 2 seats
    let (queue, mut seats) = RetryRail::make(rt.alloc(), shape)?;
    let Some(mut consumer) = seats.pop() else {
        unreachable!()
    };
    let mut words = [0; 2];

    assert_eq!(rt; queue.put(&mut seats[0], &[7, 9]), Put::Ok(0)); // its place
    assert_eq!(rt; queue.take(&mut consumer, &mut words), Take::Ok(0));
    assert_eq!(rt; words, [7, 9]);
    let empty = Take::Empty { place: 1 };
    assert_eq!(rt; queue.take(&mut consumer, &mut words), empty);
    Ok(())
}
