//! What threads may share, and what one may hand to another.
use crate::logged_steps::Anything;
use claim_table::Claim;
use cursor_word::Shape;
use drop_rail::DropRail;
use retry_rail::RetryRail;
use solo_rail::SoloRetry;
use std::test::Fail;
use step_log::Words;

fn asks_for_shared<T: Send + Sync>(_value: &T) {}

fn asks_for_sent<T: Send>(_value: &T) {}

#[test]
fn tables_are_shared_and_seats_are_sent(rt: HostRuntime) -> Result<(), Fail> {
    let alloc = rt.alloc();
    let (words, word_seat) = Words::<Anything>::make(alloc, vec![in alloc; 0u64]?, ())?;
    asks_for_shared(&words);
    asks_for_sent(&word_seat);
    let (claim, claim_seats) = Claim::make(alloc, 1, 1)?;
    asks_for_shared(&claim);
    asks_for_sent(&claim_seats);
    let shape = Shape::new(2, 1, 1, 1)?;
    let (solo, solo_seat) = SoloRetry::make(alloc, shape)?;
    asks_for_shared(&solo);
    asks_for_sent(&solo_seat);
    let (queue, seats) = RetryRail::make(alloc, shape)?;
    asks_for_shared(&queue);
    asks_for_sent(&seats);
    let (queue, seats) = DropRail::make(alloc, shape)?;
    asks_for_shared(&queue);
    asks_for_sent(&seats);
    Ok(())
}
