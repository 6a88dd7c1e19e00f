//! Rounds of all queues one after the other.
ghost use Rattle.std.specs.Prelude.{◌≡◌, ◌<◌, ◌≤◌, IfOk};

use crate::kit::{kit_overwrite_pass, kit_overwrites, kit_pairs, kit_pass};
use crate::looks::{Looked, put_beside_looker};
use crate::pairs::{pairs, puts};
use crate::passes::{pass, put_by_all};
use anyhow::anyhow;
use crossbeam_queue::ArrayQueue;
use cursor_word::Shape;
use drop_rail::DropRail;
use retry_rail::RetryRail;
use sole_rail::{Consuming, SoleRail};
use solo_rail::{SoloDrop, SoloRetry};
use std::alloc::Global;
use std::sync::Wait;
use std::thread::Threads;
use std::time::{Clock, Instant};

/// How often, and how many entries in a round: puts and takes by one thread, and entries of each
/// producer.
#[derive(Clone, Copy)]
pub struct Work {
    pub blocks: u64,
    pub pair_rounds: u64,
    pub pairs: u64,
    pub pass_rounds: u64,
    pub each: u64,
    ghost few: { (pairs ≤ 1000000) × (each ≤ 1000000) },
}

/// The least nanoseconds of a round of each queue, how many entries came whole in all rounds, and
/// how many a looker saw whole.
#[derive(Clone, Copy)]
pub struct Costs {
    pub kit: u128,
    pub solo: u128,
    pub retry: u128,
    pub sole: u128,
    pub drop: u128,
    pub looked: u128,
    pub kept: u64,
    pub seen: u64,
}

impl Costs {
    pub fn none() -> Costs {
        Costs {
            kit: u128::MAX,
            solo: u128::MAX,
            retry: u128::MAX,
            sole: u128::MAX,
            drop: u128::MAX,
            looked: u128::MAX,
            kept: 0,
            seen: 0,
        }
    }

    pub fn add(&mut self, kept: u64) {
        self.kept = self.kept.wrapping_add(kept);
    }
}

pub fn shape_of(blocks: u64, seats: u64) -> Result<Shape, anyhow::Error>
    ensures { IfOk result (λ shape. (shape.width ≡ 6) × (shape.seats ≡ seats)) }
{
    Shape::new(blocks, 64, 6, seats).map_err(|_| anyhow!("no shape"))
}

/// Puts and takes by one thread.
pub fn pair_costs<R: Clock + Wait>(
    rt: &R,
    alloc: Global,
    work: &Work,
) -> Result<Costs, anyhow::Error> {
    let mut least = Costs::none();
    for _ in 0..work.pair_rounds {
        let (kept, cost) = kit_pair_round(rt, alloc, work)?;
        least.add(kept);
        least.kit = least.kit.min(cost);
        let (kept, cost) = solo_pair_round(rt, alloc, work)?;
        least.add(kept);
        least.solo = least.solo.min(cost);
        let (kept, cost) = retry_pair_round(rt, alloc, work)?;
        least.add(kept);
        least.retry = least.retry.min(cost);
        let (kept, cost) = sole_pair_round(rt, alloc, work)?;
        least.add(kept);
        least.sole = least.sole.min(cost);
    }
    Ok(least)
}

fn kit_pair_round<R: Clock + Wait>(
    rt: &R,
    alloc: Global,
    work: &Work,
) -> Result<(u64, u128), anyhow::Error> {
    let queue = ArrayQueue::new(alloc, 512)?;
    let start = Instant::now(rt)?;
    let kept = kit_pairs(rt, &queue, work.pairs);
    Ok((kept, start.elapsed(rt)?.as_nanos()))
}

fn solo_pair_round<R: Clock>(
    rt: &R,
    alloc: Global,
    work: &Work,
) -> Result<(u64, u128), anyhow::Error> {
    let shape = shape_of(work.blocks, 1)?;
    let _most = shape.most_puts();
    let (rail, mut seat) = SoloRetry::make(alloc, shape)?;
    let start = Instant::now(rt)?;
    let kept = pairs(&rail, &mut seat, work.pairs);
    Ok((kept, start.elapsed(rt)?.as_nanos()))
}

fn retry_pair_round<R: Clock>(
    rt: &R,
    alloc: Global,
    work: &Work,
) -> Result<(u64, u128), anyhow::Error> {
    let shape = shape_of(work.blocks, 1)?;
    let _most = shape.most_puts();
    let (rail, mut seats) = RetryRail::make(alloc, shape)?;
    let Some(mut seat) = seats.pop() else {
        return Ok((0, 0));
    };
    let start = Instant::now(rt)?;
    let kept = pairs(&rail, &mut seat, work.pairs);
    Ok((kept, start.elapsed(rt)?.as_nanos()))
}

fn sole_pair_round<R: Clock>(
    rt: &R,
    alloc: Global,
    work: &Work,
) -> Result<(u64, u128), anyhow::Error> {
    let shape = shape_of(work.blocks, 1)?;
    let _most = shape.most_puts();
    let (rail, mut seats) = SoleRail::make(alloc, shape)?;
    let Some(mut seat) = seats.pop() else {
        return Ok((0, 0));
    };
    if !seat.takes() {
        return Ok((0, 0));
    }
    let start = Instant::now(rt)?;
    let kept = pairs(&rail, &mut seat, work.pairs);
    Ok((kept, start.elapsed(rt)?.as_nanos()))
}

/// Entries from so many producers to one taker.
pub fn pass_costs<R: Clock + Threads + Wait + Sync>(
    rt: &R,
    alloc: Global,
    work: &Work,
    producers: u64,
) -> Result<Costs, anyhow::Error>
    requires { producers ≤ 255 }
{
    let mut least = Costs::none();
    for _ in 0..work.pass_rounds {
        let (kept, cost) = kit_pass_round(rt, alloc, work, producers)?;
        least.add(kept);
        least.kit = least.kit.min(cost);
        let (kept, cost) = retry_pass_round(rt, alloc, work, producers)?;
        least.add(kept);
        least.retry = least.retry.min(cost);
        let (kept, cost) = sole_pass_round(rt, alloc, work, producers)?;
        least.add(kept);
        least.sole = least.sole.min(cost);
    }
    Ok(least)
}

fn kit_pass_round<R: Clock + Threads + Wait + Sync>(
    rt: &R,
    alloc: Global,
    work: &Work,
    producers: u64,
) -> Result<(u64, u128), anyhow::Error>
    requires { producers ≤ 255 }
{
    let queue = ArrayQueue::new(alloc, 512)?;
    let start = Instant::now(rt)?;
    let kept = kit_pass(rt, &queue, producers, work.each);
    Ok((kept, start.elapsed(rt)?.as_nanos()))
}

fn retry_pass_round<R: Clock + Threads + Wait + Sync>(
    rt: &R,
    alloc: Global,
    work: &Work,
    producers: u64,
) -> Result<(u64, u128), anyhow::Error>
    requires { producers ≤ 255 }
{
    let shape = shape_of(work.blocks, producers + 1)?;
    let (rail, mut seats) = RetryRail::make(alloc, shape)?;
    let start = Instant::now(rt)?;
    let kept = pass(rt, &rail, seats.as_mut_slice(), work.each);
    Ok((kept, start.elapsed(rt)?.as_nanos()))
}

fn sole_pass_round<R: Clock + Threads + Wait + Sync>(
    rt: &R,
    alloc: Global,
    work: &Work,
    producers: u64,
) -> Result<(u64, u128), anyhow::Error>
    requires { producers ≤ 255 }
{
    let shape = shape_of(work.blocks, producers + 1)?;
    let (rail, mut seats) = SoleRail::make(alloc, shape)?;
    let start = Instant::now(rt)?;
    let kept = pass(rt, &rail, seats.as_mut_slice(), work.each);
    Ok((kept, start.elapsed(rt)?.as_nanos()))
}

/// Puts by one thread into full queues that overwrite their oldest entries.
pub fn overwrite_costs<R: Clock + Wait>(
    rt: &R,
    alloc: Global,
    work: &Work,
) -> Result<Costs, anyhow::Error> {
    let mut least = Costs::none();
    for _ in 0..work.pair_rounds {
        let (kept, cost) = kit_overwrite_round(rt, alloc, work)?;
        least.add(kept);
        least.kit = least.kit.min(cost);
        let (kept, cost) = solo_overwrite_round(rt, alloc, work)?;
        least.add(kept);
        least.solo = least.solo.min(cost);
        let (kept, cost) = drop_overwrite_round(rt, alloc, work)?;
        least.add(kept);
        least.drop = least.drop.min(cost);
    }
    Ok(least)
}

fn kit_overwrite_round<R: Clock + Wait>(
    rt: &R,
    alloc: Global,
    work: &Work,
) -> Result<(u64, u128), anyhow::Error> {
    let queue = ArrayQueue::new(alloc, 512)?;
    let start = Instant::now(rt)?;
    let kept = kit_overwrites(rt, &queue, work.pairs);
    Ok((kept, start.elapsed(rt)?.as_nanos()))
}

fn solo_overwrite_round<R: Clock>(
    rt: &R,
    alloc: Global,
    work: &Work,
) -> Result<(u64, u128), anyhow::Error> {
    let shape = shape_of(work.blocks, 1)?;
    let _most = shape.most_puts();
    let (rail, mut seat) = SoloDrop::make(alloc, shape)?;
    let start = Instant::now(rt)?;
    let kept = puts(&rail, &mut seat, work.pairs);
    Ok((kept, start.elapsed(rt)?.as_nanos()))
}

fn drop_overwrite_round<R: Clock>(
    rt: &R,
    alloc: Global,
    work: &Work,
) -> Result<(u64, u128), anyhow::Error> {
    let shape = shape_of(work.blocks, 1)?;
    let _most = shape.most_puts();
    let (rail, mut seats) = DropRail::make(alloc, shape)?;
    let Some(mut seat) = seats.pop() else {
        return Ok((0, 0));
    };
    let start = Instant::now(rt)?;
    let kept = puts(&rail, &mut seat, work.pairs);
    Ok((kept, start.elapsed(rt)?.as_nanos()))
}

/// Puts by so many producers into full queues that overwrite their oldest entries.
pub fn overwrite_pass_costs<R: Clock + Threads + Wait + Sync>(
    rt: &R,
    alloc: Global,
    work: &Work,
    producers: u64,
) -> Result<Costs, anyhow::Error>
    requires { (0 < producers) × (producers ≤ 255) }
{
    let mut least = Costs::none();
    for _ in 0..work.pass_rounds {
        let (kept, cost) = kit_overwrite_pass_round(rt, alloc, work, producers)?;
        least.add(kept);
        least.kit = least.kit.min(cost);
        let (kept, cost) = drop_overwrite_pass_round(rt, alloc, work, producers)?;
        least.add(kept);
        least.drop = least.drop.min(cost);
        let (looked, cost) = looked_overwrite_pass_round(rt, alloc, work, producers)?;
        least.add(looked.accepted);
        least.seen = least.seen.wrapping_add(looked.seen);
        least.looked = least.looked.min(cost);
    }
    Ok(least)
}

fn kit_overwrite_pass_round<R: Clock + Threads + Wait + Sync>(
    rt: &R,
    alloc: Global,
    work: &Work,
    producers: u64,
) -> Result<(u64, u128), anyhow::Error>
    requires { (0 < producers) × (producers ≤ 255) }
{
    let queue = ArrayQueue::new(alloc, 512)?;
    let start = Instant::now(rt)?;
    let kept = kit_overwrite_pass(rt, &queue, producers, work.each);
    Ok((kept, start.elapsed(rt)?.as_nanos()))
}

fn drop_overwrite_pass_round<R: Clock + Threads + Wait + Sync>(
    rt: &R,
    alloc: Global,
    work: &Work,
    producers: u64,
) -> Result<(u64, u128), anyhow::Error> {
    let shape = shape_of(work.blocks, producers)?;
    let (rail, mut seats) = DropRail::make(alloc, shape)?;
    let start = Instant::now(rt)?;
    let kept = put_by_all(rt, &rail, seats.as_mut_slice(), work.each);
    Ok((kept, start.elapsed(rt)?.as_nanos()))
}

fn looked_overwrite_pass_round<R: Clock + Threads + Wait + Sync>(
    rt: &R,
    alloc: Global,
    work: &Work,
    producers: u64,
) -> Result<(Looked, u128), anyhow::Error>
    requires { producers ≤ 255 }
{
    let shape = shape_of(work.blocks, producers + 1)?;
    let (rail, mut seats) = DropRail::make(alloc, shape)?;
    let start = Instant::now(rt)?;
    let looked = put_beside_looker(rt, &rail, seats.as_mut_slice(), work.each);
    Ok((looked, start.elapsed(rt)?.as_nanos()))
}
