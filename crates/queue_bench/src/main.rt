//! Passes entries of six words through the queues, beside the kit's own queue: a put and a take by
//! one thread, takes alone, one producer and one taker, four producers and one taker, overwriting
//! puts by one thread and by four, and by four while another seat looks. The argument `time` prints
//! what it cost.
#![tactic(auto)]

mod kit;
mod looks;
mod pairs;
mod passes;
mod report;
mod rounds;
mod takes;

use report::{print_costs, print_ratio};
use rounds::{Costs, Work, overwrite_costs, overwrite_pass_costs, pair_costs, pass_costs};
use std::alloc::Global;
use std::sync::Wait;
use std::thread::Threads;
use std::time::Clock;
use std::{env, io};
use takes::take_costs;

/// How much is done in a run that is not timed, and in one that is. Rounds of one thread are short,
/// so that some of them are not broken off by other work.
const FEW: Work = Work {
    blocks: 8,
    pair_rounds: 5,
    pairs: 1000,
    pass_rounds: 2,
    each: 1000,
};

const MANY: Work = Work {
    blocks: 8,
    pair_rounds: 200,
    pairs: 20_000,
    pass_rounds: 40,
    each: 20_000,
};

/// What all rounds cost.
#[derive(Clone, Copy)]
struct Figures {
    pair: Costs,
    take: Costs,
    one: Costs,
    four: Costs,
    alone: Costs,
    beside: Costs,
}

fn measured<R: Clock + Threads + Wait + Sync>(
    rt: &R,
    alloc: Global,
    work: &Work,
) -> Result<Figures, anyhow::Error> {
    Ok(Figures {
        pair: pair_costs(rt, alloc, work)?,
        take: take_costs(rt, alloc, work)?,
        one: pass_costs(rt, alloc, work, 1)?,
        four: pass_costs(rt, alloc, work, 4)?,
        alone: overwrite_costs(rt, alloc, work)?,
        beside: overwrite_pass_costs(rt, alloc, work, 4)?,
    })
}

fn print_figures<R: Print>(rt: &R, work: &Work, figures: &Figures) -> io::Result<()> {
    let of_four = work.each.saturating_mul(4);
    for (what, costs, items) in [
        ("a put and a take", &figures.pair, work.pairs),
        ("a take", &figures.take, work.pairs),
        ("one producer", &figures.one, work.each),
        ("four producers", &figures.four, of_four),
        ("overwriting put", &figures.alone, work.pairs),
        ("four overwriting producers", &figures.beside, of_four),
    ] {
        print_costs(rt, what, costs, items)?;
    }
    let (take, beside) = (&figures.take, &figures.beside);
    print_ratio(rt, "a take, sole to retry", take.sole, take.retry)?;
    let what = "four overwriting producers, beside a looker to alone";
    print_ratio(rt, what, beside.looked, beside.drop)?;
    let seen = beside.seen;
    println!(rt; "the looker saw {seen} entries whole")
}

fn main(rt: HostRuntime) -> Result<(), anyhow::Error> {
    let mut args = env::args(&rt)?;
    let _program = args.next();
    let is_timed = args.next().is_some_and(|word| word.as_str() == "time");
    let mut work = if is_timed { MANY } else { FEW };
    if let Some(blocks) = args.next().and_then(|word| word.as_str().parse().ok()) {
        work.blocks = blocks;
    }
    let figures = measured(&rt, rt.alloc(), &work)?;
    let (pair, one, four) = (figures.pair.kept, figures.one.kept, figures.four.kept);
    println!(rt; "kept {pair} {one} {four}")?;
    let (alone, beside) = (figures.alone.kept, figures.beside.kept);
    println!(rt; "taken {}", figures.take.kept)?;
    println!(rt; "overwritten {alone} {beside}")?;
    if is_timed {
        print_figures(&rt, &work, &figures)?;
    }
    Ok(())
}
