//! Which worker reads which hand of the clock.
use crate::command::{AMPLE, tried_by};
use flow_io::{Clock, MemClock, MemHand};
use std::test::Fail;

/// A clock whose hands start a thousand apart.
struct Apart;

impl Clock for Apart {
    ghost use Rattle.std.specs.Prelude.{None};

    type Hand = MemHand;

    ghost ticks = { λ _ worker. None };

    fn hand(&self, worker: u64) -> MemHand {
        MemClock {
            next: worker.min(1000) * 1000,
            step: 1,
        }
        .hand(0)
    }
}

/// The trace of an empty file by two workers.
const APART: &[u8] =
    b"{\"displayTimeUnit\":\"ms\",\"otherData\":{\"accepted\":2,\"kept\":2},\"traceEvents\":[{\"args\":{\"name\":\"worker 1\"},\"name\":\"thread_name\",\"ph\":\"M\",\"pid\":1,\"tid\":1},{\"args\":{\"name\":\"worker 2\"},\"name\":\"thread_name\",\"ph\":\"M\",\"pid\":1,\"tid\":2},{\"args\":{\"depth\":0,\"pieces\":0,\"total\":0,\"words\":0},\"cat\":\"worker\",\"dur\":1,\"name\":\"worker\",\"ph\":\"X\",\"pid\":1,\"tid\":1,\"ts\":0},{\"args\":{\"depth\":0,\"pieces\":0,\"total\":0,\"words\":0},\"cat\":\"worker\",\"dur\":1,\"name\":\"worker\",\"ph\":\"X\",\"pid\":1,\"tid\":2,\"ts\":1000}]}\n";

#[test]
fn each_worker_reads_its_own_hand(rt: HostRuntime) -> Result<(), Fail> {
    let alloc = rt.alloc();
    let words = ["--workers", "2", "ab.txt"];
    let left = tried_by(
        &rt,
        alloc,
        &words,
        "ab.txt",
        Vec::new(alloc),
        &AMPLE,
        &Apart,
    )?;
    assert_eq!(rt; left.trace.bytes(0), Some(APART));
    Ok(())
}
