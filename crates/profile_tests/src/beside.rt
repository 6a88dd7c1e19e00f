//! Runs whose workers are beside one another, over the queues for many threads.
use crate::command::{AMPLE, COUNTS, Case, DONE, Left, NEWEST, TRACE, is_left, tried_over};
use flow_io::MemClock;
use profile_cli::BbqRails;
use std::alloc::{AllocError, Global};
use std::sync::Wait;
use std::sync::atomic::{AtomicU64, Ordering};
use std::test::Fail;
use std::thread::Threads;
use trace_read::{read_trace, totals};
use word_workers::{Gate, NoGate};

/// A run over the queues for many threads and one file in memory.
fn beside<X: Threads + Wait + Sync, G: Gate>(
    rt: &X,
    alloc: Global,
    name: &str,
    case: &Case<'_>,
    gate: &G,
) -> Result<Left, AllocError> {
    let clock = MemClock { next: 0, step: 1 };
    let held = Vec::from_slice(alloc, case.bytes)?;
    tried_over(
        rt,
        alloc,
        case.words,
        name,
        held,
        &case.world,
        &clock,
        gate,
        &BbqRails,
    )
}

/// Each with the name of its file.
const ROWS: &[(&str, Case)] = &[
    (
        "ab.txt",
        Case {
            words: &["--workers", "1", "ab.txt"],
            bytes: b"a b a\n",
            accepted: Some(2),
            out: COUNTS,
            trace: Some(TRACE),
            ..DONE
        },
    ),
    // With no options there are one piece and four workers.
    (
        "notes.txt",
        Case {
            words: &["notes.txt"],
            bytes: b"to be or not to be\n",
            out: b"words 6 distinct 4\n2 be\n1 not\n1 or\n2 to\n",
            ..DONE
        },
    ),
    (
        "ab.txt",
        Case {
            words: &["--workers", "255", "ab.txt"],
            bytes: b"a b a\n",
            accepted: Some(256),
            out: COUNTS,
            ..DONE
        },
    ),
    (
        "abc.txt",
        Case {
            words: &[
                "--mode",
                "drop",
                "--workers",
                "1",
                "--blocks",
                "2",
                "--size",
                "1",
                "--piece",
                "1",
                "abc.txt",
            ],
            bytes: b"a b c",
            accepted: Some(4),
            out: b"words 3 distinct 3\n1 a\n1 b\n1 c\n",
            trace: Some(NEWEST),
            ..DONE
        },
    ),
];

#[test]
fn counts_beside_one_another(rt: HostRuntime) -> Result<(), Fail> {
    let alloc = rt.alloc();
    for (name, case) in ROWS {
        let left = beside(&rt, alloc, name, case, &NoGate)?;
        is_left(&rt, &left, case);
    }
    Ok(())
}

/// Eight workers over a queue of two entries: six pieces and eight workers' spans.
const CROWDED: Case = Case {
    words: &[
        "--workers",
        "8",
        "--blocks",
        "2",
        "--size",
        "1",
        "--piece",
        "1",
        "ab.txt",
    ],
    bytes: b"a b c d e f",
    accepted: Some(14),
    out: b"words 6 distinct 6\n1 a\n1 b\n1 c\n1 d\n1 e\n1 f\n",
    ..DONE
};

/// The same with a queue that drops its oldest entries.
const CROWDED_DROP: Case = Case {
    words: &[
        "--mode=drop",
        "--workers",
        "8",
        "--blocks",
        "2",
        "--size",
        "1",
        "--piece",
        "1",
        "ab.txt",
    ],
    ..CROWDED
};

#[test]
fn lists_every_span_through_a_queue_of_two(rt: HostRuntime) -> Result<(), Fail> {
    let alloc = rt.alloc();
    for _ in 0..100 {
        let left = beside(&rt, alloc, "ab.txt", &CROWDED, &NoGate)?;
        is_left(&rt, &left, &CROWDED);
        let trace = read_trace(alloc, left.trace.bytes(0).unwrap_or(&[]))?;
        assert_eq!(rt; (trace.accepted, trace.kept), (14, 14));
        assert_eq!(rt; totals(alloc, &trace)?.len(), 8);
    }
    Ok(())
}

#[test]
fn lists_the_last_spans_of_a_queue_of_two_that_drops(rt: HostRuntime) -> Result<(), Fail> {
    let alloc = rt.alloc();
    for _ in 0..100 {
        let left = beside(&rt, alloc, "ab.txt", &CROWDED_DROP, &NoGate)?;
        is_left(&rt, &left, &CROWDED_DROP);
        let trace = read_trace(alloc, left.trace.bytes(0).unwrap_or(&[]))?;
        assert_eq!(rt; trace.accepted, 14);
        assert!(rt; 1 <= trace.kept && trace.kept <= 2);
    }
    Ok(())
}

/// A gate that holds each of two workers until the other has arrived, for so many turns at most.
#[derive(Drop)]
struct Meeting {
    arrived: AtomicU64,
    late: AtomicU64,
}

/// How often a test looks whether another thread has come.
pub(crate) const MOST_TURNS: u64 = 200_000_000;

impl Gate for Meeting {
    fn arrive(&self, _worker: u64) {
        self.arrived.fetch_add(1, Ordering::SeqCst);
        for _ in 0..MOST_TURNS {
            if self.arrived.load(Ordering::SeqCst) >= 2 {
                return;
            }
        }
        self.late.fetch_add(1, Ordering::SeqCst);
    }
}

#[test]
fn two_workers_meet_at_a_gate(rt: HostRuntime) -> Result<(), Fail> {
    let alloc = rt.alloc();
    let gate = Meeting {
        arrived: AtomicU64::new(0),
        late: AtomicU64::new(0),
    };
    let case = Case {
        words: &["--workers", "2", "ab.txt"],
        bytes: b"a b a\n",
        accepted: Some(3),
        out: COUNTS,
        ..DONE
    };
    let left = beside(&rt, alloc, "ab.txt", &case, &gate)?;
    is_left(&rt, &left, &case);
    assert_eq!(rt; gate.arrived.load(Ordering::SeqCst), 2);
    assert_eq!(rt; gate.late.load(Ordering::SeqCst), 0);
    Ok(())
}
