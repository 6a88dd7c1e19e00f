//! Each call to the outside fails in turn, until none of those that a run makes is left.
use crate::command::{AMPLE, Left, World, tried};
use std::alloc::{AllocError, Global};
use std::process::Abort;
use std::sync::Wait;
use std::test::Fail;
use std::thread::Threads;

/// Words, of how many FILEs they are, and how many bytes a write to the store takes at most.
type Line<'a> = (&'a [&'a str], usize, usize);

const LINES: &[Line] = &[
    (&["--workers", "1", "ab.txt"], 1, 7),
    (&["--mode=drop", "--workers=1", "ab.txt"], 1, 7),
    (
        &[
            "--workers=2",
            "--blocks=2",
            "--size=1",
            "--piece=4",
            "ab.txt",
            "ab.txt",
        ],
        2,
        100,
    ),
    (
        &[
            "--mode=drop",
            "--blocks=2",
            "--size=1",
            "--piece=4",
            "ab.txt",
            "ab.txt",
        ],
        2,
        100,
    ),
    (&["--workers", "1", "--fold", "ab.txt"], 1, 20),
    (&["--mode=drop", "--fold", "ab.txt", "ab.txt"], 2, 100),
];

const NO_COUNTS: &[u8] = b"bbq-profile: cannot write counts\n";

const NO_TRACE: &[u8] = b"bbq-profile: cannot write trace\n";

/// Two bytes a read, and ten of the counts a write.
const SLOW: World = World {
    most: 2,
    out_most: 10,
    ..AMPLE
};

/// A text of six bytes takes a start, three reads with bytes and one without.
const CALLS_OF_A_FILE: usize = 5;

/// A run of these words, each over `ab.txt` with `a b a` and a newline.
fn run<X: Threads + Wait + Sync>(
    rt: &X,
    alloc: Global,
    words: &[&str],
    world: &World<'_>,
) -> Result<Left, AllocError> {
    let bytes = Vec::from_slice(alloc, b"a b a\n")?;
    tried(rt, alloc, words, "ab.txt", bytes, world)
}

/// A document is a shorter part of that of the same name in the whole run, or isn't there.
fn is_cut_short(rt: &impl Abort, left: &Left, whole: &Left, index: usize) {
    let Some(part) = left.trace.bytes(index) else {
        return;
    };
    let text = whole.trace.bytes(index).unwrap_or(&[]);
    assert_eq!(rt; left.trace.name(index), whole.trace.name(index));
    assert!(rt; text.starts_with(part) && part.len() < text.len());
}

#[test]
fn a_call_of_the_source_fails(rt: HostRuntime) -> Result<(), Fail> {
    let alloc = rt.alloc();
    for (words, files, _) in LINES {
        let calls = files.saturating_mul(CALLS_OF_A_FILE);
        for call in 0..calls {
            let fails = [call as u64];
            let world = World {
                fails: &fails,
                ..SLOW
            };
            let left = run(&rt, alloc, words, &world)?;
            let text = call / CALLS_OF_A_FILE;
            assert_eq!(rt; (left.status, left.detail), (4, text as u64), "{words:?}");
            assert_eq!(rt;
                left.messages.bytes(),
                b"bbq-profile: cannot read ab.txt\n".as_slice()
            );
            assert!(rt; left.out.bytes().is_empty());
            assert_eq!(rt; (left.trace.documents(), left.accepted), (0, None));
        }
        let fails = [calls as u64];
        let world = World {
            fails: &fails,
            ..SLOW
        };
        assert_eq!(rt; run(&rt, alloc, words, &world)?.status, 0, "{words:?}");
    }
    Ok(())
}

#[test]
fn a_write_of_the_counts_fails(rt: HostRuntime) -> Result<(), Fail> {
    let alloc = rt.alloc();
    for (words, _, _) in LINES {
        let whole = run(&rt, alloc, words, &SLOW)?;
        let counts = whole.out.bytes();
        for call in 0..counts.len().div_ceil(10) {
            let fails = [call as u64];
            let world = World {
                out_fails: &fails,
                ..SLOW
            };
            let left = run(&rt, alloc, words, &world)?;
            assert_eq!(rt; (left.status, left.detail), (5, 0), "{words:?}");
            assert_eq!(rt; left.messages.bytes(), NO_COUNTS);
            assert_eq!(rt; left.out.bytes().len(), call.saturating_mul(10));
            assert!(rt; counts.starts_with(left.out.bytes()));
            assert_eq!(rt;
                (left.trace.documents(), left.accepted),
                (0, whole.accepted)
            );
        }
        let fails = [counts.len().div_ceil(10) as u64];
        let world = World {
            out_fails: &fails,
            ..SLOW
        };
        assert_eq!(rt; run(&rt, alloc, words, &world)?.status, 0, "{words:?}");
    }
    Ok(())
}

/// How many calls of the store the documents of a whole run take, by so many bytes a write.
fn calls_of(left: &Left, most: usize) -> usize {
    let mut calls = 0usize;
    for index in 0..left.trace.documents() {
        let bytes = left.trace.bytes(index).unwrap_or(&[]);
        calls = calls
            .saturating_add(1)
            .saturating_add(bytes.len().div_ceil(most.max(1)));
    }
    calls
}

#[test]
fn a_call_of_the_store_fails(rt: HostRuntime) -> Result<(), Fail> {
    let alloc = rt.alloc();
    for (words, _, most) in LINES {
        let slow = World {
            store_most: *most,
            ..SLOW
        };
        let whole = run(&rt, alloc, words, &slow)?;
        let calls = calls_of(&whole, *most);
        for call in 0..calls {
            let fails = [call as u64];
            let world = World {
                store_fails: &fails,
                ..slow
            };
            let left = run(&rt, alloc, words, &world)?;
            assert_eq!(rt; (left.status, left.detail), (9, 0), "{words:?}");
            assert_eq!(rt; left.messages.bytes(), NO_TRACE);
            assert_eq!(rt; left.out.bytes(), whole.out.bytes());
            assert_eq!(rt; left.accepted, whole.accepted);
            assert!(rt; (call == 0) == (left.trace.documents() == 0));
            is_stored_in_order(&rt, &left, &whole);
        }
        let fails = [calls as u64];
        let world = World {
            store_fails: &fails,
            ..slow
        };
        assert_eq!(rt; run(&rt, alloc, words, &world)?.status, 0, "{words:?}");
    }
    Ok(())
}

/// The folded times are there only where the trace is whole, and what came last is cut short.
fn is_stored_in_order(rt: &impl Abort, left: &Left, whole: &Left) {
    if left.trace.bytes(0) == whole.trace.bytes(0) {
        assert!(rt; whole.trace.documents() == 2);
        is_cut_short(rt, left, whole, 1);
    } else {
        assert!(rt; left.trace.documents() < 2);
        is_cut_short(rt, left, whole, 0);
    }
}

/// Runs that end with a message: the words, what they find, the status and the detail.
const SAID: &[(&[&str], World, u8, u64)] = &[
    (&[], SLOW, 2, 8),
    (&["--size", "0", "ab.txt"], SLOW, 2, 5),
    (&["ab.txt", "no such.txt"], SLOW, 4, 1),
    (
        &["ab.txt"],
        World {
            fails: &[1],
            ..SLOW
        },
        4,
        0,
    ),
    (
        &["ab.txt"],
        World {
            out_fails: &[1],
            ..SLOW
        },
        5,
        0,
    ),
    (
        &["--mode=drop", "ab.txt"],
        World {
            store_fails: &[2],
            ..SLOW
        },
        9,
        0,
    ),
];

#[test]
fn a_failed_message_changes_no_status(rt: HostRuntime) -> Result<(), Fail> {
    let alloc = rt.alloc();
    for (words, world, status, detail) in SAID {
        let said = run(&rt, alloc, words, world)?;
        assert_eq!(rt; (said.status, said.detail), (*status, *detail), "{words:?}");
        for call in 0..10u64 {
            let fails = [call];
            let world = World {
                message_fails: &fails,
                ..*world
            };
            let left = run(&rt, alloc, words, &world)?;
            assert_eq!(rt; (left.status, left.detail), (*status, *detail), "{words:?}");
            assert!(rt; said.messages.bytes().starts_with(left.messages.bytes()));
        }
    }
    Ok(())
}
