//! What the command answers with ample memory, on worked texts and with a source or a sink that
//! fails.
use flow_io::{Clock, MemClock, MemSink, MemSource, MemStore};
use profile_cli::{Closed, Rails, SoloRails, profile};
use rail::Rail;
use std::alloc::{AllocError, Global};
use std::process::Abort;
use std::sync::Wait;
use std::test::Fail;
use std::thread::Threads;
use word_workers::{Gate, NoGate};

/// What a run of the command left.
#[derive(Drop)]
pub(crate) struct Left {
    pub(crate) status: u8,
    pub(crate) detail: u64,
    pub(crate) accepted: Option<u64>,
    pub(crate) out: MemSink,
    pub(crate) messages: MemSink,
    pub(crate) trace: MemStore,
}

/// What a run of the command may find: the calls that fail of the source, the output, the store and
/// the messages, how many bytes a read gives at most, and a write to the output and to the store
/// takes at most, and the room for the counts and for the documents.
#[derive(Clone, Copy)]
pub(crate) struct World<'a> {
    pub(crate) fails: &'a [u64],
    pub(crate) out_fails: &'a [u64],
    pub(crate) store_fails: &'a [u64],
    pub(crate) message_fails: &'a [u64],
    pub(crate) most: usize,
    pub(crate) out_most: usize,
    pub(crate) store_most: usize,
    pub(crate) room: usize,
    pub(crate) store_room: usize,
}

pub(crate) const AMPLE: World = World {
    fails: &[],
    out_fails: &[],
    store_fails: &[],
    message_fails: &[],
    most: 1 << 24,
    out_most: 7,
    store_most: 7,
    room: 1 << 10,
    store_room: 1 << 16,
};

/// A run of these words, over one file in memory, by a clock that counts from 0 by ones.
pub(crate) fn tried<X: Threads + Wait + Sync>(
    rt: &X,
    alloc: Global,
    words: &[&str],
    name: &str,
    bytes: Vec<u8>,
    world: &World<'_>,
) -> Result<Left, AllocError> {
    let clock = MemClock { next: 0, step: 1 };
    tried_by(rt, alloc, words, name, bytes, world, &clock)
}

/// A run of these words by this clock.
pub(crate) fn tried_by<X: Threads + Wait + Sync, C: Clock>(
    rt: &X,
    alloc: Global,
    words: &[&str],
    name: &str,
    bytes: Vec<u8>,
    world: &World<'_>,
    clock: &C,
) -> Result<Left, AllocError> {
    tried_over(
        rt, alloc, words, name, bytes, world, clock, &NoGate, &SoloRails,
    )
}

/// A run of these words by this clock, with this gate, over queues of these kinds.
pub(crate) fn tried_over<X: Threads + Wait + Sync, C: Clock, G: Gate, R: Rails>(
    rt: &X,
    alloc: Global,
    words: &[&str],
    name: &str,
    bytes: Vec<u8>,
    world: &World<'_>,
    clock: &C,
    gate: &G,
    rails: &R,
) -> Result<Left, AllocError> {
    let mut asked = Vec::new(alloc);
    for word in words {
        asked.push(String::from_str(alloc, word)?)?;
    }
    let mut held = Vec::new(alloc);
    held.push((String::from_str(alloc, name)?, bytes))?;
    let fails = Vec::from_slice(alloc, world.fails)?;
    let mut files = MemSource::new(held, world.most.max(1), fails);
    let fails = Vec::from_slice(alloc, world.out_fails)?;
    let mut out = MemSink::new(alloc, world.room, world.out_most.max(1), fails)?;
    let fails = Vec::from_slice(alloc, world.message_fails)?;
    let mut messages = MemSink::new(alloc, 100, 7, fails)?;
    let fails = Vec::from_slice(alloc, world.store_fails)?;
    let most = world.store_most.max(1);
    let mut trace = MemStore::new(alloc, 2, world.store_room, most, fails)?;
    let report = profile(
        rt,
        alloc,
        asked.as_slice(),
        &mut files,
        &mut out,
        &mut messages,
        &mut trace,
        clock,
        gate,
        rails,
    );
    Ok(Left {
        status: report.status,
        detail: report.detail,
        accepted: match &report.closed {
            Closed::Retry(done) => Some(<R::Retry as Rail>::accepted(done)),
            Closed::DropOld(done) => Some(<R::DropOld as Rail>::accepted(done)),
            Closed::Nothing => None,
        },
        out,
        messages,
        trace,
    })
}

const AB: &[u8] = b"a b a\n";

pub(crate) const COUNTS: &[u8] = b"words 3 distinct 2\n2 a\n1 b\n";

const TWO_WORKERS: &[&str] = &[
    "--trace",
    "t.json",
    "--workers",
    "2",
    "--blocks",
    "2",
    "--size",
    "1",
    "--piece",
    "4",
    "ab.txt",
    "ab.txt",
];

/// The trace of `a b a` and a newline in `ab.txt` by one worker, with a clock that counts from 0 by
/// ones.
pub(crate) const TRACE: &[u8] =
    b"{\"displayTimeUnit\":\"ms\",\"otherData\":{\"accepted\":2,\"kept\":2},\
      \"traceEvents\":[\
      {\"args\":{\"name\":\"worker 1\"},\
        \"name\":\"thread_name\",\"ph\":\"M\",\"pid\":1,\"tid\":1},\
      {\"args\":{\"depth\":1,\"file\":0,\"piece\":0,\"total\":3,\"words\":3},\
        \"cat\":\"piece\",\"dur\":1,\"name\":\"ab.txt\",\"ph\":\"X\",\"pid\":1,\"tid\":1,\"ts\":1},\
      {\"args\":{\"words\":3},\
        \"name\":\"words 1\",\"ph\":\"C\",\"pid\":1,\"tid\":1,\"ts\":2},\
      {\"args\":{\"depth\":0,\"pieces\":1,\"total\":3,\"words\":3},\
        \"cat\":\"worker\",\"dur\":3,\"name\":\"worker\",\"ph\":\"X\",\"pid\":1,\"tid\":1,\"ts\":0}]}\n";

/// The trace of an empty file by two workers.
const IDLE: &[u8] = b"{\"displayTimeUnit\":\"ms\",\"otherData\":{\"accepted\":2,\"kept\":2},\
      \"traceEvents\":[\
      {\"args\":{\"name\":\"worker 1\"},\
        \"name\":\"thread_name\",\"ph\":\"M\",\"pid\":1,\"tid\":1},\
      {\"args\":{\"name\":\"worker 2\"},\
        \"name\":\"thread_name\",\"ph\":\"M\",\"pid\":1,\"tid\":2},\
      {\"args\":{\"depth\":0,\"pieces\":0,\"total\":0,\"words\":0},\
        \"cat\":\"worker\",\"dur\":1,\"name\":\"worker\",\"ph\":\"X\",\"pid\":1,\"tid\":1,\"ts\":0},\
      {\"args\":{\"depth\":0,\"pieces\":0,\"total\":0,\"words\":0},\
        \"cat\":\"worker\",\"dur\":1,\"name\":\"worker\",\"ph\":\"X\",\"pid\":1,\"tid\":2,\"ts\":0}]}\n";

/// The trace of two such files by two workers, in pieces of at least four bytes but for the last of
/// each.
const TWICE: &[u8] = b"{\"displayTimeUnit\":\"ms\",\"otherData\":{\"accepted\":6,\"kept\":6},\
      \"traceEvents\":[\
      {\"args\":{\"name\":\"worker 1\"},\
        \"name\":\"thread_name\",\"ph\":\"M\",\"pid\":1,\"tid\":1},\
      {\"args\":{\"name\":\"worker 2\"},\
        \"name\":\"thread_name\",\"ph\":\"M\",\"pid\":1,\"tid\":2},\
      {\"args\":{\"depth\":1,\"file\":0,\"piece\":0,\"total\":3,\"words\":3},\
        \"cat\":\"piece\",\"dur\":1,\"name\":\"ab.txt\",\"ph\":\"X\",\"pid\":1,\"tid\":1,\"ts\":1},\
      {\"args\":{\"words\":3},\
        \"name\":\"words 1\",\"ph\":\"C\",\"pid\":1,\"tid\":1,\"ts\":2},\
      {\"args\":{\"depth\":1,\"file\":0,\"piece\":1,\"total\":3,\"words\":0},\
        \"cat\":\"piece\",\"dur\":1,\"name\":\"ab.txt\",\"ph\":\"X\",\"pid\":1,\"tid\":1,\"ts\":3},\
      {\"args\":{\"words\":3},\
        \"name\":\"words 1\",\"ph\":\"C\",\"pid\":1,\"tid\":1,\"ts\":4},\
      {\"args\":{\"depth\":1,\"file\":1,\"piece\":2,\"total\":6,\"words\":3},\
        \"cat\":\"piece\",\"dur\":1,\"name\":\"ab.txt\",\"ph\":\"X\",\"pid\":1,\"tid\":1,\"ts\":5},\
      {\"args\":{\"words\":6},\
        \"name\":\"words 1\",\"ph\":\"C\",\"pid\":1,\"tid\":1,\"ts\":6},\
      {\"args\":{\"depth\":1,\"file\":1,\"piece\":3,\"total\":6,\"words\":0},\
        \"cat\":\"piece\",\"dur\":1,\"name\":\"ab.txt\",\"ph\":\"X\",\"pid\":1,\"tid\":1,\"ts\":7},\
      {\"args\":{\"words\":6},\
        \"name\":\"words 1\",\"ph\":\"C\",\"pid\":1,\"tid\":1,\"ts\":8},\
      {\"args\":{\"depth\":0,\"pieces\":4,\"total\":6,\"words\":6},\
        \"cat\":\"worker\",\"dur\":9,\"name\":\"worker\",\"ph\":\"X\",\"pid\":1,\"tid\":1,\"ts\":0},\
      {\"args\":{\"depth\":0,\"pieces\":0,\"total\":0,\"words\":0},\
        \"cat\":\"worker\",\"dur\":1,\"name\":\"worker\",\"ph\":\"X\",\"pid\":1,\"tid\":2,\"ts\":0}]}\n";

/// The trace of five generated words by one worker.
const GENERATED: &[u8] = b"{\"displayTimeUnit\":\"ms\",\"otherData\":{\"accepted\":2,\"kept\":2},\
      \"traceEvents\":[\
      {\"args\":{\"name\":\"worker 1\"},\
        \"name\":\"thread_name\",\"ph\":\"M\",\"pid\":1,\"tid\":1},\
      {\"args\":{\"depth\":1,\"file\":0,\"piece\":0,\"total\":5,\"words\":5},\
        \"cat\":\"piece\",\"dur\":1,\"name\":\"generated\",\"ph\":\"X\",\"pid\":1,\"tid\":1,\"ts\":1},\
      {\"args\":{\"words\":5},\
        \"name\":\"words 1\",\"ph\":\"C\",\"pid\":1,\"tid\":1,\"ts\":2},\
      {\"args\":{\"depth\":0,\"pieces\":1,\"total\":5,\"words\":5},\
        \"cat\":\"worker\",\"dur\":3,\"name\":\"worker\",\"ph\":\"X\",\"pid\":1,\"tid\":1,\"ts\":0}]}\n";

/// The trace of the newest two of four spans, those of `a b c` in `abc.txt` by one worker.
pub(crate) const NEWEST: &[u8] =
    b"{\"displayTimeUnit\":\"ms\",\"otherData\":{\"accepted\":4,\"kept\":2},\
      \"traceEvents\":[\
      {\"args\":{\"name\":\"worker 1\"},\
        \"name\":\"thread_name\",\"ph\":\"M\",\"pid\":1,\"tid\":1},\
      {\"args\":{\"depth\":1,\"file\":0,\"piece\":2,\"total\":3,\"words\":1},\
        \"cat\":\"piece\",\"dur\":1,\"name\":\"abc.txt\",\"ph\":\"X\",\"pid\":1,\"tid\":1,\"ts\":5},\
      {\"args\":{\"words\":3},\
        \"name\":\"words 1\",\"ph\":\"C\",\"pid\":1,\"tid\":1,\"ts\":6},\
      {\"args\":{\"depth\":0,\"pieces\":3,\"total\":3,\"words\":3},\
        \"cat\":\"worker\",\"dur\":7,\"name\":\"worker\",\"ph\":\"X\",\"pid\":1,\"tid\":1,\"ts\":0}]}\n";

/// A run of the command over one file, and what it leaves: the name of the trace, its text where that
/// was worked out, and the second document.
#[derive(Clone, Copy)]
pub(crate) struct Case<'a> {
    pub(crate) words: &'a [&'a str],
    pub(crate) bytes: &'a [u8],
    pub(crate) world: World<'a>,
    pub(crate) status: u8,
    pub(crate) detail: u64,
    pub(crate) accepted: Option<u64>,
    pub(crate) out: &'a [u8],
    pub(crate) name: Option<&'a str>,
    pub(crate) trace: Option<&'a [u8]>,
    pub(crate) folded: Option<(&'a str, &'a [u8])>,
    pub(crate) message: &'a [u8],
}

/// A run that does everything.
pub(crate) const DONE: Case = Case {
    words: &["ab.txt"],
    bytes: AB,
    world: AMPLE,
    status: 0,
    detail: 0,
    accepted: Some(5),
    out: b"",
    name: Some("trace.json"),
    trace: None,
    folded: None,
    message: b"",
};

/// A run that is refused before it begins.
const REFUSED: Case = Case {
    words: &["ab.txt"],
    bytes: AB,
    world: AMPLE,
    status: 4,
    detail: 0,
    accepted: None,
    out: b"",
    name: None,
    trace: None,
    folded: None,
    message: b"",
};

pub(crate) fn is_left(rt: &impl Abort, left: &Left, case: &Case<'_>) {
    let numbers = (left.status, left.detail, left.accepted);
    let texts = (left.out.bytes(), left.messages.bytes());
    assert_eq!(rt;
        numbers,
        (case.status, case.detail, case.accepted),
        "{:?}",
        case.words
    );
    assert_eq!(rt; texts, (case.out, case.message), "{:?}", case.words);
    assert_eq!(rt; left.trace.name(0), case.name, "{:?}", case.words);
    let second = left.trace.name(1).zip(left.trace.bytes(1));
    assert_eq!(rt; second, case.folded, "{:?}", case.words);
    if case.trace.is_some() {
        assert_eq!(rt; left.trace.bytes(0), case.trace, "{:?}", case.words);
    }
}

const CASES: &[Case] = &[
    Case {
        words: &["--workers", "1", "ab.txt"],
        accepted: Some(2),
        out: COUNTS,
        trace: Some(TRACE),
        ..DONE
    },
    Case {
        words: &["--workers", "2", "ab.txt"],
        bytes: b"",
        accepted: Some(2),
        out: b"words 0 distinct 0\n",
        trace: Some(IDLE),
        ..DONE
    },
    Case {
        words: &["--workers", "1", "--fold", "ab.txt"],
        accepted: Some(2),
        out: COUNTS,
        trace: Some(TRACE),
        folded: Some(("trace.json.folded", b"worker 1 2\nworker 1;file 0 1\n")),
        ..DONE
    },
    // A queue of two spans is full before the third.
    Case {
        words: TWO_WORKERS,
        accepted: Some(6),
        out: b"words 6 distinct 2\n4 a\n2 b\n",
        name: Some("t.json"),
        trace: Some(TWICE),
        ..DONE
    },
    Case {
        words: &["--blocks", "2", "--size", "1", "--piece", "1", "ab.txt"],
        bytes: b"to be or not to be\n",
        accepted: Some(11),
        out: b"words 6 distinct 4\n2 be\n1 not\n1 or\n2 to\n",
        ..DONE
    },
    // With no options there are one piece and four workers.
    Case {
        bytes: b"to be or not to be\n",
        out: b"words 6 distinct 4\n2 be\n1 not\n1 or\n2 to\n",
        ..DONE
    },
    Case {
        words: &["--generate", "5", "--workers", "1"],
        accepted: Some(2),
        out: b"words 5 distinct 5\n1 w14\n1 w21\n1 w5\n1 w6\n1 w9\n",
        trace: Some(GENERATED),
        ..DONE
    },
    // The generated text comes first, and then the FILEs.
    Case {
        words: &["ab.txt", "--generate=2", "--workers", "1"],
        accepted: Some(3),
        out: b"words 5 distinct 4\n2 a\n1 b\n1 w2\n1 w3\n",
        ..DONE
    },
    Case {
        words: &["--generate", "2", "ab.txt", "no such.txt"],
        detail: 2,
        message: b"bbq-profile: cannot read no such.txt\n",
        ..REFUSED
    },
    Case {
        bytes: &[97, 255, 0, 98, 10],
        out: b"words 1 distinct 1\n1 a\xff\x00b\n",
        ..DONE
    },
    Case {
        words: &[],
        status: 2,
        detail: 8,
        message: b"bbq-profile: usage: input\n",
        ..REFUSED
    },
    Case {
        words: &["--blocks", "1", "ab.txt"],
        status: 2,
        detail: 4,
        message: b"bbq-profile: usage: blocks\n",
        ..REFUSED
    },
    Case {
        words: &["ab.txt", "no such.txt"],
        detail: 1,
        message: b"bbq-profile: cannot read no such.txt\n",
        ..REFUSED
    },
    // The first call starts the file, and the third is its second read.
    Case {
        world: World {
            fails: &[2],
            most: 3,
            ..AMPLE
        },
        message: b"bbq-profile: cannot read ab.txt\n",
        ..REFUSED
    },
    // Of two FILEs the second read of the first fails, the start of the second, and its second read.
    Case {
        words: &["ab.txt", "ab.txt"],
        world: World {
            fails: &[2],
            most: 3,
            ..AMPLE
        },
        message: b"bbq-profile: cannot read ab.txt\n",
        ..REFUSED
    },
    Case {
        words: &["ab.txt", "ab.txt"],
        world: World {
            fails: &[4],
            most: 3,
            ..AMPLE
        },
        detail: 1,
        message: b"bbq-profile: cannot read ab.txt\n",
        ..REFUSED
    },
    Case {
        words: &["ab.txt", "ab.txt"],
        world: World {
            fails: &[6],
            most: 3,
            ..AMPLE
        },
        detail: 1,
        message: b"bbq-profile: cannot read ab.txt\n",
        ..REFUSED
    },
    Case {
        words: &["--workers", "1", "ab.txt"],
        world: World { room: 5, ..AMPLE },
        status: 5,
        accepted: Some(2),
        out: b"words",
        name: None,
        message: b"bbq-profile: cannot write counts\n",
        ..DONE
    },
    // The name takes 10 bytes of the room.
    Case {
        words: &["--workers", "1", "ab.txt"],
        world: World {
            store_room: 20,
            ..AMPLE
        },
        status: 9,
        accepted: Some(2),
        out: COUNTS,
        trace: Some(b"{\"displayT"),
        message: b"bbq-profile: cannot write trace\n",
        ..DONE
    },
    // The trace is whole, and then there is no room for the name of the folded times, or for more
    // than five bytes of them.
    Case {
        words: &["--workers", "1", "--fold", "ab.txt"],
        world: World {
            store_room: 485,
            ..AMPLE
        },
        status: 9,
        accepted: Some(2),
        out: COUNTS,
        trace: Some(TRACE),
        message: b"bbq-profile: cannot write trace\n",
        ..DONE
    },
    Case {
        words: &["--workers", "1", "--fold", "ab.txt"],
        world: World {
            store_room: 507,
            ..AMPLE
        },
        status: 9,
        accepted: Some(2),
        out: COUNTS,
        trace: Some(TRACE),
        folded: Some(("trace.json.folded", b"worke")),
        message: b"bbq-profile: cannot write trace\n",
        ..DONE
    },
];

#[test]
fn leaves_what_was_worked_out_by_hand(rt: HostRuntime) -> Result<(), Fail> {
    let alloc = rt.alloc();
    for case in CASES {
        let bytes = Vec::from_slice(alloc, case.bytes)?;
        let left = tried(&rt, alloc, case.words, "ab.txt", bytes, &case.world)?;
        is_left(&rt, &left, case);
    }
    Ok(())
}

#[test]
fn lists_the_newest_spans_of_a_queue_that_drops_the_oldest(rt: HostRuntime) -> Result<(), Fail> {
    let alloc = rt.alloc();
    let case = Case {
        words: &[
            "--mode",
            "drop",
            "--workers",
            "1",
            "--blocks",
            "2",
            "--size",
            "1",
            "--piece",
            "1",
            "abc.txt",
            "--fold",
        ],
        accepted: Some(4),
        out: b"words 3 distinct 3\n1 a\n1 b\n1 c\n",
        trace: Some(NEWEST),
        // They are folded, and not all that were accepted.
        folded: Some(("trace.json.folded", b"worker 1 6\nworker 1;file 0 1\n")),
        ..DONE
    };
    let bytes = Vec::from_slice(alloc, b"a b c")?;
    let left = tried(&rt, alloc, case.words, "abc.txt", bytes, &AMPLE)?;
    is_left(&rt, &left, &case);
    Ok(())
}

#[test]
fn refuses_too_large_texts(rt: HostRuntime) -> Result<(), Fail> {
    let alloc = rt.alloc();
    for (len, words, status, message) in [
        (
            67_108_865,
            ["a"].as_slice(),
            6,
            b"bbq-profile: file too large: a\n".as_slice(),
        ),
        (
            67_108_864,
            &["a", "a", "a", "a", "a"],
            7,
            b"bbq-profile: input too large\n",
        ),
    ] {
        let mut held = Vec::new(alloc);
        held.resize(len, b' ')?;
        let left = tried(&rt, alloc, words, "a", held, &AMPLE)?;
        assert_eq!(rt; left.status, status);
        assert_eq!(rt; left.detail, 0);
        assert_eq!(rt; left.messages.bytes(), message);
        assert_eq!(rt; left.accepted, None);
    }
    Ok(())
}

#[test]
fn refuses_one_piece_too_many(rt: HostRuntime) -> Result<(), Fail> {
    let alloc = rt.alloc();
    let mut held = Vec::from_slice(alloc, b"a")?;
    for _ in 0..1_048_576 {
        held.extend_from_slice(b" a")?;
    }
    let left = tried(&rt, alloc, &["--piece", "1", "a"], "a", held, &AMPLE)?;
    assert_eq!(rt; left.status, 8);
    assert_eq!(rt;
        left.messages.bytes(),
        b"bbq-profile: too many pieces\n".as_slice()
    );
    assert_eq!(rt; left.accepted, None);
    Ok(())
}
