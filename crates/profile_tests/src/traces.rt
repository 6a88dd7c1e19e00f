//! Traces and their entries that were written by hand.
use flow_io::MemSink;
use span_words::{SpanEvent, SpanKind};
use std::alloc::{AllocError, Global};
use std::test::Fail;
use trace_json::{counter_text, event_text, thread_text, write_trace};

const PIECE: SpanEvent = SpanEvent {
    kind: SpanKind::Piece,
    tid: 1,
    ts: 1,
    dur: 1,
    file: 0,
    piece: 0,
    words: 3,
    depth: 1,
    total: 3,
};

const WORKER: SpanEvent = SpanEvent {
    kind: SpanKind::Worker,
    tid: 1,
    ts: 0,
    dur: 3,
    file: 0,
    piece: 1,
    words: 3,
    depth: 0,
    total: 3,
};

fn strings(alloc: Global, names: &[&str]) -> Result<Vec<String>, AllocError> {
    let mut strings = Vec::new(alloc);
    for name in names {
        strings.push(String::from_str(alloc, name)?)?;
    }
    Ok(strings)
}

#[test]
fn writes_each_entry(rt: HostRuntime) -> Result<(), Fail> {
    let alloc = rt.alloc();
    let files = [String::from_str(alloc, "a\"b.txt")?];
    let piece = event_text(alloc, &PIECE, &files)?;
    assert_eq!(rt;
        piece.bytes(),
        b"{\"args\":{\"depth\":1,\"file\":0,\"piece\":0,\"total\":3,\"words\":3},\"cat\":\"piece\",\"dur\":1,\"name\":\"a\\\"b.txt\",\"ph\":\"X\",\"pid\":1,\"tid\":1,\"ts\":1}".as_slice()
    );
    let worker = event_text(alloc, &WORKER, &files)?;
    assert_eq!(rt;
        worker.bytes(),
        b"{\"args\":{\"depth\":0,\"pieces\":1,\"total\":3,\"words\":3},\"cat\":\"worker\",\"dur\":3,\"name\":\"worker\",\"ph\":\"X\",\"pid\":1,\"tid\":1,\"ts\":0}".as_slice()
    );
    let thread = thread_text(alloc, 255)?;
    assert_eq!(rt;
        thread.bytes(),
        b"{\"args\":{\"name\":\"worker 255\"},\"name\":\"thread_name\",\"ph\":\"M\",\"pid\":1,\"tid\":255}".as_slice()
    );
    let counter = counter_text(alloc, &PIECE)?;
    assert_eq!(rt;
        counter.bytes(),
        b"{\"args\":{\"words\":3},\"name\":\"words 1\",\"ph\":\"C\",\"pid\":1,\"tid\":1,\"ts\":2}".as_slice()
    );
    Ok(())
}

/// A list of spans, how many were accepted, and their trace.
#[derive(Clone, Copy)]
struct Case<'a> {
    events: &'a [SpanEvent],
    names: &'a [&'a str],
    accepted: u64,
    trace: &'a [u8],
}

const CASES: &[Case] = &[
    Case {
        events: &[PIECE, WORKER],
        names: &["ab.txt"],
        accepted: 2,
        trace: b"{\"displayTimeUnit\":\"ms\",\"otherData\":{\"accepted\":2,\"kept\":2},\"traceEvents\":[{\"args\":{\"name\":\"worker 1\"},\"name\":\"thread_name\",\"ph\":\"M\",\"pid\":1,\"tid\":1},{\"args\":{\"depth\":1,\"file\":0,\"piece\":0,\"total\":3,\"words\":3},\"cat\":\"piece\",\"dur\":1,\"name\":\"ab.txt\",\"ph\":\"X\",\"pid\":1,\"tid\":1,\"ts\":1},{\"args\":{\"words\":3},\"name\":\"words 1\",\"ph\":\"C\",\"pid\":1,\"tid\":1,\"ts\":2},{\"args\":{\"depth\":0,\"pieces\":1,\"total\":3,\"words\":3},\"cat\":\"worker\",\"dur\":3,\"name\":\"worker\",\"ph\":\"X\",\"pid\":1,\"tid\":1,\"ts\":0}]}\n",
    },
    // The last two of four spans.
    Case {
        events: &[
            SpanEvent {
                ts: 5,
                piece: 2,
                words: 1,
                ..PIECE
            },
            SpanEvent {
                dur: 7,
                piece: 3,
                ..WORKER
            },
        ],
        names: &["abc.txt"],
        accepted: 4,
        trace: b"{\"displayTimeUnit\":\"ms\",\"otherData\":{\"accepted\":4,\"kept\":2},\"traceEvents\":[{\"args\":{\"name\":\"worker 1\"},\"name\":\"thread_name\",\"ph\":\"M\",\"pid\":1,\"tid\":1},{\"args\":{\"depth\":1,\"file\":0,\"piece\":2,\"total\":3,\"words\":1},\"cat\":\"piece\",\"dur\":1,\"name\":\"abc.txt\",\"ph\":\"X\",\"pid\":1,\"tid\":1,\"ts\":5},{\"args\":{\"words\":3},\"name\":\"words 1\",\"ph\":\"C\",\"pid\":1,\"tid\":1,\"ts\":6},{\"args\":{\"depth\":0,\"pieces\":3,\"total\":3,\"words\":3},\"cat\":\"worker\",\"dur\":7,\"name\":\"worker\",\"ph\":\"X\",\"pid\":1,\"tid\":1,\"ts\":0}]}\n",
    },
    // Two workers, of which the later number comes first, and a span that ends past the last time.
    Case {
        events: &[
            SpanEvent {
                tid: 7,
                file: 1,
                words: 2,
                total: 2,
                ..PIECE
            },
            SpanEvent {
                tid: 2,
                dur: 5,
                piece: 0,
                words: 0,
                total: 0,
                ..WORKER
            },
            SpanEvent {
                tid: 7,
                ts: 18_446_744_073_709_551_615,
                dur: 3,
                piece: 1,
                words: 1,
                ..PIECE
            },
        ],
        names: &["a", "b"],
        accepted: 5,
        trace: b"{\"displayTimeUnit\":\"ms\",\"otherData\":{\"accepted\":5,\"kept\":3},\"traceEvents\":[{\"args\":{\"name\":\"worker 2\"},\"name\":\"thread_name\",\"ph\":\"M\",\"pid\":1,\"tid\":2},{\"args\":{\"name\":\"worker 7\"},\"name\":\"thread_name\",\"ph\":\"M\",\"pid\":1,\"tid\":7},{\"args\":{\"depth\":1,\"file\":1,\"piece\":0,\"total\":2,\"words\":2},\"cat\":\"piece\",\"dur\":1,\"name\":\"b\",\"ph\":\"X\",\"pid\":1,\"tid\":7,\"ts\":1},{\"args\":{\"words\":2},\"name\":\"words 7\",\"ph\":\"C\",\"pid\":1,\"tid\":7,\"ts\":2},{\"args\":{\"depth\":0,\"pieces\":0,\"total\":0,\"words\":0},\"cat\":\"worker\",\"dur\":5,\"name\":\"worker\",\"ph\":\"X\",\"pid\":1,\"tid\":2,\"ts\":0},{\"args\":{\"depth\":1,\"file\":0,\"piece\":1,\"total\":3,\"words\":1},\"cat\":\"piece\",\"dur\":3,\"name\":\"a\",\"ph\":\"X\",\"pid\":1,\"tid\":7,\"ts\":18446744073709551615},{\"args\":{\"words\":3},\"name\":\"words 7\",\"ph\":\"C\",\"pid\":1,\"tid\":7,\"ts\":18446744073709551615}]}\n",
    },
    Case {
        events: &[],
        names: &[],
        accepted: 0,
        trace: b"{\"displayTimeUnit\":\"ms\",\"otherData\":{\"accepted\":0,\"kept\":0},\"traceEvents\":[]}\n",
    },
];

#[test]
fn writes_traces(rt: HostRuntime) -> Result<(), Fail> {
    let alloc = rt.alloc();
    for case in CASES {
        let names = strings(alloc, case.names)?;
        let named = case.events.iter().all(|event| event.kind == SpanKind::Worker
            || event.file < names.len() as u64);
        assert!(rt; named);
        let mut sink = MemSink::new(alloc, 1 << 12, 10, Vec::new(alloc))?;
        write_trace(
            alloc,
            &mut sink,
            case.events,
            names.as_slice(),
            case.accepted,
        )?;
        assert_eq!(rt; sink.bytes(), case.trace);
    }
    Ok(())
}
