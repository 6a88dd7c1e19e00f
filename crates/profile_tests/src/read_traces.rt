//! Traces that were written by hand, read and checked.
ghost use Rattle.std.specs.Prelude.{ℕ, None};

use flow_io::{Got, MOST_INPUT, MemSink, MemSource, Source};
use span_words::{SpanEvent, SpanKind};
use std::alloc::{AllocError, Global};
use std::test::Fail;
use trace_read::{CheckError, ReadError, read_trace, totals, trace_top};

/// The trace of `a b a` in `ab.txt` by one worker.
const TRACE: &[u8] =
    b"{\"displayTimeUnit\":\"ms\",\"otherData\":{\"accepted\":2,\"kept\":2},\"traceEvents\":[{\"args\":{\"name\":\"worker 1\"},\"name\":\"thread_name\",\"ph\":\"M\",\"pid\":1,\"tid\":1},{\"args\":{\"depth\":1,\"file\":0,\"piece\":0,\"total\":3,\"words\":3},\"cat\":\"piece\",\"dur\":1,\"name\":\"ab.txt\",\"ph\":\"X\",\"pid\":1,\"tid\":1,\"ts\":1},{\"args\":{\"words\":3},\"name\":\"words 1\",\"ph\":\"C\",\"pid\":1,\"tid\":1,\"ts\":2},{\"args\":{\"depth\":0,\"pieces\":1,\"total\":3,\"words\":3},\"cat\":\"worker\",\"dur\":3,\"name\":\"worker\",\"ph\":\"X\",\"pid\":1,\"tid\":1,\"ts\":0}]}\n";

/// The same, as it was written before spans had a depth and a total.
const SHORT: &[u8] =
    b"{\"displayTimeUnit\":\"ms\",\"otherData\":{\"accepted\":2,\"kept\":2},\"traceEvents\":[{\"args\":{\"file\":0,\"piece\":0,\"words\":3},\"cat\":\"piece\",\"dur\":1,\"name\":\"ab.txt\",\"ph\":\"X\",\"pid\":1,\"tid\":1,\"ts\":1},{\"args\":{\"pieces\":1,\"words\":3},\"cat\":\"worker\",\"dur\":3,\"name\":\"worker\",\"ph\":\"X\",\"pid\":1,\"tid\":1,\"ts\":0}]}\n";

/// The last two of the four spans of a worker.
const LAST: &[u8] =
    b"{\"displayTimeUnit\":\"ms\",\"otherData\":{\"accepted\":4,\"kept\":2},\"traceEvents\":[{\"args\":{\"name\":\"worker 1\"},\"name\":\"thread_name\",\"ph\":\"M\",\"pid\":1,\"tid\":1},{\"args\":{\"depth\":1,\"file\":0,\"piece\":2,\"total\":3,\"words\":1},\"cat\":\"piece\",\"dur\":1,\"name\":\"abc.txt\",\"ph\":\"X\",\"pid\":1,\"tid\":1,\"ts\":5},{\"args\":{\"words\":3},\"name\":\"words 1\",\"ph\":\"C\",\"pid\":1,\"tid\":1,\"ts\":6},{\"args\":{\"depth\":0,\"pieces\":3,\"total\":3,\"words\":3},\"cat\":\"worker\",\"dur\":7,\"name\":\"worker\",\"ph\":\"X\",\"pid\":1,\"tid\":1,\"ts\":0}]}\n";

/// A file's text, and how the command ends that reads it: its status and detail, its lines and its message.
#[derive(Clone, Copy)]
struct Case<'a> {
    text: &'a [u8],
    status: u8,
    detail: u64,
    out: &'a [u8],
    message: &'a [u8],
}

/// A text that is no trace.
const NOT_A_TRACE: Case = Case {
    text: b"",
    status: 10,
    detail: 1,
    out: b"",
    message: b"bbq-trace: not a trace\n",
};

/// A trace whose totals differ.
const DIFFER: Case = Case {
    text: LAST,
    status: 11,
    detail: 2,
    out: b"",
    message: b"bbq-trace: totals differ\n",
};

/// A trace whose totals agree.
const AGREE: Case = Case {
    text: TRACE,
    status: 0,
    detail: 0,
    out: b"tid 1 pieces 1 words 3 dur 3\n",
    message: b"",
};

const CASES: &[Case] = &[
    AGREE,
    Case {
        text: SHORT,
        ..AGREE
    },
    // Two workers, of which the later number comes first, and a member that nobody reads.
    Case {
        text: b" {\"otherData\":{\"kept\":2,\"accepted\":9},\"traceEvents\":[{\"ph\":\"X\",\"cat\":\"worker\",\"tid\":255,\"ts\":0,\"dur\":18446744073709551615,\"args\":{\"pieces\":0,\"words\":0}},{\"ph\":\"X\",\"cat\":\"idle\"},{\"ph\":\"X\",\"cat\":\"worker\",\"tid\":2,\"ts\":0,\"dur\":5,\"args\":{\"pieces\":0,\"words\":0,\"file\":-1}}]} ",
        out: b"tid 2 pieces 0 words 0 dur 5\ntid 255 pieces 0 words 0 dur 18446744073709551615\n",
        ..AGREE
    },
    Case {
        text: b"{\"otherData\":{\"accepted\":0,\"kept\":0},\"traceEvents\":[]}",
        out: b"",
        ..AGREE
    },
    // Of members with one name the last counts.
    Case {
        text: b"{\"otherData\":{\"accepted\":0,\"kept\":7,\"kept\":0},\"traceEvents\":3,\"traceEvents\":[]}",
        out: b"",
        ..AGREE
    },
    NOT_A_TRACE,
    Case {
        text: b"{",
        ..NOT_A_TRACE
    },
    // A byte order mark, a byte that is no text, half of a surrogate pair, and something behind the value.
    Case {
        text: b"\xEF\xBB\xBF{}",
        ..NOT_A_TRACE
    },
    Case {
        text: b"{\"traceEvents\":\"\xFF\"}",
        ..NOT_A_TRACE
    },
    Case {
        text: b"{\"traceEvents\":\"\\ud800\"}",
        ..NOT_A_TRACE
    },
    Case {
        text: b"{}{}",
        ..NOT_A_TRACE
    },
    Case {
        text: b"[]",
        detail: 2,
        ..NOT_A_TRACE
    },
    Case {
        text: b"{}",
        detail: 3,
        ..NOT_A_TRACE
    },
    Case {
        text: b"{\"traceEvents\":{}}",
        detail: 3,
        ..NOT_A_TRACE
    },
    Case {
        text: b"{\"traceEvents\":[3]}",
        detail: 4,
        ..NOT_A_TRACE
    },
    Case {
        text: b"{\"otherData\":{\"accepted\":1,\"kept\":-1},\"traceEvents\":[3]}",
        detail: 4,
        ..NOT_A_TRACE
    },
    Case {
        text: b"{\"otherData\":{\"accepted\":1.0,\"kept\":0},\"traceEvents\":[]}",
        detail: 4,
        ..NOT_A_TRACE
    },
    Case {
        text: b"{\"otherData\":{\"accepted\":18446744073709551616,\"kept\":0},\"traceEvents\":[]}",
        detail: 4,
        ..NOT_A_TRACE
    },
    Case {
        text: b"{\"otherData\":{\"accepted\":1,\"kept\":0},\"traceEvents\":[3]}",
        detail: 5,
        ..NOT_A_TRACE
    },
    Case {
        text: b"{\"otherData\":{\"accepted\":1,\"kept\":0},\"traceEvents\":[{\"ph\":\"X\",\"cat\":\"piece\"}]}",
        detail: 6,
        ..NOT_A_TRACE
    },
    Case {
        text: b"{\"otherData\":{\"accepted\":1,\"kept\":3},\"traceEvents\":[]}",
        detail: 7,
        ..NOT_A_TRACE
    },
    DIFFER,
    // A worker without a span of its own, one with two, and one with other words than its pieces.
    Case {
        text: b"{\"otherData\":{\"accepted\":1,\"kept\":1},\"traceEvents\":[{\"ph\":\"X\",\"cat\":\"piece\",\"tid\":1,\"ts\":0,\"dur\":0,\"args\":{\"file\":0,\"piece\":0,\"words\":0}}]}",
        detail: 1,
        ..DIFFER
    },
    Case {
        text: b"{\"otherData\":{\"accepted\":1,\"kept\":2},\"traceEvents\":[{\"ph\":\"X\",\"cat\":\"worker\",\"tid\":1,\"ts\":0,\"dur\":0,\"args\":{\"pieces\":0,\"words\":0}},{\"ph\":\"X\",\"cat\":\"worker\",\"tid\":1,\"ts\":0,\"dur\":0,\"args\":{\"pieces\":0,\"words\":0}}]}",
        detail: 1,
        ..DIFFER
    },
    Case {
        text: b"{\"otherData\":{\"accepted\":1,\"kept\":1},\"traceEvents\":[{\"ph\":\"X\",\"cat\":\"worker\",\"tid\":1,\"ts\":0,\"dur\":0,\"args\":{\"pieces\":0,\"words\":1}}]}",
        detail: 3,
        ..DIFFER
    },
];

/// What a run of the command left.
#[derive(Drop)]
struct Left {
    status: u8,
    detail: u64,
    out: MemSink,
    messages: MemSink,
}

/// A run of these words, over any source, with room for so many bytes.
fn tried<F: Source>(
    alloc: Global,
    words: &[&str],
    files: &mut F,
    room: usize,
) -> Result<Left, AllocError> {
    let mut asked = Vec::new(alloc);
    for word in words {
        asked.push(String::from_str(alloc, word)?)?;
    }
    let mut out = MemSink::new(alloc, room, 7, Vec::new(alloc))?;
    let mut messages = MemSink::new(alloc, 100, 7, Vec::new(alloc))?;
    let checked = trace_top(alloc, asked.as_slice(), files, &mut out, &mut messages);
    Ok(Left {
        status: checked.status,
        detail: checked.detail,
        out,
        messages,
    })
}

/// A source of one file, `trace.json`, whose calls of these numbers fail.
fn source_of(alloc: Global, text: &[u8], fails: &[u64]) -> Result<MemSource, AllocError> {
    let mut held = Vec::new(alloc);
    let name = String::from_str(alloc, "trace.json")?;
    held.push((name, Vec::from_slice(alloc, text)?))?;
    Ok(MemSource::new(held, 50, Vec::from_slice(alloc, fails)?))
}

#[test]
fn checks_each_text(rt: HostRuntime) -> Result<(), Fail> {
    let alloc = rt.alloc();
    for case in CASES {
        let mut files = source_of(alloc, case.text, &[])?;
        let left = tried(alloc, &["trace.json"], &mut files, 100)?;
        let numbers = (left.status, left.detail);
        let texts = (left.out.bytes(), left.messages.bytes());
        assert_eq!(rt; numbers, (case.status, case.detail), "{:?}", case.text);
        assert_eq!(rt; texts, (case.out, case.message), "{:?}", case.text);
    }
    Ok(())
}

#[test]
fn ends_without_a_trace(rt: HostRuntime) -> Result<(), Fail> {
    let alloc = rt.alloc();
    let usage = b"bbq-trace: usage\n".as_slice();
    let unread = b"bbq-trace: cannot read\n".as_slice();
    let unwritten = b"bbq-trace: cannot write\n".as_slice();
    for (words, fails, room, status, out, message) in [
        ([].as_slice(), [].as_slice(), 100, 2, b"".as_slice(), usage),
        (&["-"], &[], 100, 2, b"", usage),
        (&["--help"], &[], 100, 2, b"", usage),
        (&["trace.json", "trace.json"], &[], 100, 2, b"", usage),
        (&[""], &[], 100, 4, b"", unread),
        (&["trace"], &[], 100, 4, b"", unread),
        // The call 0 starts the file, and the others read it.
        (&["trace.json"], &[0], 100, 4, b"", unread),
        (&["trace.json"], &[1], 100, 4, b"", unread),
        (&["trace.json"], &[9], 100, 4, b"", unread),
        (&["trace.json"], &[], 0, 5, b"", unwritten),
        (
            &["trace.json"],
            &[],
            28,
            5,
            b"tid 1 pieces 1 words 3 dur 3",
            unwritten,
        ),
    ] {
        let mut files = source_of(alloc, TRACE, fails)?;
        let left = tried(alloc, words, &mut files, room)?;
        assert_eq!(rt; (left.status, left.detail), (status, 0), "{:?}", words);
        assert_eq!(rt;
            (left.out.bytes(), left.messages.bytes()),
            (out, message),
            "{:?}",
            words
        );
    }
    Ok(())
}

/// A file of so many zeros.
#[derive(Drop)]
struct Zeros {
    left: usize,
}

impl Source for Zeros {
    ghost faults = { λ _. 0 };

    ghost files = { λ _. None };

    ghost left = { λ _. None };

    fn start(&mut self, _name: &str) -> bool {
        true
    }

    fn read(&mut self, buf: &mut [u8]) -> Got {
        let count = self.left.min(buf.len());
        if count == 0 {
            return Got::End;
        }
        self.left -= count;
        Got::Got(count)
    }
}

#[test]
fn refuses_a_byte_too_many(rt: HostRuntime) -> Result<(), Fail> {
    let alloc = rt.alloc();
    for (len, status, message) in [
        (MOST_INPUT, 10, b"bbq-trace: not a trace\n".as_slice()),
        (MOST_INPUT + 1, 6, b"bbq-trace: file too large\n"),
    ] {
        let left = tried(alloc, &["trace.json"], &mut Zeros { left: len }, 100)?;
        assert_eq!(rt; left.status, status);
        assert_eq!(rt; left.messages.bytes(), message);
    }
    Ok(())
}

/// Texts that are no trace, each with its first fault, at the first event and at a later one.
const FIRST_FAULTS: &[(&[u8], ReadError)] = &[
    (
        b"{\"otherData\":{\"accepted\":1,\"kept\":0},\"traceEvents\":[{\"ph\":3}]}",
        ReadError::Event(0),
    ),
    (
        b"{\"otherData\":{\"accepted\":1,\"kept\":0},\"traceEvents\":[{\"ph\":\"M\"},{},3]}",
        ReadError::Event(1),
    ),
    (
        b"{\"otherData\":{\"accepted\":1,\"kept\":0},\"traceEvents\":[{\"ph\":\"X\",\"cat\":\"piece\",\"tid\":0,\"ts\":0,\"dur\":0,\"args\":{\"file\":0,\"piece\":0,\"words\":0}}]}",
        ReadError::Span(0),
    ),
    (
        b"{\"otherData\":{\"accepted\":1,\"kept\":0},\"traceEvents\":[{\"ph\":\"C\"},{\"ph\":\"X\",\"cat\":\"worker\",\"tid\":256,\"ts\":0,\"dur\":0,\"args\":{\"pieces\":0,\"words\":0}},3]}",
        ReadError::Span(1),
    ),
    (
        b"{\"otherData\":{\"accepted\":1,\"kept\":0},\"traceEvents\":[{\"ph\":\"X\",\"cat\":\"worker\",\"tid\":1,\"ts\":0,\"dur\":0,\"args\":{\"pieces\":0,\"words\":0,\"depth\":null}}]}",
        ReadError::Span(0),
    ),
    (
        b"{\"otherData\":{\"accepted\":1,\"kept\":0},\"traceEvents\":[{\"ph\":\"X\",\"cat\":\"worker\",\"tid\":1,\"ts\":0,\"dur\":0,\"args\":{\"pieces\":0,\"words\":0}}]}",
        ReadError::Kept { said: 0, found: 1 },
    ),
];

#[test]
fn names_the_first_fault(rt: HostRuntime) -> Result<(), Fail> {
    let alloc = rt.alloc();
    for (text, fault) in FIRST_FAULTS {
        let found = read_trace(alloc, text).err();
        assert_eq!(rt; found, Some(*fault), "{:?}", text);
    }
    Ok(())
}

#[test]
fn reads_each_span(rt: HostRuntime) -> Result<(), Fail> {
    let alloc = rt.alloc();
    let piece = SpanEvent {
        kind: SpanKind::Piece,
        tid: 1,
        ts: 1,
        dur: 1,
        file: 0,
        piece: 0,
        words: 3,
        depth: 1,
        total: 3,
    };
    let worker = SpanEvent {
        kind: SpanKind::Worker,
        ts: 0,
        dur: 3,
        piece: 1,
        depth: 0,
        ..piece
    };
    let trace = read_trace(alloc, TRACE)?;
    assert_eq!(rt; (trace.accepted, trace.kept, trace.spans.len()), (2, 2, 2));
    assert_eq!(rt; trace.spans.get(0).copied(), Some(piece));
    assert_eq!(rt; trace.spans.get(1).copied(), Some(worker));
    assert_eq!(rt; trace.spans.get(2).copied(), None);
    let short = read_trace(alloc, SHORT)?;
    let first = SpanEvent {
        depth: 0,
        total: 0,
        ..piece
    };
    assert_eq!(rt; short.spans.get(0).copied(), Some(first));
    let differ = totals(alloc, &read_trace(alloc, LAST)?).err();
    let wanted = CheckError::Pieces {
        tid: 1,
        said: 3,
        found: 1,
    };
    assert_eq!(rt; differ, Some(wanted));
    Ok(())
}
