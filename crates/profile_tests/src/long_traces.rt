//! A long trace goes out in many writes.
ghost use Rattle.std.specs.Prelude.{IfOk};
ghost use Rattle.std.specs.List.{All};
ghost use Rattle.trace_json.specs.Trace.{HasFile};

use flow_io::{Sink, Took};
use span_words::{SpanEvent, SpanKind};
use std::alloc::{AllocError, Global};
use std::test::Fail;
use trace_json::write_trace;

/// A sink that takes all, and notes how often it was written to and the most that it was offered.
#[derive(Drop)]
struct Offers {
    writes: u64,
    bytes: usize,
    most: usize,
}

impl Sink for Offers {
    ghost use Rattle.std.specs.Prelude.{None};

    ghost faults = { λ _. 0 };

    ghost told = { λ _. None };

    ghost ready = { λ _. Unit {0} };

    ghost beside = { λ _. None };

    fn write(&mut self, bytes: &[u8]) -> Took {
        self.writes = self.writes.saturating_add(1);
        self.bytes = self.bytes.saturating_add(bytes.len());
        self.most = self.most.max(bytes.len());
        Took::Took(bytes.len())
    }
}

const OWN: SpanEvent = SpanEvent {
    kind: SpanKind::Worker,
    tid: 1,
    ts: 0,
    dur: 3,
    file: 0,
    piece: 0,
    words: 0,
    depth: 0,
    total: 0,
};

/// So many spans of a worker's own.
fn own_spans(alloc: Global, count: u64) -> Result<Vec<SpanEvent>, AllocError>
    ensures { IfOk result (λ spans. All (HasFile 0) spans.items) }
{
    let mut spans = Vec::new(alloc);
    for _ in 0..count {
        spans.push(OWN)?;
    }
    Ok(spans)
}

#[test]
fn a_long_trace_goes_out_in_parts(rt: HostRuntime) -> Result<(), Fail> {
    let alloc = rt.alloc();
    let mut sink = Offers {
        writes: 0,
        bytes: 0,
        most: 0,
    };
    let spans = own_spans(alloc, 10_000)?;
    write_trace(alloc, &mut sink, spans.as_slice(), &[], 10_000)?;
    assert!(rt; 1_000_000 < sink.bytes);
    assert!(rt; 10 < sink.writes);
    assert!(rt; sink.most < 70_000);
    Ok(())
}
