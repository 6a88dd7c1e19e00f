//! Spans that were folded by hand.
use span_fold::{fold, fold_text};
use span_words::{SpanEvent, SpanKind};
use std::test::Fail;

const MOST: u64 = 18_446_744_073_709_551_615;

fn piece(tid: u64, file: u64, dur: u64) -> SpanEvent {
    SpanEvent {
        kind: SpanKind::Piece,
        tid,
        ts: 1,
        dur,
        file,
        piece: 0,
        words: 0,
        depth: 1,
        total: 0,
    }
}

fn worker(tid: u64, dur: u64) -> SpanEvent {
    SpanEvent {
        kind: SpanKind::Worker,
        tid,
        ts: 0,
        dur,
        file: 0,
        piece: 0,
        words: 0,
        depth: 0,
        total: 0,
    }
}

#[test]
fn folds_worked_spans(rt: HostRuntime) -> Result<(), Fail> {
    let alloc = rt.alloc();
    for (spans, text) in [
        ([].as_slice(), b"".as_slice()),
        // One piece of a whole run, and the last of a longer one.
        (
            &[piece(1, 0, 1), worker(1, 3)],
            b"worker 1 2\nworker 1;file 0 1\n",
        ),
        (
            &[piece(1, 0, 1), worker(1, 7)],
            b"worker 1 6\nworker 1;file 0 1\n",
        ),
        // Workers and files that come out of order, one worker without pieces and one without a span of its own.
        (
            &[
                piece(9, 7, 4),
                worker(2, 5),
                piece(9, 3, 2),
                piece(9, 7, 1),
                worker(7, 0),
                worker(9, 10),
                piece(1, MOST, 6),
            ],
            b"worker 1;file 18446744073709551615 6\nworker 2 5\nworker 7 0\nworker 9 3\nworker 9;file 3 2\nworker 9;file 7 5\n",
        ),
        // Pieces that took longer than their worker, and sums above the greatest number of 64 bits.
        (
            &[worker(1, 3), piece(1, 0, 4)],
            b"worker 1 0\nworker 1;file 0 4\n",
        ),
        (
            &[
                worker(1, MOST),
                worker(1, MOST),
                piece(1, 0, MOST),
                piece(1, 0, 1),
            ],
            b"worker 1 18446744073709551614\nworker 1;file 0 18446744073709551616\n",
        ),
    ] {
        let lines = fold(alloc, spans)?;
        assert_eq!(rt; fold_text(alloc, &lines)?.bytes(), text);
    }
    Ok(())
}
