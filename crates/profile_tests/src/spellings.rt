//! Spans that were spelled by hand.
use span_words::{SpanEvent, SpanKind, WordsError, decode, encode};
use std::test::Fail;

const PIECE: SpanEvent = SpanEvent {
    kind: SpanKind::Piece,
    tid: 1,
    ts: 1,
    dur: 1,
    file: 0,
    piece: 0,
    words: 3,
    depth: 1,
    total: 3,
};

#[test]
fn reads_what_it_spells(rt: HostRuntime) -> Result<(), Fail> {
    assert_eq!(rt; encode(&PIECE), [257, 1, 1, 0, 0, 3, 1, 3]);
    assert_eq!(rt; decode(&[257, 1, 1, 0, 0, 3, 1, 3])?, PIECE);
    let short = SpanEvent {
        depth: 0,
        total: 0,
        ..PIECE
    };
    assert_eq!(rt; decode(&[257, 1, 1, 0, 0, 3])?, short);
    let worker = decode(&[256, 0, 3, 0, 1, 3, 0, 3])?;
    assert_eq!(rt;
        (worker.kind, worker.piece, worker.total),
        (SpanKind::Worker, 1, 3)
    );
    Ok(())
}

#[test]
fn refuses_in_order(rt: HostRuntime) {
    assert!(rt; matches!(decode(&[258, 0, 0, 0, 0]), Err(WordsError::Width)));
    assert!(rt; matches!(decode(&[258, 0, 0, 0, 0, 0, 0]), Err(WordsError::Width)));
    assert!(rt; matches!(decode(&[258, 1, 1, 0, 0, 3, 1, 3]), Err(WordsError::Kind)));
    assert!(rt; matches!(decode(&[1, 1, 1, 0, 0, 3, 1, 3]), Err(WordsError::Tid)));
    assert!(rt; matches!(decode(&[65537, 1, 1, 0, 0, 3, 1, 3]), Err(WordsError::Tid)));
}
