//! What the calls answer with ample memory, on texts that were counted and cut by hand.
use std::test::Fail;
use word_text::{Counts, Piece, Plan, Text, count_piece, counts_text, merge, pieces};

#[test]
#[tactic(auto, using(word_text::proofs::Splits::words_within_bytes))]
fn counts_worked_texts(rt: HostRuntime) -> Result<(), Fail> {
    let alloc = rt.alloc();
    let odd: &[u8] = &[97, 255, 0, 98, 10];
    let odd_lines: &[u8] = b"words 1 distinct 1\n1 a\xff\x00b\n";
    for (bytes, number, lines) in [
        (
            b"a b a\n".as_slice(),
            3,
            b"words 3 distinct 2\n2 a\n1 b\n".as_slice(),
        ),
        (
            b"to be or not to be\n",
            6,
            b"words 6 distinct 4\n2 be\n1 not\n1 or\n2 to\n",
        ),
        (odd, 1, odd_lines),
        (b"", 0, b"words 0 distinct 0\n"),
        (b" \t\n\x0b\x0c\r ", 0, b"words 0 distinct 0\n"),
    ] {
        let mut counts = Counts::new(alloc);
        let text = Text::from_bytes(Vec::from_slice(alloc, bytes)?);
        assert_eq!(rt; count_piece(alloc, &mut counts, text.bytes())?, number);
        assert_eq!(rt; counts_text(alloc, &counts)?.bytes(), lines);
    }
    Ok(())
}

#[test]
#[tactic(auto, using(word_text::proofs::Splits::words_within_bytes))]
fn merges_numbers_word_by_word(rt: HostRuntime) -> Result<(), Fail> {
    let alloc = rt.alloc();
    let mut counts = Counts::new(alloc);
    count_piece(alloc, &mut counts, b"a b a")?;
    let mut other = Counts::new(alloc);
    count_piece(alloc, &mut other, b"b b b")?;
    merge(alloc, &mut counts, &other)?;
    assert_eq!(rt;
        counts_text(alloc, &counts)?.bytes(),
        b"words 6 distinct 2\n2 a\n4 b\n".as_slice()
    );
    Ok(())
}

#[test]
fn cuts_worked_texts(rt: HostRuntime) -> Result<(), Fail> {
    let alloc = rt.alloc();
    for (text, k, middle, end) in [(b"abcd ef".as_slice(), 1, 4, 7), (b"xy longword", 2, 2, 11)] {
        assert!(rt; k > 0);
        let mut plan = Plan::new(alloc);
        pieces(alloc, b"", 0, k, &mut plan)?;
        assert!(rt; plan.is_empty());
        pieces(alloc, text, 1, k, &mut plan)?;
        assert_eq!(rt; plan.len(), 2);
        assert_eq!(rt;
            plan.get(0).copied(),
            Some(Piece {
                file: 1,
                start: 0,
                end: middle
            })
        );
        assert_eq!(rt;
            plan.get(1).copied(),
            Some(Piece {
                file: 1,
                start: middle,
                end
            })
        );
        assert!(rt; plan.get(2).is_none());
    }
    Ok(())
}
