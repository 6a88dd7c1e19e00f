//! The generated text, and what the command makes of it.
use crate::command::{AMPLE, World, tried};
use generated_words::{MOST_GENERATED, generate};
use std::test::Fail;

#[test]
fn generates_texts_worked_out_by_hand(rt: HostRuntime) -> Result<(), Fail> {
    let alloc = rt.alloc();
    let twelve: &[u8] = b"w12 w13 w16 w21 w28 w37 w48 w61 w76 w93\nw112 w133\n";
    for (words, text) in [
        (1, b"w1\n".as_slice()),
        (5, b"w5 w6 w9 w14 w21\n"),
        (12, twelve),
    ] {
        assert!(rt; words <= MOST_GENERATED);
        assert_eq!(rt; generate(alloc, words)?.bytes(), text);
    }
    Ok(())
}

/// Of a million words each value of a word's number mod 1000 comes a thousand times, its square takes 159 values, that of 0 comes from ten numbers below 1000, and that of 1 from eight.
#[test]
fn counts_a_million_words_by_one_worker_and_by_eight(rt: HostRuntime) -> Result<(), Fail> {
    let alloc = rt.alloc();
    let roomy = World {
        room: 1 << 13,
        ..AMPLE
    };
    let alone: &[&str] = &["--generate", "1000000", "--workers", "1"];
    let small: &[&str] = &[
        "--generate=1000000",
        "--workers=8",
        "--blocks=4",
        "--size=16",
    ];
    let one = tried(&rt, alloc, alone, "ab.txt", Vec::new(alloc), &roomy)?;
    let eight = tried(&rt, alloc, small, "ab.txt", Vec::new(alloc), &roomy)?;
    assert_eq!(rt; (one.status, eight.status), (0, 0));
    assert_eq!(rt; one.out.bytes(), eight.out.bytes());
    let head: &[u8] = b"words 1000000 distinct 159\n10000 w0\n8000 w1\n";
    assert!(rt; one.out.bytes().starts_with(head));
    Ok(())
}
