//! Words of the command that `clap` decides, and values that are refused: how the command ends over the one file `ab.txt`.
use crate::command::{AMPLE, tried};
use std::test::Fail;

const FORTY_DIGITS: &str = "9999999999999999999999999999999999999999";

const FORTY_DIGITS_OF_TWO: &str = "0000000000000000000000000000000000000002";

/// Words with the status and the detail, and what is said.
type Line<'a> = (&'a [&'a str], u8, u64, &'a [u8]);

const NO_WORDS: &[u8] = b"bbq-profile: usage: words\n";

const NO_WORKERS: &[u8] = b"bbq-profile: usage: workers\n";

const LINES: &[Line] = &[
    (&["ab.txt", "--workers", "2"], 0, 0, b""),
    (&["--workers=2", "ab.txt", "--mode", "retry"], 0, 0, b""),
    (&["--mode=drop", "ab.txt"], 0, 0, b""),
    (&["--workers", FORTY_DIGITS_OF_TWO, "ab.txt"], 0, 0, b""),
    (&["--trace=-x", "--", "ab.txt"], 0, 0, b""),
    (&["ab.txt", "--fold", "--size=1"], 0, 0, b""),
    (
        &["--", "--workers"],
        4,
        0,
        b"bbq-profile: cannot read --workers\n",
    ),
    (&["ab.txt", ""], 4, 1, b"bbq-profile: cannot read \n"),
    (&["ab.txt", "-"], 4, 1, b"bbq-profile: cannot read -\n"),
    (&["--workers", "2", "--workers=2", "ab.txt"], 2, 1, NO_WORDS),
    (&["ab.txt", "--workers"], 2, 1, NO_WORDS),
    (&["--worker", "2", "ab.txt"], 2, 1, NO_WORDS),
    (&["-w", "2", "ab.txt"], 2, 1, NO_WORDS),
    (&["--workers", "-1", "ab.txt"], 2, 1, NO_WORDS),
    (&["--workers", "0", "--nosuch", "ab.txt"], 2, 1, NO_WORDS),
    (&["ab.txt", "--help"], 2, 1, NO_WORDS),
    (&["--fold", "--fold", "ab.txt"], 2, 1, NO_WORDS),
    (&["--fold=true", "ab.txt"], 2, 1, NO_WORDS),
    (
        &["--mode", "new", "ab.txt"],
        2,
        2,
        b"bbq-profile: usage: mode\n",
    ),
    (&["--workers", "+2", "ab.txt"], 2, 3, NO_WORKERS),
    (&["--workers=", "ab.txt"], 2, 3, NO_WORKERS),
    (&["--workers", FORTY_DIGITS, "ab.txt"], 2, 3, NO_WORKERS),
    (
        &["--generate", "0", "--blocks", "1"],
        2,
        4,
        b"bbq-profile: usage: blocks\n",
    ),
    (
        &["ab.txt", "--size", "65537"],
        2,
        5,
        b"bbq-profile: usage: size\n",
    ),
    (&["--piece", "x"], 2, 6, b"bbq-profile: usage: piece\n"),
    (
        &["--generate", "10000001"],
        2,
        7,
        b"bbq-profile: usage: generate\n",
    ),
    (&["--"], 2, 8, b"bbq-profile: usage: input\n"),
];

#[test]
fn ends_as_the_words_ask(rt: HostRuntime) -> Result<(), Fail> {
    let alloc = rt.alloc();
    for (words, status, detail, message) in LINES {
        let bytes = Vec::from_slice(alloc, b"a b a\n")?;
        let left = tried(&rt, alloc, words, "ab.txt", bytes, &AMPLE)?;
        assert_eq!(rt; (left.status, left.detail), (*status, *detail), "{words:?}");
        assert_eq!(rt; left.messages.bytes(), *message, "{words:?}");
        let stored = left.trace.name(0).is_some();
        assert_eq!(rt; stored, *status == 0, "{words:?}");
        assert_eq!(rt; left.out.bytes().is_empty(), *status != 0, "{words:?}");
    }
    Ok(())
}
