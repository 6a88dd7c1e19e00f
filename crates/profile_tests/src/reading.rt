//! A text that is read whole, from a source that notes how much room each read is offered.
ghost use Rattle.std.specs.Prelude.{ℕ, None};

use flow_io::{Got, MOST_TEXT, Reading, Source, read_text};
use std::test::Fail;

/// A source of zeros that gives so many a read, and notes the least room that a read was offered before
/// the limit was reached.
#[derive(Drop)]
struct Offered {
    left: usize,
    gives: usize,
    before_limit: usize,
    least: usize,
}

impl Source for Offered {
    ghost faults = { λ _. 0 };

    ghost files = { λ _. None };

    ghost left = { λ _. None };

    fn start(&mut self, _name: &str) -> bool {
        true
    }

    fn read(&mut self, buf: &mut [u8]) -> Got {
        if self.before_limit > 0 {
            self.least = self.least.min(buf.len());
        }
        let count = self.gives.min(self.left).min(buf.len());
        if count == 0 {
            return Got::End;
        }
        self.left -= count;
        self.before_limit = self.before_limit.saturating_sub(count);
        Got::Got(count)
    }
}

/// How many bytes were read, and whether they are the whole text.
fn length_of(reading: &Reading) -> Option<(usize, bool)> {
    match reading {
        Reading::Whole(text) => Some((text.len(), true)),
        Reading::TooLarge(text) => Some((text.len(), false)),
        Reading::Unread | Reading::Memory => None,
    }
}

#[test]
fn offers_each_read_two_bytes(rt: HostRuntime) -> Result<(), Fail> {
    let step = 1 << 20;
    for (len, gives, limit, read) in [
        (0, 1, 3, (0, true)),
        (3, 1, 3, (3, true)),
        (4, 1, 3, (4, false)),
        (9, 2, 3, (4, false)),
        (step + 5, step - 1, MOST_TEXT, (step + 5, true)),
        (2 * step, 3 * step, 2 * step - 1, (2 * step, false)),
    ] {
        let mut source = Offered {
            left: len,
            gives,
            before_limit: limit,
            least: limit,
        };
        let reading = read_text(rt.alloc(), &mut source, "a", limit);
        assert_eq!(rt; length_of(&reading), Some(read));
        assert!(rt; 2 <= source.least);
    }
    Ok(())
}
