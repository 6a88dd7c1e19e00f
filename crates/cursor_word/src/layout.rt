ghost use Rattle.std.specs.Prelude.{◌≡◌, ℕ, ◌+◌, ◌*◌, ◌%◌, ◌<◌, ◌≤◌};
ghost use Rattle.cursor_word.specs.Layout.{IsPart, Part, allocated, committed, consumed, entry, index_of, reserved, start_at, start_cursor, start_of, word_count};

use crate::cursor::Cursor;
use crate::shape::Shape;

/// Where the producer head lies.
pub fn producer_head() -> u64
    ensures { result ≡ 0 }
{
    0
}

/// Where the consumer head lies.
pub fn consumer_head() -> u64
    ensures { result ≡ 1 }
{
    1
}

/// Where the allocated cursor of a block lies.
pub fn allocated(shape: &Shape, block: u64) -> u64
    ensures part { result ≡ index_of shape.now (allocated (block % shape.now.blocks)) }
    ensures within { result < word_count shape.now }
{
    2 + 4 * (block % shape.blocks())
}

/// Where the committed cursor of a block lies.
pub fn committed(shape: &Shape, block: u64) -> u64
    ensures part { result ≡ index_of shape.now (committed (block % shape.now.blocks)) }
    ensures within { result < word_count shape.now }
{
    3 + 4 * (block % shape.blocks())
}

/// Where the reserved cursor of a block lies.
pub fn reserved(shape: &Shape, block: u64) -> u64
    ensures part { result ≡ index_of shape.now (reserved (block % shape.now.blocks)) }
    ensures within { result < word_count shape.now }
{
    4 + 4 * (block % shape.blocks())
}

/// Where the consumed cursor of a block lies.
pub fn consumed(shape: &Shape, block: u64) -> u64
    ensures part { result ≡ index_of shape.now (consumed (block % shape.now.blocks)) }
    ensures within { result < word_count shape.now }
{
    5 + 4 * (block % shape.blocks())
}

/// Where a word of the entry at a cursor lies.
pub fn entry_word(shape: &Shape, at: Cursor, word: u64) -> u64
    requires { (at.offset < shape.now.size) × (word < shape.now.width) }
    ensures part { result ≡ index_of shape.now (entry (at.block % shape.now.blocks) at.offset word) }
    ensures within { result < word_count shape.now }
{
    let blocks = shape.blocks();
    2 + 4 * blocks + ((at.block % blocks) * shape.size() + at.offset) * shape.width() + word
}

/// The word with which an index starts.
pub fn start_word(shape: &Shape, index: u64) -> u64
    requires { index < word_count shape.now }
    ensures value { result ≡ start_at shape.now index }
    ensures part { (p : Part) → IsPart shape.now p → index_of shape.now p ≡ index
        → result ≡ start_of shape.now p }
{
    let blocks = shape.blocks();
    if index < 2 {
        blocks
    } else if index < 2 + 4 * blocks {
        start_cursor(shape, (index - 2) / 4)
    } else {
        0
    }
}

// The word with which a cursor of a physical block starts.
fn start_cursor(shape: &Shape, block: u64) -> u64
    requires { block < shape.now.blocks }
    ensures { result ≡ start_cursor shape.now block }
{
    let blocks = shape.blocks();
    let start = if block == 0 {
        Cursor {
            block: blocks,
            offset: 0,
        }
    } else {
        Cursor {
            block,
            offset: shape.size(),
        }
    };
    start.pack()
}
