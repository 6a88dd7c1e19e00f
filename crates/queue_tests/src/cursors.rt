//! Shapes, cursors and the layout of words.
use cursor_word::{
    Cursor, Shape, ShapeError, allocated, committed, consumed, consumer_head, entry_word,
    producer_head, reserved, start_word,
};
use std::test::Fail;

#[test]
fn shapes_are_refused_in_order(rt: HostRuntime) -> Result<(), Fail> {
    for (blocks, size, width, seats, want) in [
        (1, 0, 9, 1025, ShapeError::Blocks),
        (2, 0, 9, 1025, ShapeError::Size),
        (2, 65_537, 8, 1, ShapeError::Size),
        (2, 1, 9, 1025, ShapeError::Width),
        (2, 1, 8, 1025, ShapeError::Seats),
    ] {
        assert_eq!(rt; Shape::new(blocks, size, width, seats), Err(want));
    }
    Ok(())
}

#[test]
fn shapes_tell_their_numbers(rt: HostRuntime) -> Result<(), Fail> {
    for (numbers, words, most_puts) in [
        ((2, 1, 8, 300), 26, 14_660_155_037),
        ((8, 64, 6, 1), 3_106, 281_474_976_710_656),
        ((2, 1, 1, 1024), 12, 4_294_967_296),
        ((256, 65_536, 8, 1024), 134_218_754, 281_474_976_710_656),
    ] {
        let (blocks, size, width, seats) = numbers;
        let shape = Shape::new(blocks, size, width, seats)?;
        let told = (shape.blocks(), shape.size(), shape.width(), shape.seats());
        assert_eq!(rt; told, numbers);
        assert_eq!(rt; (shape.words(), shape.most_puts()), (words, most_puts));
    }
    Ok(())
}

#[test]
fn cursors_are_words(rt: HostRuntime) {
    for (block, offset, word) in [
        (2, 1, 0x0000_0000_0020_0001),
        (3, 0, 3_145_728),
        (1_099_511_627_776, 1024, 0x1000_0000_0000_0400),
    ] {
        let cursor = Cursor { block, offset };
        assert_eq!(rt; cursor.pack(), word);
        assert_eq!(rt; Cursor::unpack(word), cursor);
    }
}

#[test]
fn words_lie_and_start_by_the_layout(rt: HostRuntime) -> Result<(), Fail> {
    let shape = Shape::new(2, 3, 2, 1)?;
    assert_eq!(rt; (producer_head(), consumer_head()), (0, 1));
    assert_eq!(rt; (allocated(&shape, 4), committed(&shape, 4)), (2, 3));
    assert_eq!(rt; (reserved(&shape, 5), consumed(&shape, 5)), (8, 9));
    let at = Cursor {
        block: 5,
        offset: 2,
    };
    assert_eq!(rt; entry_word(&shape, at, 1), 21);
    assert_eq!(rt; shape.words(), 22);
    for (index, word) in [
        (0, 2),
        (1, 2),
        (2, 2_097_152),
        (5, 2_097_152),
        (6, 1_048_579),
        (9, 1_048_579),
        (10, 0),
        (21, 0),
    ] {
        assert_eq!(rt; start_word(&shape, index), word);
    }
    Ok(())
}
