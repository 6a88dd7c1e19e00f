use cursor_word::Cursor;

/// Why a call of a queue gave up: two values that it read, in this order, which differ. A head
/// stands as the cursor of its block at offset 0.
#[derive(Clone, Copy, Debug, PartialEq, Eq)]
pub enum Why {
    Unfinished {
        block: u64,
        before: Cursor,
        after: Cursor,
    },
    Moved {
        earlier: Cursor,
        later: Cursor,
    },
}

/// What a put answers.
#[derive(Clone, Copy, Debug, PartialEq, Eq)]
pub enum Put {
    Ok(u64),
    Full { head: u64, consumed: Cursor },
    Busy(Why),
}

/// What a take answers.
#[derive(Clone, Copy, Debug, PartialEq, Eq)]
pub enum Take {
    Ok(u64),
    Empty { place: u64 },
    Busy(Why),
    Overrun { place: u64, now: Cursor },
}

/// What a call of a seat answered.
#[derive(Clone, Copy, Debug, PartialEq, Eq)]
pub enum Answer {
    Put(Put),
    Take(Take),
}
