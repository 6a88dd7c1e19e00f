//! What a call answers, as C reads it.
ghost use Rattle.std.specs.Prelude.{◌≡◌};
ghost use Rattle.zemuschida_c.specs.Codes.{nowhere, put_code, put_numbers, shown, take_code, take_numbers, why_code, why_numbers};
ghost use Rattle.zemuschida_c.specs.Looked.{look_code, look_numbers};

use block_looks::Look;
use cursor_word::Cursor;
use rail::{Put, Take, Why};

/// The codes of answers and of refusals.
pub const OK: u32 = 0;

pub const FULL: u32 = 1;

pub const EMPTY: u32 = 2;

pub const UNFINISHED: u32 = 3;

pub const MOVED: u32 = 4;

pub const OVERRUN: u32 = 5;

pub const UNOPENED: u32 = 6;

pub const GIVEN_UP: u32 = 7;

pub const CLOSED: u32 = 16;

pub const WIDTH: u32 = 17;

pub const SPENT: u32 = 18;

pub const MEMORY: u32 = 19;

pub const BAD_BLOCKS: u32 = 20;

pub const BAD_SIZE: u32 = 21;

pub const BAD_WIDTH: u32 = 22;

pub const BAD_SEATS: u32 = 23;

pub const ROOM: u32 = 24;

pub const BAD_BLOCK: u32 = 25;

pub const NOT_ALL_SEATS: u32 = 26;

/// A block number and an offset in it.
#[repr(C)]
#[derive(Clone, Copy)]
pub struct ZemCursor {
    pub block: u64,
    pub offset: u64,
}

/// The numbers of an answer; those that an answer doesn't have are 0.
#[repr(C)]
#[derive(Clone, Copy)]
pub struct ZemAnswer {
    pub place: u64,
    pub block: u64,
    pub first: ZemCursor,
    pub second: ZemCursor,
}

/// What a look at a block found: how many entries it has, where all are there, and its cursors.
#[repr(C)]
#[derive(Clone, Copy)]
pub struct ZemLook {
    pub count: u64,
    pub committed: ZemCursor,
    pub allocated: ZemCursor,
}

const NOWHERE: ZemCursor = ZemCursor {
    block: 0,
    offset: 0,
};

const NOTHING: ZemAnswer = ZemAnswer {
    place: 0,
    block: 0,
    first: NOWHERE,
    second: NOWHERE,
};

pub(crate) fn show(cursor: Cursor) -> ZemCursor
    ensures { result ≡ shown cursor }
{
    ZemCursor {
        block: cursor.block,
        offset: cursor.offset,
    }
}

pub(crate) fn give_look(found: &Look, look: &mut ZemLook) -> u32
    ensures code { result ≡ look_code found.now }
    ensures numbers { look.new ≡ look_numbers found.now }
{
    match *found {
        Look::Unopened { committed } => {
            *look = ZemLook {
                count: 0,
                committed: show(committed),
                allocated: NOWHERE,
            };
            UNOPENED
        }
        Look::Whole {
            count,
            committed,
            allocated,
        } => {
            *look = ZemLook {
                count,
                committed: show(committed),
                allocated: show(allocated),
            };
            OK
        }
        Look::Gap {
            committed,
            allocated,
        } => {
            *look = ZemLook {
                count: 0,
                committed: show(committed),
                allocated: show(allocated),
            };
            UNFINISHED
        }
    }
}

fn give_why(why: &Why, answer: &mut ZemAnswer) -> u32
    requires { (answer.old.place ≡ 0) × (answer.old.block ≡ 0) }
    ensures code { result ≡ why_code why.now }
    ensures numbers { answer.new ≡ why_numbers why.now }
{
    match why {
        Why::Unfinished {
            block,
            before,
            after,
        } => {
            answer.block = *block;
            answer.first = show(*before);
            answer.second = show(*after);
            UNFINISHED
        }
        Why::Moved { earlier, later } => {
            answer.first = show(*earlier);
            answer.second = show(*later);
            MOVED
        }
    }
}

pub(crate) fn give_put(put: &Put, answer: &mut ZemAnswer) -> u32
    ensures code { result ≡ put_code put.now }
    ensures numbers { answer.new ≡ put_numbers put.now }
{
    *answer = NOTHING;
    match put {
        Put::Ok(place) => {
            answer.place = *place;
            OK
        }
        Put::Full { head, consumed } => {
            answer.block = *head;
            answer.first = show(*consumed);
            FULL
        }
        Put::Busy(why) => give_why(why, answer),
    }
}

pub(crate) fn give_take(take: &Take, answer: &mut ZemAnswer) -> u32
    ensures code { result ≡ take_code take.now }
    ensures numbers { answer.new ≡ take_numbers take.now }
{
    *answer = NOTHING;
    match take {
        Take::Ok(place) => {
            answer.place = *place;
            OK
        }
        Take::Empty { place } => {
            answer.place = *place;
            EMPTY
        }
        Take::Busy(why) => give_why(why, answer),
        Take::Overrun { place, now } => {
            answer.place = *place;
            answer.first = show(*now);
            OVERRUN
        }
    }
}
