ghost use Rattle.std.specs.Prelude.{◌≡◌, ◌≢◌, ℕ, ◌+◌, ◌^◌, ◌<◌, ◌≤◌, ◌⊎◌, length, take, drop, vec_len, OnOk};
ghost use Rattle.flow_io.specs.Flow.{HoldsNone, ReadGives, Rose};
ghost use Rattle.flow_io.specs.Reading.{ReadsText};
ghost use Rattle.flow_io.specs.declared.reading.Reading.{Reading};

use crate::{Got, Source};
use std::alloc::{AllocError, Global};

/// The most bytes of one text of the input.
pub const MOST_TEXT: usize = 67_108_864;

/// The most bytes that all texts of the input have together.
pub const MOST_INPUT: usize = 268_435_456;

/// By how much a buffer that is full becomes longer.
const STEP: usize = 1 << 20;

/// What came of reading a text.
#[derive(Drop)]
pub enum Reading {
    Whole(Vec<u8>),
    TooLarge(Vec<u8>),
    Unread,
    Memory,
}

/// Reads on into the buffer, behind what is filled.
fn read_on<F: Source>(files: &mut F, text: &mut Vec<u8>, filled: usize, limit: usize) -> Got
    requires some { filled < vec_len text.old }
    requires two { filled < limit → filled + 2 ≤ vec_len text.old }
    ensures later { F.faults files.old ≤ F.faults files.new }
    ensures files { F.files files.new ≡ F.files files.old }
    ensures len { vec_len text.new ≡ vec_len text.old }
    ensures front { take filled text.new.items ≡ take filled text.old.items }
    ensures gives { ReadGives (F.left files.old) (F.left files.new)
        (F.faults files.old) (F.faults files.new) (drop filled text.new.items) result }
{
    let free = &mut text[filled..];
    prove!(filled >= limit || 2 <= free.len());
    files.read(free)
}

/// Makes the buffer longer, by one large step, where it has no room for a byte more than the limit
/// and for two bytes besides what is filled.
fn make_room(text: &mut Vec<u8>, filled: usize, limit: usize) -> Result<(), AllocError>
    requires fits { limit + 1 < 2 ^ 64 }
    requires filled { filled ≤ vec_len text.old }
    requires most { filled ≤ limit }
    requires small { vec_len text.old ≤ limit + 1 }
    ensures some { OnOk result (filled < vec_len text.new) }
    ensures two { OnOk result (filled < limit → filled + 2 ≤ vec_len text.new) }
    ensures limit { OnOk result (vec_len text.new ≤ limit + 1) }
    ensures front { OnOk result (take filled text.new.items ≡ take filled text.old.items) }
{
    let most = limit + 1 - filled;
    if most.min(2) <= text.len() - filled {
        return Ok(());
    }
    text.resize(filled + most.min(STEP), 0)
}

/// Reads the text of a file whole, of at most so many bytes.
pub fn read_text<F: Source>(alloc: Global, files: &mut F, name: &str, limit: usize) -> Reading
    requires { limit + 1 < 2 ^ 64 }
    ensures later { F.faults files.old ≤ F.faults files.new }
    ensures files { F.files files.new ≡ F.files files.old }
    ensures text { ReadsText (F.files files.old) name.now limit result }
    ensures quiet { result ≢ Reading.Unread → F.faults files.new ≡ F.faults files.old }
    ensures cause { result ≡ Reading.Unread
        → Rose (F.faults files.old) (F.faults files.new) ⊎ HoldsNone (F.files files.old) name.now }
{
    if !files.start(name) {
        return Reading::Unread;
    }
    let mut text = Vec::new(alloc);
    let mut filled = 0;
    loop {
        if filled > limit {
            return Reading::TooLarge(text);
        }
        let room = make_room(&mut text, filled, limit);
        if let Err(_) = room {
            return Reading::Memory;
        }
        match read_on(files, &mut text, filled, limit) {
            Got::Got(count) => filled += count,
            Got::End => {
                text.truncate(filled);
                return Reading::Whole(text);
            }
            Got::Failed => return Reading::Unread,
        }
    }
}
