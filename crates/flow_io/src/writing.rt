ghost use Rattle.std.specs.Prelude.{◌≡◌, ℕ, ◌<◌, ◌≤◌, true, false, length};
ghost use Rattle.flow_io.specs.Flow.{Rose, gained, GainedPart};

use crate::{Sink, Took};

/// Writes all the bytes, or answers `false` after a failure.
pub fn write_all<O: Sink>(sink: &mut O, bytes: &[u8]) -> bool
    requires { O.ready sink.old }
    ensures later { O.faults sink.old ≤ O.faults sink.new }
    ensures ready { O.ready sink.new }
    ensures beside { O.beside sink.new ≡ O.beside sink.old }
    ensures quiet { result ≡ true → O.faults sink.new ≡ O.faults sink.old }
    ensures all { result ≡ true → O.told sink.new ≡ gained (O.told sink.old) bytes.now }
    ensures part { result ≡ false → GainedPart (O.told sink.old) (O.told sink.new) bytes.now }
    ensures cause { result ≡ false → Rose (O.faults sink.old) (O.faults sink.new) }
{
    let mut done = 0;
    while done < bytes.len() {
        match sink.write(&bytes[done..]) {
            Took::Took(count) => done += count,
            Took::Failed => return false,
        }
    }
    true
}
