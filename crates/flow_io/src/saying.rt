ghost use Rattle.std.specs.Prelude.{◌≡◌, ◌≤◌, ◌++◌, [], ◌∷◌};
ghost use Rattle.flow_io.specs.Saying.{Said};

use crate::{Sink, write_all};

/// Says a line of two parts, up to the first failure.
pub fn say<M: Sink>(messages: &mut M, text: &[u8], name: &[u8])
    requires { M.ready messages.old }
    ensures later { M.faults messages.old ≤ M.faults messages.new }
    ensures ready { M.ready messages.new }
    ensures beside { M.beside messages.new ≡ M.beside messages.old }
    ensures said { Said (M.told messages.old) (M.told messages.new)
        (M.faults messages.old) (M.faults messages.new) (text.now ++ (name.now ++ 10 ∷ [])) }
{
    if !write_all(messages, text) {
        return;
    }
    if !write_all(messages, name) {
        return;
    }
    let _ = write_all(messages, b"\n");
}
