ghost use Rattle.std.specs.Prelude.{◌≡◌};
ghost use Rattle.profile_cli.specs.Endings.{first_part, subject_of};
ghost use Rattle.profile_cli.specs.Messages.{Says};
ghost use Rattle.command_words.specs.Texts.{bytes_of};

use crate::ending::Ending;
use flow_io::{Sink, say};

/// Says how the command ended; nothing where all was done.
pub fn say_ending<M: Sink>(messages: &mut M, ending: Ending, names: &[String])
    requires { M.ready messages.old }
    ensures ready { M.ready messages.new }
    ensures beside { M.beside messages.new ≡ M.beside messages.old }
    ensures says { Says (bytes_of names.now) ending
        (record { told = M.told messages.old; faults = M.faults messages.old })
        (record { told = M.told messages.new; faults = M.faults messages.new }) }
{
    match ending {
        Ending::Done => {}
        _ => say(messages, first_part(ending), subject(ending, names)),
    }
}

// The message of an ending, up to a word or a name.
fn first_part(ending: Ending) -> &'static [u8]
    ensures { result.now ≡ first_part ending }
{
    match ending {
        Ending::Done => b"",
        Ending::Refused(_) => b"bbq-profile: usage: ",
        Ending::OutOfMemory => b"bbq-profile: out of memory",
        Ending::Unread(_) => b"bbq-profile: cannot read ",
        Ending::CountsUnwritten => b"bbq-profile: cannot write counts",
        Ending::TooLarge(_) => b"bbq-profile: file too large: ",
        Ending::TooMuch => b"bbq-profile: input too large",
        Ending::TooManyPieces => b"bbq-profile: too many pieces",
        Ending::TraceUnwritten => b"bbq-profile: cannot write trace",
    }
}

// The word or the name that the message of an ending is about, or nothing.
fn subject(ending: Ending, names: &[String]) -> &[u8]
    ensures { result.now ≡ subject_of (bytes_of names.now) ending }
{
    match ending {
        Ending::Refused(refusal) => refusal.word(),
        Ending::Unread(text) | Ending::TooLarge(text) => match names.get(text as usize) {
            Some(name) => name.as_bytes(),
            None => &[],
        },
        _ => &[],
    }
}
