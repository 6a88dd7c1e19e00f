ghost use Rattle.std.specs.Prelude.{◌≡◌};
ghost use Rattle.profile_cli.specs.Endings.{detail_of, ending_without, status_of};

use command_words::{ReadError, Refusal};

/// How the command ends.
#[derive(Clone, Copy, Debug, PartialEq, Eq)]
pub enum Ending {
    Done,
    Refused(Refusal),
    OutOfMemory,
    /// The text of this number can't be read.
    Unread(u64),
    CountsUnwritten,
    /// The text of this number is too large.
    TooLarge(u64),
    /// All texts so far are too large together.
    TooMuch,
    TooManyPieces,
    TraceUnwritten,
}

impl Ending {
    /// How the command ends where its words give no options.
    pub fn without_options(error: ReadError) -> Ending
        ensures { result ≡ ending_without error }
    {
        match error {
            ReadError::Refused(refusal) => Ending::Refused(refusal),
            ReadError::Memory => Ending::OutOfMemory,
        }
    }

    /// Its status.
    pub fn status(self) -> u8
        ensures { result ≡ status_of self }
    {
        match self {
            Ending::Done => 0,
            Ending::Refused(_) => 2,
            Ending::OutOfMemory => 3,
            Ending::Unread(_) => 4,
            Ending::CountsUnwritten => 5,
            Ending::TooLarge(_) => 6,
            Ending::TooMuch => 7,
            Ending::TooManyPieces => 8,
            Ending::TraceUnwritten => 9,
        }
    }

    /// The number of the refusal or of the text that it is about.
    pub fn detail(self) -> u64
        ensures { result ≡ detail_of self }
    {
        match self {
            Ending::Refused(refusal) => refusal.number(),
            Ending::Unread(text) | Ending::TooLarge(text) => text,
            _ => 0,
        }
    }
}
