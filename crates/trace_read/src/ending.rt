ghost use Rattle.std.specs.Prelude.{◌≡◌};
ghost use Rattle.trace_read.specs.Command.{check_number, detail_of, message_of, read_number, status_of};

use crate::checking::CheckError;
use crate::reading::ReadError;

/// How the command that checks a trace ends.
#[derive(Clone, Copy, Debug, Drop, PartialEq, Eq)]
pub enum Ending {
    Done,
    Usage,
    Unread,
    TooLarge,
    NotATrace(ReadError),
    Differ(CheckError),
    Unwritten,
    OutOfMemory,
}

impl Ending {
    /// Its status.
    pub fn status(self) -> u8
        ensures { result ≡ status_of self }
    {
        match self {
            Ending::Done => 0,
            Ending::Usage => 2,
            Ending::OutOfMemory => 3,
            Ending::Unread => 4,
            Ending::Unwritten => 5,
            Ending::TooLarge => 6,
            Ending::NotATrace(_) => 10,
            Ending::Differ(_) => 11,
        }
    }

    /// The number of the refusal of the text or of its totals.
    pub fn detail(self) -> u64
        ensures { result ≡ detail_of self }
    {
        match self {
            Ending::NotATrace(refusal) => read_number(refusal),
            Ending::Differ(refusal) => check_number(refusal),
            _ => 0,
        }
    }

    /// What is said of it, up to the newline.
    pub fn message(self) -> &'static [u8]
        ensures { result.now ≡ message_of self }
    {
        match self {
            Ending::Done => b"",
            Ending::Usage => b"bbq-trace: usage",
            Ending::OutOfMemory => b"bbq-trace: out of memory",
            Ending::Unread => b"bbq-trace: cannot read",
            Ending::Unwritten => b"bbq-trace: cannot write",
            Ending::TooLarge => b"bbq-trace: file too large",
            Ending::NotATrace(_) => b"bbq-trace: not a trace",
            Ending::Differ(_) => b"bbq-trace: totals differ",
        }
    }
}

fn read_number(refusal: ReadError) -> u64
    ensures { result ≡ read_number refusal }
{
    match refusal {
        ReadError::Json => 1,
        ReadError::Top => 2,
        ReadError::Events => 3,
        ReadError::Numbers => 4,
        ReadError::Event(_) => 5,
        ReadError::Span(_) => 6,
        ReadError::Kept { .. } => 7,
        ReadError::Memory => 8,
    }
}

fn check_number(refusal: CheckError) -> u64
    ensures { result ≡ check_number refusal }
{
    match refusal {
        CheckError::Workers { .. } => 1,
        CheckError::Pieces { .. } => 2,
        CheckError::Words { .. } => 3,
        CheckError::Memory => 4,
    }
}
