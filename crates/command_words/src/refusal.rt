//! Why the words of the command give no options.
ghost use Rattle.std.specs.Prelude.{◌≡◌};
ghost use Rattle.clap.specs.Words.{kind_of};
ghost use Rattle.command_words.specs.Refusals.{error_of, refusal_number, refusal_word};
ghost use Rattle.command_words.specs.declared.refusal.ReadError.TheVariants.{Memory, Refused};

use clap::Error;
use clap::error::ErrorKind;
use std::alloc::{AllocError, AllocFailed};

/// How the words of the command are refused.
#[derive(Clone, Copy, Debug, PartialEq, Eq)]
pub enum Refusal {
    /// They aren't words of the command.
    Words,
    /// `--mode` is neither `retry` nor `drop`.
    Mode,
    /// `--workers` isn't a number from 1 to 255.
    Workers,
    /// `--blocks` isn't a number from 2 to 256.
    Blocks,
    /// `--size` isn't a number from 1 to 65,536.
    Size,
    /// `--piece` isn't a number from 1 to 16,777,216.
    Piece,
    /// `--generate` isn't a number from 1 to 10,000,000.
    Generate,
    /// Neither `--generate` nor a FILE is given.
    Input,
}

impl Refusal {
    /// Its number among the refusals of the command.
    pub fn number(self) -> u64
        ensures { result ≡ refusal_number self }
    {
        match self {
            Refusal::Words => 1,
            Refusal::Mode => 2,
            Refusal::Workers => 3,
            Refusal::Blocks => 4,
            Refusal::Size => 5,
            Refusal::Piece => 6,
            Refusal::Generate => 7,
            Refusal::Input => 8,
        }
    }

    /// The word with which its message ends.
    pub fn word(self) -> &'static [u8]
        ensures { result.now ≡ refusal_word self }
    {
        match self {
            Refusal::Words => b"words",
            Refusal::Mode => b"mode",
            Refusal::Workers => b"workers",
            Refusal::Blocks => b"blocks",
            Refusal::Size => b"size",
            Refusal::Piece => b"piece",
            Refusal::Generate => b"generate",
            Refusal::Input => b"input",
        }
    }
}

/// Why reading the words gave no options.
#[derive(Clone, Copy, Debug, PartialEq, Eq)]
pub enum ReadError {
    /// The words are refused.
    Refused(Refusal),
    /// Want of memory.
    Memory,
}

impl From<Refusal> for ReadError {
    ghost from_gives = { λ refusal e. e ≡ Refused refusal };

    fn from(refusal: Refusal) -> ReadError {
        ReadError::Refused(refusal)
    }
}

impl From<Error> for ReadError {
    ghost from_gives = { λ error e. e ≡ error_of (kind_of error) };

    // `clap` refuses the words for one of many causes, and has a kind for want of memory.
    fn from(error: Error) -> ReadError {
        match error.kind() {
            ErrorKind::OutOfMemory => ReadError::Memory,
            _ => ReadError::Refused(Refusal::Words),
        }
    }
}

impl From<AllocError> for ReadError {
    ghost from_gives = { λ _ e. e ≡ Memory };

    fn from(_error: AllocError) -> ReadError {
        ReadError::Memory
    }
}

impl<T: Drop> From<AllocFailed<T>> for ReadError {
    ghost from_gives = { λ _ e. e ≡ Memory };

    fn from(_error: AllocFailed<T>) -> ReadError {
        ReadError::Memory
    }
}
