ghost use Rattle.std.specs.Prelude.{◌≡◌, ◌≢◌};
ghost use Rattle.clap.specs.Words.{kind_of};
ghost use Rattle.clap.specs.declared.error.kind.ErrorKind.TheVariants.{OutOfMemory};
ghost use Rattle.word_rules.specs.declared.error.WordsError.TheVariants.{Usage, Memory};

use clap::Error;
use clap::error::ErrorKind;
use std::alloc::AllocError;
use thiserror::Error as ThisError;

/// Why the words of a command line ask for nothing.
#[derive(Clone, Copy, Debug, PartialEq, Eq, ThisError)]
pub enum WordsError {
    #[error("the words are refused")]
    Usage,
    #[error("out of memory")]
    Memory,
}

impl From<AllocError> for WordsError {
    ghost from_gives = { λ _ e. e ≡ Memory };

    fn from(_: AllocError) -> WordsError {
        WordsError::Memory
    }
}

impl From<Error> for WordsError {
    ghost from_gives = { λ error e. e ≡ Usage → kind_of error ≢ OutOfMemory };

    fn from(error: Error) -> WordsError {
        if error.kind() == ErrorKind::OutOfMemory {
            WordsError::Memory
        } else {
            WordsError::Usage
        }
    }
}
