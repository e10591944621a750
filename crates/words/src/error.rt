//! Why nothing was read.
ghost use Rattle.std.specs.Prelude.{◌≡◌, Some};
ghost use Rattle.words.specs.declared.error.ReadError.TheVariants.{OutOfMemory};
ghost use Rattle.words.specs.Messages.{message};

use std::alloc::{AllocError, AllocFailed};
use std::error::Error;
use std::fmt;

/// Why a reader gives nothing.
#[derive(Clone, Copy, PartialEq, Eq, Debug)]
pub enum ReadError {
    /// The text breaks the form.
    Broken,
    OutOfMemory,
}

impl From<AllocError> for ReadError {
    ghost from_gives = { λ _ e. e ≡ OutOfMemory };

    fn from(_failed: AllocError) -> Self {
        Self::OutOfMemory
    }
}

impl<T: Drop> From<AllocFailed<T>> for ReadError {
    ghost from_gives = { λ _ e. e ≡ OutOfMemory };

    fn from(failed: AllocFailed<T>) -> Self {
        AllocError::from(failed).into()
    }
}

impl fmt::Display for ReadError {
    ghost output = { λ e. Some (message e) };

    fn fmt<W: fmt::Write>(&self, f: &mut fmt::Formatter<W>) -> fmt::Result {
        f.write_str(match self {
            ReadError::Broken => "broken form",
            ReadError::OutOfMemory => "out of memory",
        })
    }
}

impl Error for ReadError {}
