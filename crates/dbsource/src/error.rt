// Why a file was not opened, and why a run did not end with a verdict.
use crate::memory::NoMemory;
use crate::{ReadFailed, Refusal, WriteFailed};
use thiserror::Error;

/// Why a header was not read.
#[derive(Clone, Copy, Debug, Error, PartialEq, Eq)]
pub enum OpenError {
    /// The file's first bytes, or its length, say that it is not to be read.
    #[error("{0}")]
    Refused(Refusal),
    /// The source failed to answer its length, or to read the header.
    #[error("E8 the file cannot be read")]
    ReadFailed,
}

/// Why a run did not end with a verdict. The text of each begins with its number.
#[derive(Clone, Copy, Debug, Error, PartialEq, Eq)]
pub enum RunError {
    /// The file's first bytes, or its length, say that it is not to be read.
    #[error("{0}")]
    Refused(Refusal),
    /// The source failed to answer its length, or a read.
    #[error("E8 the file cannot be read")]
    ReadFailed,
    /// Memory was refused. Outside this crate only a [`NoMemory`] becomes one, so none is answered where nothing was refused.
    #[error("E9 out of memory")]
    #[non_exhaustive]
    OutOfMemory,
    /// An Out failed to take what was put, or to hand it on.
    #[error("E10 the output cannot be written")]
    WriteFailed,
}

impl From<ReadFailed> for OpenError {
    ghost use Rattle.std.specs.Prelude.{◌≡◌};
    ghost use Rattle.dbsource.specs.declared.error.OpenError.TheVariants as open_error;

    ghost from_gives = { λ _ e. e ≡ open_error.ReadFailed };

    fn from(_error: ReadFailed) -> OpenError {
        OpenError::ReadFailed
    }
}

impl From<Refusal> for OpenError {
    ghost use Rattle.std.specs.Prelude.{◌≡◌};
    ghost use Rattle.dbsource.specs.declared.error.OpenError.TheVariants as open_error;

    ghost from_gives = { λ r e. e ≡ open_error.Refused r };

    fn from(refusal: Refusal) -> OpenError {
        OpenError::Refused(refusal)
    }
}

impl From<OpenError> for RunError {
    ghost use Rattle.dbsource.specs.Errors.{run_error};
    ghost use Rattle.std.specs.Prelude.{◌≡◌};

    ghost from_gives = { λ o e. e ≡ run_error o };

    fn from(error: OpenError) -> RunError {
        match error {
            OpenError::Refused(refusal) => RunError::Refused(refusal),
            OpenError::ReadFailed => RunError::ReadFailed,
        }
    }
}

impl From<ReadFailed> for RunError {
    ghost use Rattle.std.specs.Prelude.{◌≡◌};
    ghost use Rattle.dbsource.specs.declared.error.RunError.TheVariants as run_error;

    ghost from_gives = { λ _ e. e ≡ run_error.ReadFailed };

    fn from(_error: ReadFailed) -> RunError {
        RunError::ReadFailed
    }
}

impl From<WriteFailed> for RunError {
    ghost use Rattle.std.specs.Prelude.{◌≡◌};
    ghost use Rattle.dbsource.specs.declared.error.RunError.TheVariants as run_error;

    ghost from_gives = { λ _ e. e ≡ run_error.WriteFailed };

    fn from(_error: WriteFailed) -> RunError {
        RunError::WriteFailed
    }
}

impl From<NoMemory> for RunError {
    ghost use Rattle.std.specs.Prelude.{◌≡◌};
    ghost use Rattle.dbsource.specs.declared.error.RunError.TheVariants as run_error;

    ghost from_gives = { λ _ e. e ≡ run_error.OutOfMemory };

    fn from(_error: NoMemory) -> RunError {
        RunError::OutOfMemory
    }
}
